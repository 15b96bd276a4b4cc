//! What is left of an item that was moved out.
ghost use Rattle.std.specs.Prelude.{◌≡◌};
ghost use base.Fml.{ftrue};

use std::marker::{Model, PhantomData, Send};

/// Which item was moved out, for contracts alone: it has no bytes, and so no last value.
pub(crate) struct Gone<T> {
    mark: PhantomData<*const T>,
    pub ghost item: { T },
}

impl<T> Model for Gone<T> {
    ghost also_owns = { λ _. ftrue };
}

impl<T> Drop for Gone<T> {
    fn drop(self) {
        let Gone { mark: _ } = self;
    }
}

unsafe impl<T: Send> Send for Gone<T> {}

impl<T> Gone<T> {
    pub(crate) fn of(_item: &T) -> Gone<T>
        ensures { result.item ≡ _item.now }
    {
        Gone { mark: PhantomData }
    }
}
