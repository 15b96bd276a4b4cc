//! What C holds: a handle, which leads to a room, a lane, a feed, a journal, a check or an entry, and the slot that C gets one in.
ghost use Rattle.std.specs.Prelude.{◌≡◌, Option, Some, IfOk};
ghost use Rattle.cml_c.specs.declared.owned.Owned.{Owned};
ghost use Rattle.cml_c.specs.Owning.{owned_coded, slot_coded};
ghost use Rattle.cml_c.specs.contracts.owned.Owned.{the_row as owned_row};

use crate::owned::Owned;
use crate::raw::Loose;
use std::alloc::{AllocError, Global};
use std::marker::{Model, Send};
use std::mem;

/// A room, a lane or a feed on the heap. In C it is the same struct as `Slot`.
#[repr(C)]
pub struct Handle {
    at: *mut u8,
    alloc: Global,
    pub ghost owned: { Owned } by { owned_coded owned_row },
}

impl Model for Handle {
    ghost use Rattle.cml_c.specs.contracts.owned.Owned.{the_row as owned_row};
    ghost use Rattle.cml_c.specs.Owning.{handle_owns};

    ghost also_owns = { λ handle. handle_owns owned_row handle.alloc handle.at handle.owned };
}

/// Where a handle is written. What C had there before is forgotten; once a handle was written, C has one there, and `owned` is
/// what it leads to.
#[repr(C)]
#[derive(Drop)]
pub struct Slot {
    at: *mut u8,
    alloc: Global,
    pub ghost owned: { Option Owned } by { slot_coded owned_row },
}

impl Model for Slot {
    ghost use Rattle.cml_c.specs.contracts.owned.Owned.{the_row as owned_row};
    ghost use Rattle.cml_c.specs.Owning.{slot_owns};

    ghost also_owns = { λ slot. slot_owns owned_row slot.alloc slot.at slot.owned };
}

unsafe impl Send for Handle {}

impl Drop for Handle {
    fn drop(self) {
        drop(self.into_box());
    }
}

impl Handle {
    ghost use Rattle.std.specs.Borrow.{sem};
    ghost use Rattle.cml_c.specs.Lending.{handle_follows};

    /// Makes a handle to this. Fails only for want of memory, and then drops it.
    pub(crate) fn new(alloc: Global, owned: Owned) -> Result<Handle, AllocError>
        ensures { IfOk result (λ handle. handle.owned ≡ owned) }
    {
        Ok(Handle::of(Loose::of(Box::new(alloc, owned)?)))
    }

    /// Returns what it leads to, and frees the handle's memory.
    pub(crate) fn into_owned(self) -> Owned
        ensures { result ≡ self.owned }
    {
        Box::into_inner(self.into_box())
    }

    /// Hands the handle to C: the slot, written into C's memory, is a handle there.
    pub(crate) fn into_slot(self) -> Slot
        ensures { result.owned ≡ Some self.owned }
    {
        let Handle { at, alloc } = self;
        Slot { at, alloc }
    }

    /// Lets it lead to this. What it led to before is dropped.
    pub(crate) fn set(&mut self, owned: Owned)
        ensures { self.new.owned ≡ owned }
    {
        drop(mem::replace(self.as_mut(), owned));
    }

    /// Lends what it leads to.
    #[inline]
    pub(crate) fn as_mut(&mut self) -> &mut Owned
        ensures* writes_back { sem 𝓛 (handle_follows self.entry result) }
        ensures value { result.now ≡ self.old.owned }
    {
        unsafe { &mut *(self.at as *mut Owned) }
    }

    fn of(loose: Loose<Owned, Global>) -> Handle
        ensures { result.owned ≡ loose.content }
    {
        let Loose { at, alloc } = loose;
        Handle {
            at: at as *mut u8,
            alloc,
        }
    }

    fn into_box(self) -> Box<Owned, Global>
        ensures { result.value ≡ self.owned }
    {
        let Handle { at, alloc } = self;
        unsafe { Box::from_raw(alloc, at as *mut Owned) }
    }
}
