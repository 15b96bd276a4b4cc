//! Entries that no memory keeps, for contracts alone.
ghost use Rattle.std.specs.Prelude.{◌≡◌, List, [], ◌++◌};
ghost use base.Fml.{ftrue};

use std::marker::{Model, PhantomData, Send};

/// Entries that no memory keeps, oldest first. They have no bytes, so a program can't read them. A sink that writes its entries
/// away has one: it adds what it wrote, and clears the list.
#[derive(Drop)]
pub struct GhostEntries<E> {
    mark: PhantomData<*const E>,
    pub ghost items: { List E },
}

impl<E> Model for GhostEntries<E> {
    ghost also_owns = { λ _. ftrue };
}

unsafe impl<E: Send> Send for GhostEntries<E> {}

impl<E> GhostEntries<E> {
    pub fn none() -> GhostEntries<E>
        ensures { result.items ≡ [] }
    {
        GhostEntries { mark: PhantomData }
    }

    // This only says to contracts that these entries are among them.
    pub fn add_all(&mut self, entries: &Vec<E>)
        ensures { self.new.items ≡ self.old.items ++ entries.now.items }
    {}
}
