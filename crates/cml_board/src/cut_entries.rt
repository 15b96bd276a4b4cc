//! The entries that were cut away from a journal: their number, and for contracts alone the entries themselves.
ghost use Rattle.std.specs.Prelude.{◌≡◌, ◌+◌, ◌<◌, ◌^◌, List, [], ◌++◌, length, reverse};

use crate::ghost_entries::GhostEntries;
use std::marker::Model;

/// All entries that were cut away, the newest first. Only their number is kept.
#[derive(Drop)]
pub struct CutEntries<E> {
    count: u64,
    entries: GhostEntries<E>,
}

impl<E> Model for CutEntries<E> {
    ghost Value = { List E };

    ghost view = { λ cut. reverse cut.entries.items };

    ghost invariant = { λ cut. cut.count ≡ length cut.entries.items };
}

impl<E> CutEntries<E> {
    pub fn none() -> CutEntries<E>
        ensures { result ≡ [] }
    {
        CutEntries {
            count: 0,
            entries: GhostEntries::none(),
        }
    }

    pub fn count(&self) -> u64
        ensures { result ≡ length self.now }
    {
        self.count
    }

    /// Adds a journal's entries. The caller may then drop them or hand them over.
    pub fn add_all(&mut self, journal: &Vec<E>)
        requires { length journal.now.items + length self.old < 2 ^ 64 }
        ensures { self.new ≡ reverse journal.now.items ++ self.old }
    {
        self.count += journal.len() as u64;
        self.entries.add_all(journal);
    }
}
