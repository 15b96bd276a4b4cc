ghost use Rattle.std.specs.Prelude.{◌≡◌, []};

use super::sink::Sink;
use cml_board::{Entry, GhostEntries, Message};
use std::alloc::{AllocError, Global};
use std::convert::Infallible;

/// A sink that drops each entry, and never fails.
#[derive(Drop)]
pub struct Dropping<M> {
    dropped: GhostEntries<Entry<M>>,
}

impl<M> Dropping<M> {
    pub fn new() -> Dropping<M>
        ensures { result.dropped.items ≡ [] }
    {
        Dropping {
            dropped: GhostEntries::none(),
        }
    }
}

impl<M: Message> Sink<M> for Dropping<M> {
    type Error = Infallible;

    ghost taken = { λ sink. sink.dropped.items };

    fn take(&mut self, entries: &mut Vec<Entry<M>>) -> Result<(), Infallible> {
        self.dropped.add_all(entries);
        entries.clear();
        Ok(())
    }
}

/// A sink that keeps all entries in memory. It fails only if an allocation fails, and takes nothing then.
#[derive(Drop)]
pub struct Collecting<M> {
    entries: Vec<Entry<M>>,
}

impl<M> Collecting<M> {
    pub fn new(alloc: Global) -> Collecting<M>
        ensures { result.entries.items ≡ [] }
    {
        Collecting {
            entries: Vec::new(alloc),
        }
    }

    /// All entries that it took, oldest first.
    pub fn entries(&self) -> &[Entry<M>]
        ensures { result.now ≡ self.now.entries.items }
    {
        &self.entries
    }
}

impl<M: Message> Sink<M> for Collecting<M> {
    type Error = AllocError;

    ghost taken = { λ sink. sink.entries.items };

    fn take(&mut self, entries: &mut Vec<Entry<M>>) -> Result<(), AllocError> {
        self.entries.append(entries)
    }
}
