//! What a journal's file has still to get.
ghost use Rattle.std.specs.Prelude.{◌≡◌, ◌+◌, ◌-◌, ◌≤◌, ◌^◌, ◌++◌, [], take, drop, length, IfSome, OnOk, OnErr};
ghost use Rattle.cml_store.specs.Machine.{accepted_by};
ghost use Rattle.cml_file.specs.{lines_of};

use crate::fault::Fault;
use crate::lines;
use cml_board::Entry;
use cml_journal::Written;
use cml_store::{Store, Unaccepted};
use std::alloc::Global;

/// A file's text whose memory is kept, up to as many bytes.
const SPARE: usize = 1 << 16;

/// The entries that were taken of a journal and have no line yet, and the end of the file's text, of which some is not stored.
#[derive(Drop)]
pub(crate) struct Filing<M> {
    alloc: Global,
    pub(crate) store: Store,
    /// The place of the first of these bytes.
    start: u64,
    bytes: Vec<u8>,
    pub(crate) pending: Vec<Entry<M>>,
    // Each byte that was accepted and is not stored is here, at its place.
    ghost counted: { start + length bytes.items ≡ store.accepted },
}

impl<M: Written> Filing<M> {
    /// That of a file with so many bytes, of which this text is kept.
    pub(crate) fn opened(alloc: Global, text: Vec<u8>, size: u64) -> Filing<M>
        requires { length text.items ≤ 2 ^ 62 }
        ensures bytes { result.bytes.items ≡ text.items }
        ensures start { result.start ≡ 0 }
    {
        Filing {
            alloc,
            store: Store::opened(text.len() as u64, size),
            start: 0,
            bytes: text,
            pending: Vec::new(alloc),
        }
    }

    /// Takes entries of the journal, oldest first, which are pending then.
    pub(crate) fn take(&mut self, entries: Vec<Entry<M>>)
        requires { self.old.pending.items ≡ [] }
        ensures pending { self.new.pending.items ≡ entries.items }
        ensures bytes { self.new.bytes.items ≡ self.old.bytes.items }
        ensures store { self.new.store ≡ self.old.store }
    {
        self.pending = entries;
    }

    /// Adds the lines of the pending entries to the text. If it fails, all are pending.
    pub(crate) fn enter(&mut self) -> Result<(), Fault>
        ensures lines { OnOk result (self.new.bytes.items ≡ self.old.bytes.items ++ lines_of M.text self.old.pending.items) }
        ensures none { OnOk result (self.new.pending.items ≡ []) }
        ensures same { OnErr result ((self.new.bytes.items ≡ self.old.bytes.items)
            × (self.new.pending.items ≡ self.old.pending.items)) }
        ensures start { self.new.start ≡ self.old.start }
    {
        let lines = lines::lines_of(self.alloc, &self.pending)?;
        self.add(lines.as_bytes())?;
        self.pending.clear();
        Ok(())
    }

    /// Adds lines to the text. If it fails, it adds none.
    pub(crate) fn add(&mut self, lines: &[u8]) -> Result<(), Fault>
        ensures bytes { OnOk result (self.new.bytes.items ≡ self.old.bytes.items ++ lines.now) }
        ensures store { OnOk result (self.new.store ≡ accepted_by (length lines.now) self.old.store) }
        ensures same { OnErr result ((self.new.bytes.items ≡ self.old.bytes.items) × (self.new.store ≡ self.old.store)) }
        ensures start { self.new.start ≡ self.old.start }
        ensures pending { self.new.pending.items ≡ self.old.pending.items }
    {
        let before = self.bytes.len();
        self.bytes.extend_from_slice(lines)?;
        match self.store.accept(lines.len() as u64) {
            Ok(_) => Ok(()),
            Err(unaccepted) => {
                self.bytes.truncate(before);
                Err(fault_of(unaccepted))
            }
        }
    }

    /// The text between two places, if it is here.
    pub(crate) fn text(&self, from: u64, to: u64) -> Option<&[u8]>
        ensures { IfSome result (λ text. text.now ≡ take (to - from) (drop (from - self.now.start) self.now.bytes.items)) }
    {
        let first = from.checked_sub(self.start)? as usize;
        let last = to.checked_sub(self.start)? as usize;
        self.bytes.get(first..last)
    }

    /// Forgets the text, once all of it is stored.
    pub(crate) fn forget(&mut self)
        requires { self.old.store.accepted ≤ self.old.store.stored }
        ensures store { self.new.store ≡ self.old.store }
        ensures pending { self.new.pending.items ≡ self.old.pending.items }
    {
        self.start = self.store.accepted();
        if self.bytes.capacity() > SPARE {
            self.bytes = Vec::new(self.alloc);
        } else {
            self.bytes.clear();
        }
    }
}

fn fault_of(unaccepted: Unaccepted) -> Fault {
    match unaccepted {
        Unaccepted::Closed => Fault::Lost,
        Unaccepted::Full => Fault::Full,
        Unaccepted::NoRoom => Fault::NoRoom,
    }
}
