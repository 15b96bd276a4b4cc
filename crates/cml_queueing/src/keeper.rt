//! What becomes of the journal's entries when they are cut away.
ghost use Rattle.std.specs.Prelude.{◌+◌, ◌<◌, ◌^◌, length};

use crate::ending::Ending;
use cml_board::Entry;
use cml_journal::{TooLong, write_piece};
use std::alloc::Global;
use std::io::{ErrorKind, Write};

/// Takes the journal's entries before they are cut away.
pub(crate) trait Keeper {
    /// Keeps entries, the first of which has the position `from`.
    fn keep(&mut self, from: u64, entries: &[Entry<u64>]) -> Result<(), Ending>
        requires { from + length entries.now < 2 ^ 64 };
}

/// Keeps none of them.
#[derive(Drop)]
pub(crate) struct Dropped;

impl Keeper for Dropped {
    fn keep(&mut self, _from: u64, _entries: &[Entry<u64>]) -> Result<(), Ending> {
        Ok(())
    }
}

/// Writes them as pieces of a journal.
#[derive(Drop)]
pub(crate) struct Written<'a, W: Write> {
    pub(crate) alloc: Global,
    pub(crate) writer: &'a mut W,
}

impl<W: Write> Keeper for Written<'_, W> {
    fn keep(&mut self, from: u64, entries: &[Entry<u64>]) -> Result<(), Ending> {
        match write_piece(self.alloc, self.writer, from, entries) {
            Ok(Ok(())) => Ok(()),
            Ok(Err(error)) if error.kind() == ErrorKind::OutOfMemory => Err(Ending::NoMemory),
            // No line of numbers is too long.
            Ok(Err(_)) | Err(TooLong(_)) => Err(Ending::WriteFault),
        }
    }
}
