//! A reader's bytes, up to a limit.
ghost use Rattle.std.specs.Prelude.{◌≡◌, ◌<◌, ◌≤◌, ◌++◌, ℕ, List, IfOk, IsTrue, length};
ghost use Rattle.std.specs.Io.KnownBytes.{Consumes, IsAtEnd};
ghost use Rattle.cml_grammar.specs.declared.input.Unread.TheVariants.{Memory};
ghost use Rattle.cml_grammar.specs.{IsReadUpTo};

use std::alloc::{AllocError, Global};
use std::io::{ErrorKind, Read};

/// The most bytes that the reader is asked for at once.
const ROOM: usize = 65_536;

/// The reason why a reader's bytes were not read.
#[derive(Clone, Copy, Debug, PartialEq, Eq)]
pub enum Unread {
    /// A read failed, or the reader was asked too often.
    Failed,
    /// There was no memory.
    Memory,
}

impl From<AllocError> for Unread {
    ghost from_gives = { λ _ unread. unread ≡ Memory };

    fn from(_error: AllocError) -> Unread {
        Unread::Memory
    }
}

/// Reads all bytes of a reader, or the first `most` if there are more. It repeats an interrupted read. Fails with `Failed`
/// if a read fails, or if `calls` reads do not reach the end.
pub fn read_up_to<R: Read>(
    alloc: Global,
    reader: &mut R,
    most: usize,
    calls: usize,
) -> Result<Vec<u8>, Unread>
    requires some { 0 < most }
    ensures { IfOk result (λ bytes. IsReadUpTo most (R.remaining reader.old) (R.remaining reader.new) bytes.items) }
{
    let mut bytes = Vec::new(alloc);
    let mut room = [0; ROOM];
    for _ in 0..calls {
        if read_more(reader, most, &mut room, &mut bytes)? || bytes.len() >= most {
            return Ok(bytes);
        }
    }
    Err(Unread::Failed)
}

/// Asks the reader once, adds what it gave, and answers whether it was at its end.
fn read_more<R: Read>(
    reader: &mut R,
    most: usize,
    room: &mut [u8],
    bytes: &mut Vec<u8>,
) -> Result<bool, Unread>
    requires short { length bytes.old.items < most }
    requires room { 0 < length room.old }
    ensures end { IfOk result (λ ended. IsTrue ended → IsAtEnd (R.remaining reader.new)) }
    ensures more { IfOk result (λ ended. (given : List ℕ) × Consumes (R.remaining reader.old) (R.remaining reader.new) given
        × (bytes.new.items ≡ bytes.old.items ++ given)) }
    ensures few { IfOk result (λ ended. length bytes.new.items ≤ most) }
    ensures same { length room.new ≡ length room.old }
{
    let asked = room.len().min(most - bytes.len());
    match reader.read(&mut room[..asked]) {
        Ok(0) => Ok(true),
        Ok(n) => {
            bytes.extend_from_slice(&room[..n])?;
            Ok(false)
        }
        Err(error) if error.kind() == ErrorKind::Interrupted => Ok(false),
        Err(_) => Err(Unread::Failed),
    }
}
