//! A script's bytes.
ghost use Rattle.std.specs.Prelude.{IfOk};
ghost use Rattle.cml_report.specs.{IsRead};

use cml_grammar::{Unread, read_up_to};
use std::alloc::Global;
use std::io::Read;

/// A script has fewer bytes than this, so that no more is read.
const MOST_BYTES: usize = 1_048_577;

/// The most reads, so that a reader that never ends does not keep the program.
const MOST_CALLS: usize = 2_097_152;

/// Reads all bytes, or the first 1,048,577 if there are more.
pub fn read_all<R: Read>(alloc: Global, reader: &mut R) -> Result<Vec<u8>, Unread>
    ensures { IfOk result (λ bytes. IsRead (R.remaining reader.old) (R.remaining reader.new) bytes.items) }
{
    read_up_to(alloc, reader, MOST_BYTES, MOST_CALLS)
}
