//! A script that has no lanes and feeds is read.

use crate::ending::Ending;
use cml_grammar::{Fault, Script, What, read_script};
use cml_report::read_all;
use std::alloc::Global;
use std::io::Read;

/// Reads a script. Lanes and feeds need threads, so a script that has one fails with `NeedsRun`.
pub(crate) fn read<R: Read>(alloc: Global, reader: &mut R) -> Result<Script, Ending> {
    let text = read_all(alloc, reader)?;
    let script = read_script(alloc, &text)?;
    match script.first_ring() {
        Some(line) => Err(Ending::from(Fault {
            line,
            what: What::NeedsRun,
        })),
        None => Ok(script),
    }
}
