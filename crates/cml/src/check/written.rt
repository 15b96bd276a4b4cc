//! The verdict is written.
ghost use Rattle.std.specs.Prelude.{◌≡◌, IfOk, IfErr, OnOk, string_bytes};
ghost use Rattle.cml.specs.{IsSilent, IsVerdict, Writes, lines_for};

use crate::check::checking::check_stream;
use crate::check::ending::Ending;
use crate::check::wanted::Wanted;
use cml_grammar::write_whole;
use std::alloc::{AllocError, Global};
use std::io::{Read, Write};
use std::sync::Wait;

/// Checks the journal that the reader gives, and writes that it is lawful, or the first entry that isn't and the right answer to
/// its call. Of a lawful journal it writes what is wanted. It waits for the reader.
pub fn check<S: Wait, R: Read, W: Write>(
    system: &S,
    alloc: Global,
    reader: &mut R,
    writer: &mut W,
    wanted: Wanted,
) -> Ending
    ensures verdict { IsVerdict wanted (R.remaining reader.old) (R.remaining reader.new) result }
    ensures written { Writes result (W.contents writer.old) (W.contents writer.new) }
{
    let ending = check_stream(system, alloc, reader, wanted);
    match tell(alloc, writer, &ending) {
        Ok(()) => ending,
        Err(why) => why,
    }
}

/// Writes a verdict, if this is one.
#[tactic(auto, using(crate::proofs::EndingsLemmas::writes_line, crate::proofs::EndingsLemmas::writes_nothing))]
fn tell<W: Write>(alloc: Global, writer: &mut W, ending: &Ending) -> Result<(), Ending>
    ensures written { OnOk result (Writes ending.now (W.contents writer.old) (W.contents writer.new)) }
    ensures unwritten { IfErr result (λ why. IsSilent why × Writes why (W.contents writer.old) (W.contents writer.new)) }
{
    let lines = lines_for(alloc, ending)?;
    if lines.is_empty() {
        return Ok(());
    }
    match write_whole(writer, lines.as_bytes()) {
        Ok(()) => Ok(()),
        Err(_) => Err(Ending::WriteFault),
    }
}

/// The lines of a verdict, and nothing for another ending.
fn lines_for(alloc: Global, ending: &Ending) -> Result<String, AllocError>
    ensures { IfOk result (λ lines. string_bytes lines ≡ lines_for ending.now) }
{
    let mut lines = String::new(alloc);
    match ending {
        Ending::Lawful(count, state) => write!(lines, "lawful {count}\n{state}")?,
        Ending::Unlawful(at, entry, answer) => {
            write!(lines, "unlawful at {at}: {entry}\nanswer: {answer}\n")?;
        }
        Ending::Compacted(journal) => lines.push_str(journal)?,
        _ => {}
    }
    Ok(lines)
}
