//! The lines that a journal's file gets.
ghost use Rattle.std.specs.Prelude.{◌≡◌, ◌++◌, ◌∷◌, Some, OnOk, IfOk, string_bytes};
ghost use Rattle.cml_journal.specs.{from_lines, head_lines, line_of, sealed_header, text_of, with_line_end};
ghost use Rattle.cml_file.specs.{head_of, lines_of};

use crate::fault::Fault;
use crate::judging::More;
use cml_board::Entry;
use cml_journal::{Sum, Written, write_entry};
use std::alloc::{AllocError, Global};

/// No reader takes a line of more bytes, without its line end.
const MOST: usize = 4_194_304;

/// The most bytes of a message's word. Two of them, and what is beside them, fit into a line.
const WORD_MOST: usize = 2_097_088;

/// Returns whether each line that has this message, and another of no more bytes, can be read.
pub(crate) fn fits<M: Written>(alloc: Global, message: Option<&M>) -> Result<bool, AllocError> {
    let Some(message) = message else {
        return Ok(true);
    };
    let mut word = String::new(alloc);
    message.write(&mut word)?;
    Ok(word.len() <= WORD_MOST)
}

/// Returns the lines of entries. Fails with `TooLong` if no reader would take one of them.
pub(crate) fn lines_of<M: Written>(alloc: Global, entries: &[Entry<M>]) -> Result<String, Fault>
    ensures { IfOk result (λ lines. string_bytes lines ≡ lines_of M.text entries.now) }
{
    let mut lines = String::new(alloc);
    for entry in entries {
        add_line(&mut lines, entry)?;
    }
    Ok(lines)
}

fn add_line<M: Written>(lines: &mut String, entry: &Entry<M>) -> Result<(), Fault>
    ensures { OnOk result (string_bytes lines.new ≡ string_bytes lines.old ++ with_line_end (line_of M.text entry.now)) }
{
    let before = lines.len();
    write_entry(lines, entry)?;
    if lines.len() - before > MOST {
        return Err(Fault::TooLong);
    }
    lines.push_str("\n")?;
    Ok(())
}

/// Returns the lines that a text needs before its next entry, which has this position.
pub(crate) fn head_of<M: Written>(
    alloc: Global,
    more: More,
    position: u64,
) -> Result<String, AllocError>
    ensures { IfOk result (λ head. string_bytes head ≡ head_of M.VERSION position more) }
{
    let mut head = String::new(alloc);
    match more {
        More::Entries => {}
        More::Plain => write_plain(&mut head, M::VERSION, position)?,
        More::Sealed(sum) => write_sealed(&mut head, M::VERSION + 2, sum, position)?,
    }
    Ok(head)
}

fn write_plain(head: &mut String, version: u64, position: u64) -> Result<(), AllocError>
    ensures { OnOk result (string_bytes head.new ≡ string_bytes head.old ++ text_of (head_lines version position)) }
{
    write!(head, "journal {version}\n")?;
    write_from(head, position)
}

fn write_sealed(head: &mut String, version: u64, sum: Sum, position: u64) -> Result<(), AllocError>
    ensures { OnOk result (string_bytes head.new
        ≡ string_bytes head.old ++ text_of (sealed_header version (Some sum) ∷ from_lines position)) }
{
    write!(head, "journal {version} ")?;
    sum.write(head)?;
    head.push_str("\n")?;
    write_from(head, position)
}

fn write_from(head: &mut String, position: u64) -> Result<(), AllocError>
    ensures { OnOk result (string_bytes head.new ≡ string_bytes head.old ++ text_of (from_lines position)) }
{
    if position != 0 {
        write!(head, "from {position}\n")?;
    }
    Ok(())
}
