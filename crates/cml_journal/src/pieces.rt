//! How pieces of a journal are written.
ghost use Rattle.std.specs.Prelude.{◌≡◌, ◌<◌, ◌+◌, ◌^◌, ◌++◌, IfOk, IfErr, OnOk, OnErr};
ghost use Rattle.std.specs.Prelude.{MatchBool, MatchOption, string_bytes, length, codes};
ghost use Rattle.std.specs.Io.KnownBytes.{Appends};
ghost use Rattle.std.specs.List.{flat_map};
ghost use Rattle.std.specs.Option.{option_map};
ghost use Rattle.cml_journal.specs.{Summed, and_bytes, line_of, numbered_line, with_line_end, text_of, from_lines, head_lines};
ghost use Rattle.cml_journal.specs.{piece_lines, WritesSummed, most, IsShort, AreShort, IsTooLong, MayBeTooLong};

use crate::fault::{TooLong, Unwritten};
use crate::reader::MOST;
use crate::spelling::{OwnWords, Spelling};
use crate::summing::Summing;
use crate::writing::{write_entry, write_entry_in};
use crate::written::Written;
use cml_board::Entry;
use cml_grammar::write_whole;
use std::alloc::{AllocError, Global};
use std::io::{self, Write};

/// How many bytes of a piece are gathered before they are written.
const MANY: usize = 8_192;

/// Writes a piece, and flushes the writer. It allocates memory for a part of the piece's text: at most one line more than 8,192
/// bytes.
///
/// Errors: the place of the first entry whose line no reader takes, and then nothing was written; or an `io::Error`, and then it
/// may have written some bytes. Each line is written into memory first, to see how long it is.
pub fn write_piece<M: Written, W: Write>(
    alloc: Global,
    writer: &mut W,
    from: u64,
    entries: &[Entry<M>],
) -> Result<io::Result<()>, TooLong>
    requires { from + length entries.now < 2 ^ 64 }
    ensures written { IfOk result (λ done. OnOk done (Appends (W.contents writer.old) (W.contents writer.new)
        (text_of (piece_lines M.VERSION M.text from entries.now)))) }
    // Each line of what was written is read.
    ensures short { IfOk result (λ done. OnOk done (AreShort M.text entries.now)) }
    ensures long { IfErr result (λ long. IsTooLong M.text entries.now long.0) }
    ensures unwritten { OnErr result (W.contents writer.new ≡ W.contents writer.old) }
{
    match too_long(alloc, entries) {
        Ok(Some(place)) => Err(TooLong(place)),
        Ok(None) => Ok(write_short(alloc, writer, from, entries)),
        Err(error) => Ok(Err(error.into())),
    }
}

/// Writes a piece whose lines are short enough.
fn write_short<M: Written, W: Write>(
    alloc: Global,
    writer: &mut W,
    from: u64,
    entries: &[Entry<M>],
) -> io::Result<()>
    requires { from + length entries.now < 2 ^ 64 }
    ensures { OnOk result (Appends (W.contents writer.old) (W.contents writer.new)
        (text_of (piece_lines M.VERSION M.text from entries.now))) }
{
    let mut text = String::new(alloc);
    write_head(&mut text, M::VERSION, from)?;
    write_lines(writer, &mut text, &mut None, entries)?;
    write_numbered(&mut text, "end", from + entries.len() as u64)?;
    write_whole(writer, text.as_bytes())
}

/// The place of the first entry whose line no reader takes, if there is one.
pub(crate) fn too_long<M: Written>(
    alloc: Global,
    entries: &[Entry<M>],
) -> Result<Option<u64>, AllocError>
    ensures { IfOk result (λ found. MatchOption found (AreShort M.text entries.now) (IsTooLong M.text entries.now)) }
{
    let mut line = String::new(alloc);
    let mut place = 0;
    for entry in entries {
        line.clear();
        if !add_line(&mut line, &OwnWords, entry)? {
            return Ok(Some(place));
        }
        place += 1;
    }
    Ok(None)
}

/// Adds an entry's line, without a line end, and says whether a reader takes it.
fn add_line<M, S: Spelling<M>>(
    text: &mut String,
    spelling: &S,
    entry: &Entry<M>,
) -> Result<bool, AllocError>
    ensures line { OnOk result (string_bytes text.new ≡ string_bytes text.old ++ line_of (S.word spelling.now) entry.now) }
    ensures short { IfOk result (λ short. MatchBool short (IsShort (S.word spelling.now) entry.now)
        (most < length (line_of (S.word spelling.now) entry.now))) }
{
    let before = text.len();
    write_entry_in(text, spelling, entry)?;
    Ok(text.len() - before <= MOST)
}

/// Adds the lines of entries to a text, and writes what it has whenever that is much. What it writes it sums, if there is a sum
/// to make.
pub(crate) fn write_lines<M: Written, W: Write>(
    writer: &mut W,
    text: &mut String,
    summing: &mut Option<Summing>,
    entries: &[Entry<M>],
) -> io::Result<()>
    ensures { OnOk result (WritesSummed (W.contents writer.old) (W.contents writer.new)
        (string_bytes text.old ++ flat_map (λ entry. with_line_end (line_of M.text entry)) entries.now) (string_bytes text.new)
        summing.old summing.new) }
{
    for entry in entries {
        write_entry(text, entry)?;
        text.push_str("\n")?;
        write_much(writer, text, summing)?;
    }
    Ok(())
}

/// Writes a text and empties it, if it has many bytes.
fn write_much<W: Write>(
    writer: &mut W,
    text: &mut String,
    summing: &mut Option<Summing>,
) -> io::Result<()>
    ensures { OnOk result (WritesSummed (W.contents writer.old) (W.contents writer.new) (string_bytes text.old) (string_bytes text.new)
        summing.old summing.new) }
{
    if text.len() < MANY {
        return Ok(());
    }
    writer.write_all(text.as_bytes())?;
    sum_text(summing, text);
    text.clear();
    Ok(())
}

/// Sums a text, if there is a sum to make.
fn sum_text(summing: &mut Option<Summing>, text: &str)
    ensures { summing.new ≡ option_map (λ (s : Summed). and_bytes s text.now) summing.old }
{
    if let Some(summing) = summing {
        summing.add(text.as_bytes());
    }
}

/// Adds a piece: its header, the position of its first entry unless that is 0, its entries and its end. It fails at the first
/// entry whose line no reader takes, or if there is no memory. Then it may have added a part of the piece.
pub fn add_piece<M: Written>(
    text: &mut String,
    from: u64,
    entries: &[Entry<M>],
) -> Result<(), Unwritten>
    requires { from + length entries.now < 2 ^ 64 }
    ensures added { OnOk result (string_bytes text.new ≡ string_bytes text.old ++ text_of (piece_lines M.VERSION M.text from entries.now)) }
    // Each line of what was added is read.
    ensures short { OnOk result (AreShort M.text entries.now) }
    ensures long { IfErr result (MayBeTooLong M.text entries.now) }
{
    add_piece_in(text, &OwnWords, from, entries)
}

/// Adds a piece whose messages are spelled so, as [`add_piece`] does.
pub fn add_piece_in<M, S: Spelling<M>>(
    text: &mut String,
    spelling: &S,
    from: u64,
    entries: &[Entry<M>],
) -> Result<(), Unwritten>
    requires { from + length entries.now < 2 ^ 64 }
    ensures added { OnOk result (string_bytes text.new
        ≡ string_bytes text.old ++ text_of (piece_lines (S.version spelling.now) (S.word spelling.now) from entries.now)) }
    ensures short { OnOk result (AreShort (S.word spelling.now) entries.now) }
    ensures long { IfErr result (MayBeTooLong (S.word spelling.now) entries.now) }
{
    write_head(text, spelling.version(), from)?;
    write_entries(text, spelling, entries)?;
    write_numbered(text, "end", from + entries.len() as u64)?;
    Ok(())
}

fn write_numbered(text: &mut String, word: &str, number: u64) -> Result<(), AllocError>
    ensures { OnOk result (string_bytes text.new ≡ string_bytes text.old ++ with_line_end (numbered_line word.now number)) }
{
    write!(text, "{word} {number}\n")
}

fn write_head(text: &mut String, version: u64, from: u64) -> Result<(), AllocError>
    ensures { OnOk result (string_bytes text.new ≡ string_bytes text.old ++ text_of (head_lines version from)) }
{
    write_numbered(text, "journal", version)?;
    write_from(text, from)
}

pub(crate) fn write_from(text: &mut String, from: u64) -> Result<(), AllocError>
    ensures { OnOk result (string_bytes text.new ≡ string_bytes text.old ++ text_of (from_lines from)) }
{
    if from != 0 {
        write_numbered(text, "from", from)?;
    }
    Ok(())
}

pub(crate) fn write_entries<M, S: Spelling<M>>(
    text: &mut String,
    spelling: &S,
    entries: &[Entry<M>],
) -> Result<(), Unwritten>
    ensures lines { OnOk result (string_bytes text.new
        ≡ string_bytes text.old ++ flat_map (λ entry. with_line_end (line_of (S.word spelling.now) entry)) entries.now) }
    ensures short { OnOk result (AreShort (S.word spelling.now) entries.now) }
    ensures long { IfErr result (MayBeTooLong (S.word spelling.now) entries.now) }
{
    let mut place = 0;
    for entry in entries {
        if !add_line(text, spelling, entry)? {
            return Err(Unwritten::TooLong(place));
        }
        text.push_str("\n")?;
        place += 1;
    }
    Ok(())
}
