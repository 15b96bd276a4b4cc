//! How pieces with sums are written.
ghost use Rattle.std.specs.Prelude.{◌≡◌, ◌<◌, ◌≤◌, ◌+◌, drop, ◌^◌, ◌++◌, ◌∷◌, IfSome, IfOk, IfErr, OnOk, OnErr, string_bytes, length};
ghost use Rattle.std.specs.Io.KnownBytes.{Appends};
ghost use Rattle.cml_journal.specs.{named_line, with_line_end, text_of, from_lines, sealed_header, piece_sum, sealed_piece_lines};
ghost use Rattle.cml_journal.specs.{AreShort, IsTooLong, MayBeTooLong, and_bytes, sum_by, sum_of};

use crate::fault::{TooLong, Unwritten};
use crate::pieces::{too_long, write_entries, write_from, write_lines};
use crate::spelling::OwnWords;
use crate::sum::Sum;
use crate::summing::Summing;
use crate::written::Written;
use cml_board::Entry;
use cml_grammar::write_whole;
use std::alloc::{AllocError, Global};
use std::io::{self, Write};

/// Adds a sealed piece, after one with the sum `after` if there is one: a piece as [`add_piece`](crate::add_piece) adds it, with
/// that sum in its header, and its own in its last line. It returns its sum.
///
/// Errors: as `add_piece`.
pub fn add_sealed_piece<M: Written>(
    text: &mut String,
    after: Option<Sum>,
    from: u64,
    entries: &[Entry<M>],
) -> Result<Sum, Unwritten>
    requires { from + length entries.now < 2 ^ 64 }
    ensures added { OnOk result (string_bytes text.new
        ≡ string_bytes text.old ++ text_of (sealed_piece_lines M.VERSION M.text after from entries.now)) }
    ensures sum { IfOk result (λ sum. sum ≡ piece_sum M.VERSION M.text after from entries.now) }
    // Each line of what was added is read.
    ensures short { OnOk result (AreShort M.text entries.now) }
    ensures long { IfErr result (MayBeTooLong M.text entries.now) }
{
    let start = text.as_bytes().len();
    write_sealed_head::<M>(text, after, from)?;
    write_entries(text, &OwnWords, entries)?;
    let sum = sum_from(text.as_bytes(), start)?;
    write_named(text, "end", from + entries.len() as u64, Some(sum))?;
    Ok(sum)
}

/// The sum of the bytes from this place on.
fn sum_from(bytes: &[u8], start: usize) -> Result<Sum, AllocError>
    requires { start ≤ length bytes.now }
    ensures { IfOk result (λ sum. sum ≡ sum_of (drop start bytes.now)) }
{
    let mut summing = Summing::new();
    summing.add(&bytes[start..]);
    summing.sum()
}

/// Writes a sealed piece, after one with the sum `after` if there is one, as [`write_piece`](crate::write_piece) writes a piece.
/// It returns its sum.
///
/// Errors: as `write_piece`.
pub fn write_sealed_piece<M: Written, W: Write>(
    alloc: Global,
    writer: &mut W,
    after: Option<Sum>,
    from: u64,
    entries: &[Entry<M>],
) -> Result<io::Result<Sum>, TooLong>
    requires { from + length entries.now < 2 ^ 64 }
    ensures written { IfOk result (λ done. OnOk done (Appends (W.contents writer.old) (W.contents writer.new)
        (text_of (sealed_piece_lines M.VERSION M.text after from entries.now)))) }
    ensures sum { IfOk result (λ done. IfOk done (λ sum. sum ≡ piece_sum M.VERSION M.text after from entries.now)) }
    // Each line of what was written is read.
    ensures short { IfOk result (λ done. OnOk done (AreShort M.text entries.now)) }
    ensures long { IfErr result (λ long. IsTooLong M.text entries.now long.0) }
    ensures unwritten { OnErr result (W.contents writer.new ≡ W.contents writer.old) }
{
    match too_long(alloc, entries) {
        Ok(Some(place)) => Err(TooLong(place)),
        Ok(None) => Ok(write_short(alloc, writer, after, from, entries)),
        Err(error) => Ok(Err(error.into())),
    }
}

/// Writes a sealed piece whose lines are short enough.
fn write_short<M: Written, W: Write>(
    alloc: Global,
    writer: &mut W,
    after: Option<Sum>,
    from: u64,
    entries: &[Entry<M>],
) -> io::Result<Sum>
    requires { from + length entries.now < 2 ^ 64 }
    ensures written { OnOk result (Appends (W.contents writer.old) (W.contents writer.new)
        (text_of (sealed_piece_lines M.VERSION M.text after from entries.now))) }
    ensures sum { IfOk result (λ sum. sum ≡ piece_sum M.VERSION M.text after from entries.now) }
{
    let mut text = String::new(alloc);
    let mut summing = Some(Summing::new());
    write_sealed_head::<M>(&mut text, after, from)?;
    write_lines(writer, &mut text, &mut summing, entries)?;
    let sum = last_sum(summing, &text)?;
    write_named(&mut text, "end", from + entries.len() as u64, Some(sum))?;
    write_whole(writer, text.as_bytes())?;
    Ok(sum)
}

/// The sum of a text after what was summed before.
fn last_sum(summing: Option<Summing>, text: &str) -> Result<Sum, AllocError>
    ensures { IfOk result (λ sum. IfSome summing (λ before. sum ≡ sum_by (and_bytes before text.now))) }
{
    let mut summing = summing.unwrap_or_else(Summing::new);
    summing.add(text.as_bytes());
    summing.sum()
}

/// Adds a line of a word, a number, and a sum if there is one.
fn write_named(
    text: &mut String,
    word: &str,
    number: u64,
    sum: Option<Sum>,
) -> Result<(), AllocError>
    ensures { OnOk result (string_bytes text.new ≡ string_bytes text.old ++ with_line_end (named_line word.now number sum)) }
{
    write!(text, "{word} {number}")?;
    if let Some(sum) = sum {
        text.push_str(" ")?;
        sum.write(text)?;
    }
    text.push_str("\n")
}

fn write_sealed_head<M: Written>(
    text: &mut String,
    after: Option<Sum>,
    from: u64,
) -> Result<(), AllocError>
    ensures { OnOk result (string_bytes text.new
        ≡ string_bytes text.old ++ text_of (sealed_header (M.VERSION + 2) after ∷ from_lines from)) }
{
    write_named(text, "journal", M::VERSION + 2, after)?;
    write_from(text, from)
}
