//! What the next line of a journal may be, and what of it was found, in words for a person.
ghost use Rattle.std.specs.Prelude.{◌≡◌, ◌+◌, ◌++◌, ◌==◌, ◌<◌, if◌then◌else◌, OnOk, Some, string_bytes, map, take};
ghost use Rattle.cml_journal.specs.{due_inside, end_due, first_due, from_due, headers_due, named_line, quoted, sealed_header, shown_byte};
ghost use Rattle.cml_journal.specs.{shown_front, shown_line, stage_due};

use crate::reader::{Form, Link, Stage};
use crate::sum::Sum;
use crate::summing::Summing;
use crate::written::Written;
use std::alloc::AllocError;

/// The most bytes of a line that are shown.
const SHOWN: usize = 80;

/// Adds a line between backquotes: a word, a number, and a sum if there is one.
fn write_quoted(
    text: &mut String,
    word: &str,
    number: u64,
    sum: Option<Sum>,
) -> Result<(), AllocError>
    ensures { OnOk result (string_bytes text.new ≡ string_bytes text.old ++ quoted (named_line word.now number sum)) }
{
    write!(text, "`{word} {number}")?;
    if let Some(sum) = sum {
        text.push_str(" ")?;
        sum.write(text)?;
    }
    text.push_str("`")
}

/// Adds the headers without a sum.
fn write_first<M: Written>(text: &mut String) -> Result<(), AllocError>
    ensures { OnOk result (string_bytes text.new ≡ string_bytes text.old ++ first_due M.VERSION) }
{
    write_quoted(text, "journal", M::VERSION, None)?;
    text.push_str(" or ")?;
    write_quoted(text, "journal", M::VERSION + 2, None)
}

/// Adds the header after a piece with this sum.
fn write_next<M: Written>(text: &mut String, sum: Sum) -> Result<(), AllocError>
    ensures { OnOk result (string_bytes text.new ≡ string_bytes text.old ++ quoted (sealed_header (M.VERSION + 2) (Some sum))) }
{
    write_quoted(text, "journal", M::VERSION + 2, Some(sum))
}

/// Adds the headers that a piece may begin with.
fn write_headers<M: Written>(text: &mut String, link: Link) -> Result<(), AllocError>
    ensures { OnOk result (string_bytes text.new ≡ string_bytes text.old ++ headers_due M.VERSION link) }
{
    match link {
        Link::Any => {
            write_first::<M>(text)?;
            text.push_str(", the last with a sum or without")
        }
        Link::First => write_first::<M>(text),
        Link::Unsealed => write_quoted(text, "journal", M::VERSION, None),
        Link::Behind(sum) => write_next::<M>(text, sum),
    }
}

/// Adds the end of a piece at this position.
fn write_end(
    text: &mut String,
    form: Form,
    summing: &Summing,
    position: u64,
) -> Result<(), AllocError>
    ensures { OnOk result (string_bytes text.new ≡ string_bytes text.old ++ end_due form summing.now position) }
{
    match form {
        Form::Plain => write_quoted(text, "end", position, None),
        Form::Sealed => write_quoted(text, "end", position, Some(summing.sum()?)),
    }
}

/// Adds that an entry is due, if one more may be counted, or else the end of the piece.
fn write_inside(
    text: &mut String,
    form: Form,
    summing: &Summing,
    position: u64,
) -> Result<(), AllocError>
    ensures { OnOk result (string_bytes text.new ≡ string_bytes text.old ++ due_inside form summing.now position) }
{
    if position < u64::MAX {
        text.push_str("an entry, or ")?;
    }
    write_end(text, form, summing, position)
}

/// Adds what a line after a header may be, if the piece has to begin at this position.
fn write_behind_header(
    text: &mut String,
    form: Form,
    summing: &Summing,
    position: u64,
) -> Result<(), AllocError>
    ensures { OnOk result (string_bytes text.new
        ≡ string_bytes text.old ++ (if position == 0 then due_inside form summing.now 0 else from_due position)) }
{
    if position == 0 {
        return write_inside(text, form, summing, 0);
    }
    write_quoted(text, "from", position, None)
}

/// Adds what a line may be at this stage.
pub(crate) fn write_due<M: Written>(
    text: &mut String,
    stage: Stage,
    summing: &Summing,
) -> Result<(), AllocError>
    ensures { OnOk result (string_bytes text.new ≡ string_bytes text.old ++ stage_due M.VERSION summing.now stage) }
{
    match stage {
        Stage::Waiting(_, link) => write_headers::<M>(text, link),
        Stage::Headed(None, form) => {
            text.push_str("`from` and a number, ")?;
            write_inside(text, form, summing, 0)
        }
        Stage::Headed(Some(position), form) => write_behind_header(text, form, summing, position),
        Stage::Inside(position, form) => write_inside(text, form, summing, position),
    }
}

/// A byte as it is shown.
fn shown_byte(byte: u8) -> char
    ensures shown { result ≡ shown_byte byte }
    ensures ascii { result < 128 }
{
    match byte {
        b' '..=b'~' => byte as char,
        _ => '?',
    }
}

/// Adds bytes as they are shown.
fn write_shown(text: &mut String, bytes: &[u8]) -> Result<(), AllocError>
    ensures { OnOk result (string_bytes text.new ≡ string_bytes text.old ++ map shown_byte bytes.now) }
{
    for byte in bytes {
        text.push(shown_byte(*byte))?;
    }
    Ok(())
}

/// The bytes of a line that are shown.
fn front_of(line: &[u8]) -> &[u8]
    ensures { result.now ≡ take 80 line.now }
{
    if line.len() <= SHOWN {
        return line;
    }
    &line[..SHOWN]
}

/// Adds the first bytes of a line, as they are shown.
fn write_front(text: &mut String, line: &[u8]) -> Result<(), AllocError>
    ensures { OnOk result (string_bytes text.new ≡ string_bytes text.old ++ shown_front line.now) }
{
    text.push_str("`")?;
    write_shown(text, front_of(line))?;
    text.push_str("`")
}

/// Adds a line, or as much of it as is shown.
pub(crate) fn write_found(text: &mut String, line: &[u8]) -> Result<(), AllocError>
    ensures { OnOk result (string_bytes text.new ≡ string_bytes text.old ++ shown_line line.now) }
{
    if line.is_empty() {
        return text.push_str("an empty line");
    }
    write_front(text, line)?;
    if line.len() > SHOWN {
        text.push_str("..")?;
    }
    Ok(())
}
