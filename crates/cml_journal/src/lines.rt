//! What a line is at its stage: a header, a position, an entry or an end.
ghost use Rattle.std.specs.Prelude.{◌≡◌, ◌==◌, ◌+◌, Ok};
ghost use Rattle.std.specs.Option.{option_map};
ghost use Rattle.cml_journal.specs.{nothing_summed, Gives, numbered, tailed, headed, begun, entered, plain_headed, sealed_where};
ghost use Rattle.cml_journal.specs.{sealed_headed, headed_by, sealed_by, closed_by, ended_by, inside_by, inside, from_by, behind_header};
ghost use Rattle.cml_journal.specs.{line_step, line_read, sums, sums_line, with_line_end, header_fault};
ghost use Rattle.cml_journal.specs.declared.reader.Form.TheVariants.{Plain, Sealed};

use crate::fault::{Unread, What};
use crate::reader::{Form, Link, Stage};
use crate::reading::read_entry;
use crate::sum::Sum;
use crate::summing::Summing;
use crate::words::{numbered, tailed};
use crate::written::Written;
use cml_board::Entry;
use cml_grammar::has_bad_byte;
use std::alloc::Global;

/// The stage after a line, and the entry that the line was, if it was one.
type Told<M> = (Stage, Option<Entry<M>>);

/// Whether this is the version of sealed pieces.
fn is_sealed<M: Written>(found: u64) -> bool
    ensures { result ≡ (found == M.VERSION + 2) }
{
    found.checked_sub(2) == Some(M::VERSION)
}

fn plain_headed<M: Written>(before: Option<u64>, link: Link) -> Result<Told<M>, Unread>
    ensures { Gives (λ told. told) result (plain_headed before link) }
{
    match link {
        Link::Any | Link::First | Link::Unsealed => Ok((Stage::Headed(before, Form::Plain), None)),
        Link::Behind(_) => Err(Unread::Fault(What::NoHeader)),
    }
}

fn sealed_where<M: Written>(before: Option<u64>, right: bool) -> Result<Told<M>, Unread>
    ensures { Gives (λ told. told) result (sealed_where before right) }
{
    if right {
        Ok((Stage::Headed(before, Form::Sealed), None))
    } else {
        Err(Unread::Fault(What::WrongSum))
    }
}

/// The header of a sealed piece, with the word after its version if there is one.
fn sealed_headed<M: Written>(
    before: Option<u64>,
    link: Link,
    word: Option<&str>,
) -> Result<Told<M>, Unread>
    ensures { Gives (λ told. told) result (sealed_headed before link (option_map (λ word. word.now) word.entry)) }
{
    match (link, word) {
        (Link::Unsealed, _) => Err(Unread::Fault(What::NoHeader)),
        (Link::Any, Some(word)) => sealed_where(before, Sum::of_word(word).is_some()),
        (Link::Any | Link::First, None) => sealed_where(before, true),
        (Link::Behind(sum), Some(word)) => sealed_where(before, sum.has_word(word)),
        (Link::First, Some(_)) | (Link::Behind(_), None) => sealed_where(before, false),
    }
}

/// The fault of a header with this number, if it isn't one that may be there.
fn header_fault<M: Written>(found: u64) -> What
    ensures { result ≡ header_fault M.VERSION found }
{
    if found == M::VERSION || is_sealed::<M>(found) {
        return What::NoHeader;
    }
    match found {
        1..=4 => What::OtherType,
        _ => What::OtherVersion,
    }
}

#[tactic(auto, unfolding(crate::specs::Feeding::headed))]
fn headed<M: Written>(before: Option<u64>, link: Link, line: &str) -> Result<Told<M>, Unread>
    ensures { Gives (λ told. told) result (headed M.VERSION before link line.now) }
{
    if let Some(found) = numbered("journal", line) {
        if found == M::VERSION {
            return plain_headed(before, link);
        }
        if is_sealed::<M>(found) {
            return sealed_headed(before, link, None);
        }
        return Err(Unread::Fault(header_fault::<M>(found)));
    }
    match tailed("journal", line) {
        Some((found, word)) if is_sealed::<M>(found) => sealed_headed(before, link, Some(word)),
        Some((found, _)) => Err(Unread::Fault(header_fault::<M>(found))),
        None => Err(Unread::Fault(What::NoHeader)),
    }
}

/// Tests that a piece begins where the one before ended.
fn begun(before: Option<u64>, from: u64) -> Result<u64, Unread>
    ensures { Gives (λ position. position) result (begun before from) }
{
    match before {
        Some(position) if from != position => Err(Unread::Fault(What::Gap)),
        _ => Ok(from),
    }
}

#[tactic(auto, unfolding(crate::specs::Feeding::entered))]
fn entered<M: Written>(
    alloc: Global,
    form: Form,
    position: u64,
    line: &str,
) -> Result<Told<M>, Unread>
    ensures { Gives (λ told. told) result (entered M.meaning form position line.now) }
{
    let entry = read_entry(alloc, line)?;
    match position.checked_add(1) {
        Some(next) => Ok((Stage::Inside(next, form), Some(entry))),
        None => Err(Unread::Fault(What::TooMany)),
    }
}

/// The end of a plain piece, or an entry of it.
fn plain_inside<M: Written>(alloc: Global, position: u64, line: &str) -> Result<Told<M>, Unread>
    ensures { Gives (λ told. told) result (inside_by M.meaning Plain nothing_summed position line.now) }
{
    match numbered("end", line) {
        Some(end) if end == position => {
            Ok((Stage::Waiting(Some(position), Link::Unsealed), None))
        }
        Some(_) => Err(Unread::Fault(What::WrongEnd)),
        None => entered(alloc, Form::Plain, position, line),
    }
}

/// The end of a sealed piece, if it has this word.
fn sealed_by<M: Written>(position: u64, sum: Sum, word: &str) -> Result<Told<M>, Unread>
    ensures { Gives (λ told. told) result (sealed_by position sum word.now) }
{
    if sum.has_word(word) {
        Ok((Stage::Waiting(Some(position), Link::Behind(sum)), None))
    } else {
        Err(Unread::Fault(What::WrongSum))
    }
}

/// The end of a sealed piece, or an entry of it.
fn sealed_inside<M: Written>(
    alloc: Global,
    summing: &Summing,
    position: u64,
    line: &str,
) -> Result<Told<M>, Unread>
    ensures { Gives (λ told. told) result (inside_by M.meaning Sealed summing.now position line.now) }
{
    match tailed("end", line) {
        Some((end, word)) if end == position => sealed_by(position, summing.sum()?, word),
        Some(_) => Err(Unread::Fault(What::WrongEnd)),
        None => entered(alloc, Form::Sealed, position, line),
    }
}

/// The end of a piece, or an entry of it.
#[tactic(auto, unfolding(crate::specs::Feeding::inside))]
fn inside<M: Written>(
    alloc: Global,
    form: Form,
    summing: &Summing,
    position: u64,
    line: &str,
) -> Result<Told<M>, Unread>
    ensures { Gives (λ told. told) result (inside M.meaning form summing.now position line.now) }
{
    match form {
        Form::Plain => plain_inside(alloc, position, line),
        Form::Sealed => sealed_inside(alloc, summing, position, line),
    }
}

/// The position of a piece's first entry, or, if that is 0, the entry.
#[tactic(auto, unfolding(crate::specs::Feeding::behind_header))]
fn behind_header<M: Written>(
    alloc: Global,
    form: Form,
    summing: &Summing,
    before: Option<u64>,
    line: &str,
) -> Result<Told<M>, Unread>
    ensures { Gives (λ told. told) result (behind_header M.meaning form summing.now before line.now) }
{
    match numbered("from", line) {
        Some(0) => Err(Unread::Fault(What::BadNumber)),
        Some(from) => Ok((Stage::Inside(begun(before, from)?, form), None)),
        None => inside(alloc, form, summing, begun(before, 0)?, line),
    }
}

fn line_step<M: Written>(
    alloc: Global,
    summing: &Summing,
    stage: Stage,
    line: &str,
) -> Result<Told<M>, Unread>
    ensures { Gives (λ told. told) result (line_step M.VERSION M.meaning summing.now stage line.now) }
{
    match stage {
        Stage::Waiting(before, link) => headed(before, link, line),
        Stage::Headed(before, form) => behind_header(alloc, form, summing, before, line),
        Stage::Inside(position, form) => inside(alloc, form, summing, position, line),
    }
}

/// What a line is, unless it has bytes that are not printed.
#[tactic(auto, unfolding(crate::specs::Feeding::line_read))]
pub(crate) fn line_read<M: Written>(
    alloc: Global,
    summing: &Summing,
    stage: Stage,
    line: &[u8],
) -> Result<Told<M>, Unread>
    ensures { Gives (λ told. told) result (line_read M.VERSION M.meaning summing.now stage line.now) }
{
    if has_bad_byte(line) {
        return Err(Unread::Fault(What::BadBytes));
    }
    match str::from_utf8(line) {
        Ok(text) => line_step(alloc, summing, stage, text),
        Err(_) => unreachable!(),
    }
}

/// Sums a line and its end, if its piece is sealed.
fn sum_line(summing: &mut Summing, form: Form, line: &[u8])
    ensures { summing.new ≡ sums form summing.old (with_line_end line.now) }
{
    match form {
        Form::Plain => {}
        Form::Sealed => {
            summing.add(line);
            summing.add(b"\n");
        }
    }
}

/// Sums a line that was read, if the stage after it is within its piece.
pub(crate) fn sum_read(summing: &mut Summing, stage: Stage, line: &[u8])
    ensures { summing.new ≡ sums_line stage summing.old line.now }
{
    match stage {
        Stage::Waiting(_, _) => *summing = Summing::new(),
        Stage::Headed(_, form) => sum_line(summing, form, line),
        Stage::Inside(_, form) => sum_line(summing, form, line),
    }
}
