//! A journal as text with sums.
ghost use Rattle.std.specs.Prelude.{◌≡◌, ◌+◌, ◌<◌, ◌^◌, length, IfOk, IfErr, OnOk};
ghost use Rattle.cml_journal.specs.{AreShort, piece_sum, sealed_piece_lines, text_of};
ghost use Rattle.cml_c.specs.{HandsSealed, HandsSealedJournal, IsSum, IsUnwritten, TellsSum, TellsSumOf, sum_in};

use crate::code::Code;
use crate::handle::Handle;
use crate::messages::{SeryugoBytes, hand_over_new};
use crate::owned::{CheckOf, on_any_messages};
use cml_board::{Bytes, Entry, Message};
use cml_journal::{Sum, Unwritten, Written, add_sealed_piece};
use std::alloc::Global;

/// The sum of a piece as C has it, if there is one.
#[repr(C)]
#[derive(Clone, Copy)]
pub struct SeryugoSum {
    pub is_there: bool,
    pub bytes: [u8; 32],
}

/// Hands over the entries of a journal that was taken as text: one piece with sums, whose first entry is at position `from`. `sum`
/// has the sum of the piece before, if there is one. Writes the sum of this one there.
#[unsafe(no_mangle)]
pub extern "C" fn seryugo_sealed_text(
    alloc: Global,
    journal: &mut Handle,
    from: u64,
    sum: &mut SeryugoSum,
    text: &mut SeryugoBytes,
) -> u32
    ensures { HandsSealedJournal from sum.old sum.new text.old text.new result journal.old.owned journal.new.owned }
{
    on_any_messages!(journal, Journal(journal) => hand_over_sealed(alloc, journal, from, sum, text))
}

fn hand_over_sealed<M: Message + Written>(
    alloc: Global,
    entries: &[Entry<M>],
    from: u64,
    sum: &mut SeryugoSum,
    text: &mut SeryugoBytes,
) -> u32
    ensures { HandsSealed M.VERSION M.text from result sum.old sum.new text.old text.new entries.now }
{
    if entries.len() as u64 > u64::MAX - from {
        return Code::OutOfBounds.number();
    }
    match sealed_of(alloc, sum_of(sum), from, entries) {
        Ok((piece, own)) => {
            let code = hand_over_new(alloc, piece, text);
            if code == Code::Done.number() {
                *sum = shown(Some(own));
            }
            code
        }
        Err(code) => code.number(),
    }
}

/// The text of a piece with its sum, and that sum. Fails as `text_of` does.
fn sealed_of<M: Message + Written>(
    alloc: Global,
    after: Option<Sum>,
    from: u64,
    entries: &[Entry<M>],
) -> Result<(Bytes, Sum), Code>
    requires { from + length entries.now < 2 ^ 64 }
    ensures text { IfOk result (λ made. made.0 ≡ text_of (sealed_piece_lines M.VERSION M.text after from entries.now)) }
    ensures sum { IfOk result (λ made. made.1 ≡ piece_sum M.VERSION M.text after from entries.now) }
    ensures short { OnOk result (AreShort M.text entries.now) }
    ensures code { IfErr result (IsUnwritten M.text entries.now) }
{
    let mut text = String::new(alloc);
    let sum = match add_sealed_piece(&mut text, after, from, entries) {
        Ok(sum) => sum,
        Err(Unwritten::Memory) => return Err(Code::NoMemory),
        Err(Unwritten::TooLong(_)) => return Err(Code::TooLong),
    };
    match Bytes::from_vec(alloc, text.into_bytes()) {
        Ok(Ok(piece)) => Ok((piece, sum)),
        _ => Err(Code::NoMemory),
    }
}

/// The sum that C names.
fn sum_of(sum: &SeryugoSum) -> Option<Sum>
    ensures { result ≡ sum_in sum.now }
{
    sum.is_there.then_some(Sum(sum.bytes))
}

/// A sum as C has it.
fn shown(sum: Option<Sum>) -> SeryugoSum
    ensures { sum_in result ≡ sum }
{
    let Some(sum) = sum else {
        let bytes = [0; 32];
        return SeryugoSum {
            is_there: false,
            bytes,
        };
    };
    let bytes = sum.0;
    SeryugoSum {
        is_there: true,
        bytes,
    }
}

/// Writes the sum that guards the whole lines that were read: that of the last piece, or of the lines of one that has no end yet. Fails
/// with `Nothing` if the text has no sums, or if its last line is a header.
#[unsafe(no_mangle)]
pub extern "C" fn seryugo_reading_sum(reading: &mut Handle, sum: &mut SeryugoSum) -> u32
    ensures { TellsSum sum.old sum.new result reading.old.owned reading.new.owned }
{
    on_any_messages!(reading, JournalCheck(reading) => tell_sum(reading, sum))
}

fn tell_sum<M: Message + Written>(reading: &CheckOf<M>, sum: &mut SeryugoSum) -> u32
    ensures { TellsSumOf sum.old sum.new result reading.now }
{
    match reading.kept_sum() {
        Ok(found) => write_sum(found, sum),
        Err(_) => Code::NoMemory.number(),
    }
}

pub(crate) fn write_sum(found: Option<Sum>, sum: &mut SeryugoSum) -> u32
    ensures { IsSum found result sum.old sum.new }
{
    match found {
        Some(_) => {
            *sum = shown(found);
            Code::Done.number()
        }
        None => Code::Nothing.number(),
    }
}
