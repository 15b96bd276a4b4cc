//! A journal as text.
ghost use Rattle.std.specs.Prelude.{◌≡◌, ◌+◌, ◌<◌, ◌^◌, length, IfOk, IfErr, OnOk};
ghost use Rattle.cml_journal.specs.{AreShort, text_of, piece_lines};
ghost use Rattle.cml_c.specs.{HandsText, HandsJournal, IsUnwritten};

use crate::code::Code;
use crate::handle::Handle;
use crate::messages::{SeryugoBytes, hand_over_new};
use crate::owned::on_any_messages;
use cml_board::{Bytes, Entry, Message};
use cml_journal::{Unwritten, Written, add_piece};
use std::alloc::Global;

/// Hands over the entries of a journal that was taken as text: one piece, whose first entry is at position `from`.
#[unsafe(no_mangle)]
pub extern "C" fn seryugo_journal_text(
    alloc: Global,
    journal: &mut Handle,
    from: u64,
    text: &mut SeryugoBytes,
) -> u32
    ensures { HandsJournal from text.old text.new result journal.old.owned journal.new.owned }
{
    on_any_messages!(journal, Journal(journal) => hand_over_text(alloc, journal, from, text))
}

fn hand_over_text<M: Message + Written>(
    alloc: Global,
    entries: &[Entry<M>],
    from: u64,
    text: &mut SeryugoBytes,
) -> u32
    ensures { HandsText M.VERSION M.text from result text.old text.new entries.now }
{
    if entries.len() as u64 > u64::MAX - from {
        return Code::OutOfBounds.number();
    }
    match text_of(alloc, from, entries) {
        Ok(piece) => hand_over_new(alloc, piece, text),
        Err(code) => code.number(),
    }
}

/// The text of a piece. Fails with `TooLong` if no reading would take a line of it, and with `NoMemory` if there is no memory for
/// it, or if it would be longer than a message.
fn text_of<M: Message + Written>(
    alloc: Global,
    from: u64,
    entries: &[Entry<M>],
) -> Result<Bytes, Code>
    requires { from + length entries.now < 2 ^ 64 }
    ensures text { IfOk result (λ piece. piece ≡ text_of (piece_lines M.VERSION M.text from entries.now)) }
    ensures short { OnOk result (AreShort M.text entries.now) }
    ensures code { IfErr result (IsUnwritten M.text entries.now) }
{
    let mut text = String::new(alloc);
    match add_piece(&mut text, from, entries) {
        Ok(()) => {}
        Err(Unwritten::Memory) => return Err(Code::NoMemory),
        Err(Unwritten::TooLong(_)) => return Err(Code::TooLong),
    }
    match Bytes::from_vec(alloc, text.into_bytes()) {
        Ok(Ok(piece)) => Ok(piece),
        _ => Err(Code::NoMemory),
    }
}
