//! A short journal that leaves what a journal leaves.
ghost use Rattle.std.specs.Prelude.{◌≡◌, ◌≤◌, ◌^◌, ◌++◌, IfOk, IfErr, OnOk, length, reverse, string_bytes};
ghost use Rattle.cml_journal.specs.{AreShort, MayBeTooLong};
ghost use Rattle.cml_board.specs.{no_entries};
ghost use Rattle.cml.specs.{IsCompactOf, IsNoneOf, IsTextOf, IsUnwritten, whole_piece};

use crate::check::ending::Ending;
use cml_board::{Board, BoardLog, Entry, Message, Refusal, Restored, Who};
use cml_compact::compact;
use cml_journal::{Unwritten, Written, add_piece, add_sealed_piece};
use std::alloc::Global;

/// The most entries that a journal takes. The memory of most machines has room for fewer.
const MOST: u64 = 4_294_967_296;

/// The text of a short journal that leaves what a board leaves. The seat with the highest number makes it, so a switchboard that goes
/// on from it numbers new seats as one that goes on from the long journal. If no seat made an entry, seat 0 makes it. It is sealed if
/// that is wanted.
pub(crate) fn compacted<M: Message + Written>(
    alloc: Global,
    restored: Restored<M, BoardLog<M>>,
    sealed: bool,
) -> Result<String, Ending>
    ensures made { IfOk result (λ text. IsCompactOf M.VERSION M.text sealed restored (string_bytes text)) }
    ensures none { IfErr result (IsNoneOf M.text restored) }
{
    let (board, makers) = restored.into_parts();
    let seat = Who::Seat(makers.seats.saturating_sub(1));
    match compact(alloc, &board, seat, MOST) {
        Ok(new) => text_of(alloc, &new, sealed),
        Err(_) => Err(Ending::NoMemory),
    }
}

/// The text of a board's journal, which was never cut.
fn text_of<M: Message + Written>(
    alloc: Global,
    board: &Board<M, BoardLog<M>>,
    sealed: bool,
) -> Result<String, Ending>
    requires { board.now.past ≡ no_entries }
    ensures text { IfOk result (λ text. IsTextOf M.VERSION M.text sealed (reverse board.now.history) (string_bytes text)) }
    ensures long { IfErr result (IsUnwritten M.text (reverse board.now.history)) }
{
    let _limit = board.limit();
    let mut text = String::new(alloc);
    match add_whole(&mut text, sealed, journal(board)) {
        Ok(()) => Ok(text),
        Err(Unwritten::TooLong(place)) => Err(Ending::TooLong(place)),
        Err(Unwritten::Memory) => Err(Ending::NoMemory),
    }
}

/// Adds a piece from position 0 on, with a sum or without.
fn add_whole<M: Message + Written>(
    text: &mut String,
    sealed: bool,
    entries: &[Entry<M>],
) -> Result<(), Unwritten>
    requires { length entries.now ≤ 2 ^ 32 }
    ensures added { OnOk result (string_bytes text.new ≡ string_bytes text.old ++ whole_piece M.VERSION M.text sealed entries.now) }
    ensures short { OnOk result (AreShort M.text entries.now) }
    ensures long { IfErr result (MayBeTooLong M.text entries.now) }
{
    if sealed {
        add_sealed_piece(text, None, 0, entries)?;
        return Ok(());
    }
    add_piece(text, 0, entries)
}

/// All entries of a board whose journal was never cut, oldest first.
fn journal<M: Message>(board: &Board<M, BoardLog<M>>) -> &[Entry<M>]
    requires { board.now.past ≡ no_entries }
    ensures entries { result.now ≡ reverse board.now.history }
    ensures few { length result.now ≤ board.now.limit }
{
    board.journal()
}
