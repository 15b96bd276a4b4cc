//! Short journals: the entries of a compacted board.
ghost use Rattle.std.specs.Prelude.{◌≡◌, ◌≤◌, ◌^◌, length, IfOk, IfErr};
ghost use Rattle.cml_compact.specs.{IsShortJournal, Stops, compact_size, last_seat};

use crate::compacting::compact;
use cml_board::{Board, Entry, Message, Refusal, Restored, Who};
use cml_log::MessageLog;
use std::alloc::Global;

/// Returns the journal of a board that `compact` makes of this one, oldest entry first.
pub fn short_journal<M: Message, L: MessageLog<M>>(
    alloc: Global,
    board: &Board<M, L>,
    who: Who,
    limit: u64,
) -> Result<Vec<Entry<M>>, Refusal>
    requires least { 1 ≤ limit }
    requires most { limit ≤ 2 ^ 32 }
    ensures ok { IfOk result (λ entries. IsShortJournal board.now who entries.items) }
    ensures fits { IfOk result (λ entries. length entries.items ≤ limit) }
    ensures err { IfErr result (Stops limit (compact_size board.now.history)) }
{
    let mut new = compact(alloc, board, who, limit)?;
    Ok(new.take_journal())
}

/// Returns the short journal of a board that goes on from a journal. The seat with the highest number made all its entries. So
/// a switchboard that goes on from the short journal numbers its seats as one that goes on from the long journal.
pub fn short_journal_of<M: Message, L: MessageLog<M>>(
    alloc: Global,
    restored: Restored<M, L>,
    limit: u64,
) -> Result<Vec<Entry<M>>, Refusal>
    requires least { 1 ≤ limit }
    requires most { limit ≤ 2 ^ 32 }
    ensures ok { IfOk result (λ entries. IsShortJournal restored.board (last_seat restored.makers.seats) entries.items) }
    ensures fits { IfOk result (λ entries. length entries.items ≤ limit) }
    ensures err { IfErr result (Stops limit (compact_size restored.board.history)) }
{
    let (board, makers) = restored.into_parts();
    short_journal(alloc, &board, last_seat(makers.seats), limit)
}

/// Returns the last of this many seats, or seat 0 if there is none. If it makes a short journal, the next seat has the number that
/// it would have had.
pub fn last_seat(seats: u64) -> Who
    ensures { result ≡ last_seat seats }
{
    Who::Seat(seats.saturating_sub(1))
}
