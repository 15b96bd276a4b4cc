//! Short journals of a switchboard.
ghost use Rattle.std.specs.Prelude.{◌≡◌, ◌≤◌, ◌^◌, ◌⊎◌, IfOk, IfErr};
ghost use Rattle.cml_board.specs.declared.outcome.Refusal.TheVariants.{JournalFull, NoMemory};
ghost use Rattle.cml_compact.specs.{IsSomeShortJournal};

use super::Switchboard;
use crate::hall::Hall;
use cml_board::{Entry, Message, Refusal};
use cml_compact::{last_seat, short_journal};
use cml_log::MessageLog;
use std::alloc::Global;
use std::sync::Wait;
use std::sync::ledger::Ledger;

impl<M: Message, L: MessageLog<M>, Led: Ledger> Switchboard<M, L, Led> {
    /// Returns a short journal, oldest entry first: it leaves what all calls so far leave, and whatever may follow these may follow
    /// it. The last seat that was made makes all its entries, so a switchboard that goes on from it numbers its seats as this one
    /// does. The journal stays as it is. Messages in the rings of lanes aren't in it. Those in the rings of feeds are: as received.
    /// The calls of other threads wait meanwhile: the time grows with how many objects there are and how many messages are kept.
    ///
    /// Fails with `JournalFull` if it would have more than `limit` entries, or with `NoMemory`.
    pub fn compact<R: Wait>(&self, rt: &R, limit: u64) -> Result<Vec<Entry<M>>, Refusal>
        requires least { 1 ≤ limit }
        requires most { limit ≤ 2 ^ 32 }
        ensures short { IfOk result (λ entries. IsSomeShortJournal limit entries.items) }
        ensures refused { IfErr result (λ refusal. (refusal ≡ JournalFull) ⊎ (refusal ≡ NoMemory)) }
    {
        let mut turn = self.locked.lock(rt);
        let told = short(self.alloc, turn.hall(), limit);
        self.locked.unlock(turn);
        told
    }

    /// Returns a short journal as `compact` does, and cuts the journal at the same moment, as `cut_open` does. So the next pieces
    /// that `take_journal_open` returns may follow it, in place of all entries before. If it fails, it cuts nothing.
    pub fn compact_and_cut<R: Wait>(&self, rt: &R, limit: u64) -> Result<Vec<Entry<M>>, Refusal>
        requires least { 1 ≤ limit }
        requires most { limit ≤ 2 ^ 32 }
        ensures short { IfOk result (λ entries. IsSomeShortJournal limit entries.items) }
        ensures refused { IfErr result (λ refusal. (refusal ≡ JournalFull) ⊎ (refusal ≡ NoMemory)) }
    {
        let mut turn = self.locked.lock(rt);
        let hall = turn.hall();
        let told = short(self.alloc, hall, limit);
        if told.is_ok() {
            hall.cut_open();
        }
        self.locked.unlock(turn);
        told
    }
}

/// The short journal of a hall's board, by its last seat.
fn short<M: Message, L: MessageLog<M>, Led: Ledger>(
    alloc: Global,
    hall: &Hall<M, L, Led>,
    limit: u64,
) -> Result<Vec<Entry<M>>, Refusal>
    requires least { 1 ≤ limit }
    requires most { limit ≤ 2 ^ 32 }
    ensures short { IfOk result (λ entries. IsSomeShortJournal limit entries.items) }
    ensures refused { IfErr result (λ refusal. (refusal ≡ JournalFull) ⊎ (refusal ≡ NoMemory)) }
{
    short_journal(alloc, hall.board(), last_seat(hall.seats() as u64), limit)
}
