//! The end of a hall.
ghost use Rattle.std.specs.Prelude.{◌≡◌, ◌≢◌, ◌+◌, ◌<◌, ◌^◌, length, min, IfOk, IfErr};
ghost use Rattle.cml_board.specs.{entries_in, rings_in};
ghost use Rattle.cml_threads.specs.{answers_in, seats_in};

use super::Hall;
use crate::seat::Left;
use crate::settled::Settled;
use cml_board::Message;
use cml_log::MessageLog;
use std::sync::ledger::{Book, Ledger, Share};

impl<M: Message, L: MessageLog<M>, Led: Ledger> Hall<M, L, Led> {
    /// Ends the hall: returns the board, with a proof that the answers counted for the seats, and the entries of lanes and
    /// feeds, are all its entries. Needs the lefts of as many seats as were made; otherwise it fails, and returns the hall and
    /// the lefts. Drops lanes that are still open, with the messages in their rings.
    pub fn settle(
        self,
        lefts: Vec<Left<Led>>,
    ) -> Result<Settled<M, L>, (Hall<M, L, Led>, Vec<Left<Led>>)>
        ensures all { IfOk result (λ settled. seats_in lefts.items ≡ length self.seats) }
        ensures board { IfOk result (λ settled. settled.board ≡ self.board) }
        ensures seats { IfOk result (λ settled. settled.seats ≡ answers_in lefts.items) }
        ensures rings { IfOk result (λ settled. settled.rings ≡ rings_in self.board.history) }
        ensures total { IfOk result (λ settled. settled.seats + settled.rings ≡ entries_in self.board.history) }
        ensures back { IfErr result (λ back. (seats_in lefts.items ≢ length self.seats) × (back.0 ≡ self) × (back.1 ≡ lefts)) }
    {
        if seats_of(&lefts) != self.room.seats() as u64 {
            return Err((self, lefts));
        }
        let Hall {
            room,
            mut book,
            mut rest,
        } = self;
        let total = room.board().entries();
        let seats = gather(lefts, &mut book, &mut rest);
        book.audit(&mut rest);
        Ok(Settled::new(room.into_board(), seats, total - seats))
    }
}

/// Adds the shares of all lefts to the rest, and returns how many answers were counted for them.
fn gather<Led: Ledger>(lefts: Vec<Left<Led>>, book: &mut Book<Led>, rest: &mut Share<Led>) -> u64
    requires { book.old.total < 2 ^ 64 }
    ensures answers { result ≡ answers_in lefts.items }
    ensures total { book.new.total ≡ book.old.total }
    ensures amount { rest.new.amount ≡ rest.old.amount + answers_in lefts.items }
    ensures parts { rest.new.parts ≡ rest.old.parts + seats_in lefts.items }
{
    let mut lefts = lefts;
    let mut answers = 0;
    while let Some(left) = lefts.pop() {
        answers += left.join_to(book, rest);
    }
    answers
}

/// How many seats they stand for; 2^64 - 1 if they are more.
fn seats_of<Led: Ledger>(lefts: &Vec<Left<Led>>) -> u64
    ensures { result ≡ min (seats_in lefts.now.items) 18446744073709551615 }
{
    let mut seats: u64 = 0;
    for left in lefts.iter() {
        seats = seats.saturating_add(left.seats());
    }
    seats
}
