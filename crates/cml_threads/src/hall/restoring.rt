//! A hall that goes on from a journal.
ghost use Rattle.std.specs.Prelude.{◌≡◌, ◌+◌, ◌≤◌, ◌^◌, length, replicate, None, IfOk};
ghost use Rattle.cml_board.specs.{entries_in, rings_in, seats_of, lanes_of, feeds_of};
ghost use Rattle.cml_room.specs.{NoneDue};
ghost use Rattle.cml_threads.specs.{room_of};

use super::Hall;
use crate::seat::Left;
use cml_board::{Message, Restored};
use cml_log::MessageLog;
use cml_room::{Room, State};
use std::alloc::{AllocError, Global};
use std::sync::ledger::{Blank, Ledger};

impl<M: Message, L: MessageLog<M>, Led: Ledger> Hall<M, L, Led> {
    /// Makes a hall on the board of a journal, and the left of the seats that made its entries. The seats, the lanes and the feeds that
    /// made entries keep their numbers. Those seats have left, and none of those lanes and feeds is open. New ones are numbered
    /// after them. It takes no memory for them, however high their numbers are. The blank is `Blank::new(PARTS)`, and names the
    /// hall's ledger.
    ///
    /// Keep the left for `settle`, which needs those of all seats. It stands for all old seats, and has all their answers.
    pub fn restore(
        alloc: Global,
        restored: Restored<M, L>,
        blank: Blank,
    ) -> Result<(Hall<M, L, Led>, Left<Led>), AllocError>
        requires name { blank.name ≡ Led.name }
        requires parts { blank.parts ≡ Led.parts }
        requires enough { blank.parts ≡ 2 ^ 63 }
        ensures board { IfOk result (λ made. made.0.board ≡ restored.board) }
        ensures lanes { IfOk result (λ made. made.0.lanes ≡ replicate restored.makers.lanes None) }
        ensures feeds { IfOk result (λ made. made.0.feeds ≡ replicate restored.makers.feeds None) }
        ensures seats { IfOk result (λ made. made.0.seats ≡ replicate restored.makers.seats State.Left) }

        // The book counts each entry of the journal.
        ensures book { IfOk result (λ made. made.0.book ≡ entries_in restored.board.history) }

        // No number of a seat, a lane or a feed in the journal is given again.
        ensures behind_seats { IfOk result (λ made. seats_of made.0.board.history ≤ length made.0.seats) }
        ensures behind_lanes { IfOk result (λ made. lanes_of made.0.board.history ≤ length made.0.lanes) }
        ensures behind_feeds { IfOk result (λ made. feeds_of made.0.board.history ≤ length made.0.feeds) }

        // The left stands for all old seats. Their answers are all entries that are not of lanes and feeds.
        ensures number { IfOk result (λ made. made.1.number ≡ 0) }
        ensures left { IfOk result (λ made. made.1.seats ≡ length made.0.seats) }
        ensures answers { IfOk result (λ made. made.1.share + rings_in restored.board.history ≡ entries_in restored.board.history) }
        ensures quiet { IfOk result (λ made. NoneDue (room_of made.0)) }
    {
        let makers = restored.makers();
        let entries = restored.board().entries();
        let room = Room::restore(alloc, restored)?;
        let (mut book, mut rest) = blank.open::<Led>();
        book.add(&mut rest, entries);
        let seats = room.seats() as u64;
        let answers = entries - makers.rings;
        let left = Left::of_many(seats, answers, rest.split_off(seats, answers));
        Ok((Hall { room, book, rest }, left))
    }
}
