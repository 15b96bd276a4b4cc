//! Which of the waiting seats are due.
ghost use Rattle.std.specs.Prelude.{◌≡◌, ℕ, false, Some, length};
ghost use Rattle.cml_board.specs.{Want};
ghost use Rattle.cml_room.specs.{is_due, state_of, SleepsRightly, GivesNext};
ghost use Rattle.cml_threads.specs.{room_of};

use super::Hall;
use crate::parker::Due;
use cml_board::Message;
use cml_log::MessageLog;
use cml_room::State;
use std::sync::ledger::Ledger;

impl<M: Message, L: MessageLog<M>, Led: Ledger> Hall<M, L, Led> {
    /// Returns how many seats were made.
    pub fn seats(&self) -> usize
        ensures { result ≡ length self.now.seats }
    {
        self.room.seats()
    }

    /// Says whether the seat is due: it waits, and has a notice or all that wait are due. A seat that waits and is not due sleeps
    /// rightly. Wake only the seats that `next_due` returns.
    pub fn is_due(&self, seat: u64) -> bool
        ensures due { result ≡ is_due (room_of self.now) seat }
        ensures asleep { result ≡ false → (on : Want) → state_of (room_of self.now) seat ≡ Some (State.Parked on)
            → SleepsRightly (room_of self.now) on }
    {
        self.room.is_due(seat)
    }

    /// Returns the next seat that is due, and was not returned since it last asked. Its thread has to be unparked, and asks again. The
    /// seat that has been due the longest comes first. Returns `None` if each seat that is due was returned. One call after each
    /// other call is enough (`one_next_due_is_enough_in_a_hall`).
    pub(crate) fn next_due(&mut self) -> Option<Due>
        ensures gives { GivesNext result (room_of self.old) (room_of self.new) }
        ensures book { self.new.book ≡ self.old.book }
    {
        let seat = self.room.next_due()?;
        Some(Due::of(seat))
    }
}
