//! A seat's calls.
ghost use Rattle.std.specs.Prelude.{ℕ, ◌≡◌, ◌≢◌, ◌+◌, ◌<◌, ◌^◌, Some, None, IfErr, OnOk};
ghost use Rattle.cml_board.specs.{Want, Answer, entries_in, outcome_of};
ghost use Rattle.cml_board.specs.declared.outcome.Outcome.TheVariants.{Answered};
ghost use Rattle.cml_room.specs.{Turns, news_by, state_of, Moves, asked_by, withdrawn_by};
ghost use Rattle.cml_threads.specs.{room_of, MayAsk, MayAskAgain, Asks, Tallies};

use super::Hall;
use crate::seat::Seat;
use cml_board::{Call, Message, Outcome, Refusal, Reply, Response};
use cml_log::MessageLog;
use cml_room::State;
use std::sync::ledger::{Book, Ledger};

impl<M: Message, L: MessageLog<M>, Led: Ledger> Hall<M, L, Led> {
    /// Makes a free seat's call. If the call would wait, the seat is parked, and nothing else happens. If no seat could go on
    /// then, the call fails with `Stalled`, and the seat stays free. If the seat waits or has left, the call fails with
    /// `Gone`. That is tested first.
    pub fn ask(&mut self, seat: &mut Seat<Led>, call: Call<M>) -> Outcome<M>
        ensures asks { Asks L.CHUNK M.SURE (MayAsk self.old seat.old.number) self.old self.new seat.old seat.new call result }
        ensures turns { Turns seat.old.number (asked_by seat.old.number result) (news_by result) (room_of self.old) (room_of self.new) }
    {
        let outcome = self.room.ask(seat.number(), call);
        count(&outcome, seat, &mut self.book);
        outcome
    }

    /// Makes a parked seat's call again. If it isn't answered, the seat is parked as before, or the call fails and the seat is
    /// free. If one seat fails with `Stalled`, the others wait on: each fails by its next call, if all are still stalled. If
    /// the seat doesn't wait on such a call, of this kind and on this object, the call fails with `Gone`. That is tested first.
    pub fn ask_again(&mut self, seat: &mut Seat<Led>, call: Call<M>) -> Outcome<M>
        ensures asks { Asks L.CHUNK M.SURE (MayAskAgain self.old seat.old.number call) self.old self.new seat.old seat.new call result }
        ensures turns { Turns seat.old.number (asked_by seat.old.number result) (news_by result) (room_of self.old) (room_of self.new) }
    {
        let outcome = self.room.ask_again(seat.number(), call);
        count(&outcome, seat, &mut self.book);
        outcome
    }

    /// Makes a free seat's call, as `ask` does, and returns the reply alone. The journal keeps the caller's own call, as in
    /// `Board::call`.
    #[inline(always)]
    pub fn call(&mut self, seat: &mut Seat<Led>, call: Call<M>) -> Response<M>
        ensures asks { let outcome = outcome_of (entries_in self.old.board.history) call result in
            Asks L.CHUNK M.SURE (MayAsk self.old seat.old.number) self.old self.new seat.old seat.new call outcome }
        ensures turns { let outcome = outcome_of (entries_in self.old.board.history) call result in
            Turns seat.old.number (asked_by seat.old.number outcome) (news_by outcome) (room_of self.old) (room_of self.new) }
    {
        let response = self.room.call(seat.number(), call);
        count_reply(&response, seat, &mut self.book);
        response
    }

    /// Makes a parked seat's call again, as `ask_again` does, and returns the reply alone.
    #[inline(never)]
    pub fn call_again(&mut self, seat: &mut Seat<Led>, call: Call<M>) -> Response<M>
        ensures asks { let outcome = outcome_of (entries_in self.old.board.history) call result in
            Asks L.CHUNK M.SURE (MayAskAgain self.old seat.old.number call) self.old self.new seat.old seat.new call outcome }
        ensures turns { let outcome = outcome_of (entries_in self.old.board.history) call result in
            Turns seat.old.number (asked_by seat.old.number outcome) (news_by outcome) (room_of self.old) (room_of self.new) }
    {
        let response = self.room.call_again(seat.number(), call);
        count_reply(&response, seat, &mut self.book);
        response
    }

    /// Withdraws a parked seat's call, as `Room::withdraw` does. Fails with `Gone` if the seat isn't parked.
    pub fn withdraw(&mut self, seat: &Seat<Led>) -> Result<(), Refusal>
        ensures freed { OnOk result ((on : Want) × (state_of (room_of self.old) seat.now.number ≡ Some (State.Parked on))
            × Moves (room_of self.old) (room_of self.new) seat.now.number State.Free) }
        ensures board { self.new.board ≡ self.old.board }
        ensures book { self.new.book ≡ self.old.book }
        ensures refused { IfErr result (λ refusal. (refusal ≡ Refusal.Gone) × (self.new ≡ self.old)
            × ((on : Want) → state_of (room_of self.old) seat.now.number ≢ Some (State.Parked on))) }
        ensures turns { Turns seat.now.number (withdrawn_by seat.now.number result) None (room_of self.old) (room_of self.new) }
        ensures alarm { self.new.all_due ≡ self.old.all_due }
    {
        self.room.withdraw(seat.number())
    }
}

/// Counts an answer for its seat, and in the book. A call without an answer is not counted.
fn count<M: Message, Led: Ledger>(outcome: &Outcome<M>, seat: &mut Seat<Led>, book: &mut Book<Led>)
    requires { (answer : Answer M) → outcome.now ≡ Answered answer → book.old.total + 1 < 2 ^ 64 }
    ensures { Tallies book.old.total book.new.total seat.old seat.new outcome.now }
{
    if let Outcome::Answered(_) = outcome {
        seat.count(book);
    }
}

/// Counts an answer whose reply alone is returned, as `count` does.
fn count_reply<M: Message, Led: Ledger>(
    response: &Response<M>,
    seat: &mut Seat<Led>,
    book: &mut Book<Led>,
)
    requires { (reply : Reply M) → response.now ≡ Response.Reply reply → book.old.total + 1 < 2 ^ 64 }
    ensures { (entries : ℕ) (call : Call M)
        → Tallies book.old.total book.new.total seat.old seat.new (outcome_of entries call response.now) }
{
    if let Response::Reply(_) = response {
        seat.count(book);
    }
}
