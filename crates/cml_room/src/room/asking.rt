//! A seat's calls.
ghost use Rattle.std.specs.Prelude.{◌≡◌, ◌≢◌, ◌↔◌, ◌⊎◌, Some, None, IsTrue, IfErr, OnOk, ⊤};
ghost use Rattle.cml_board.specs.{Want, entries_in, outcome_of};
ghost use Rattle.cml_room.specs.{state_of, MayAsk, MayAskAgain, Moves, Asks, Turns, news_by, AskOf, asked_by, withdrawn_by};

use super::Room;
use crate::news::news_in;
use crate::state::State;
use crate::turns::{Ended, end_turn, finish_turn};
use cml_board::{Call, Message, Outcome, Refusal, Response};
use cml_log::MessageLog;

impl<M: Message, L: MessageLog<M>> Room<M, L> {
    /// Makes a free seat's call. If the call would wait, the seat is parked, and nothing else happens. If no seat could go on
    /// then, the call fails with `Stalled`, and the seat stays free. If there is no such seat, or it waits or has left, the
    /// call fails with `Gone`. That is tested first.
    pub fn ask(&mut self, seat: u64, call: Call<M>) -> Outcome<M>
        ensures asks { Asks L.CHUNK M.SURE (MayAsk self.old seat) self.old self.new seat call result }
        ensures turns { Turns seat (asked_by seat result) (news_by result) self.old self.new }
    {
        if self.seats.state(seat) != Some(State::Free) {
            return Outcome::Refused(Refusal::Gone, call);
        }
        self.take_turn(seat, call)
    }

    /// Makes a parked seat's call again. If it isn't answered, the seat is parked as before, or the call fails and the seat is
    /// free. If one seat fails with `Stalled`, the others wait on: each fails by its next call, if all are still stalled. If
    /// the seat doesn't wait on such a call, of this kind and on this object, the call fails with `Gone`. That is tested first.
    pub fn ask_again(&mut self, seat: u64, call: Call<M>) -> Outcome<M>
        ensures asks { Asks L.CHUNK M.SURE (MayAskAgain self.old seat call) self.old self.new seat call result }
        ensures turns { Turns seat (asked_by seat result) (news_by result) self.old self.new }
    {
        if !self.waits_on(seat, &call) {
            return Outcome::Refused(Refusal::Gone, call);
        }
        self.take_turn(seat, call)
    }

    /// Makes a free seat's call, as `ask` does, and returns the reply alone. The journal keeps the caller's own call, as in
    /// `Board::call`.
    #[inline(always)]
    pub fn call(&mut self, seat: u64, call: Call<M>) -> Response<M>
        ensures asks { let outcome = outcome_of (entries_in self.old.board.history) call result in
            Asks L.CHUNK M.SURE (MayAsk self.old seat) self.old self.new seat call outcome }
        ensures turns { let outcome = outcome_of (entries_in self.old.board.history) call result in
            Turns seat (asked_by seat outcome) (news_by outcome) self.old self.new }
    {
        if self.seats.state(seat) != Some(State::Free) {
            return Response::Refused(Refusal::Gone, call);
        }
        self.call_turn(seat, call)
    }

    /// Makes a parked seat's call again, as `ask_again` does, and returns the reply alone.
    #[inline(never)]
    pub fn call_again(&mut self, seat: u64, call: Call<M>) -> Response<M>
        ensures asks { let outcome = outcome_of (entries_in self.old.board.history) call result in
            Asks L.CHUNK M.SURE (MayAskAgain self.old seat call) self.old self.new seat call outcome }
        ensures turns { let outcome = outcome_of (entries_in self.old.board.history) call result in
            Turns seat (asked_by seat outcome) (news_by outcome) self.old self.new }
    {
        if !self.waits_on(seat, &call) {
            return Response::Refused(Refusal::Gone, call);
        }
        self.call_turn(seat, call)
    }

    /// Withdraws a parked seat's call: the seat is free, and nothing was done. If what it waited for is there, the next seat that
    /// waits for the same is due. Fails with `Gone` if the seat isn't parked.
    pub fn withdraw(&mut self, seat: u64) -> Result<(), Refusal>
        ensures freed { OnOk result ((on : Want) × (state_of self.old seat ≡ Some (State.Parked on))
            × Moves self.old self.new seat State.Free) }
        ensures board { self.new.board ≡ self.old.board }
        ensures turns { Turns seat (withdrawn_by seat result) None self.old self.new }
        ensures alarm { self.new.all_due ≡ self.old.all_due }
        ensures refused { IfErr result (λ refusal. (refusal ≡ Refusal.Gone) × (self.new ≡ self.old)
            × ((on : Want) → state_of self.old seat ≢ Some (State.Parked on))) }
    {
        let Some(State::Parked(_)) = self.seats.state(seat) else {
            return Err(Refusal::Gone);
        };
        let news = None;
        end_turn(&self.floor, &mut self.seats, seat, news);
        Ok(())
    }

    /// Says whether the seat is parked on such a call: of this kind, on this object.
    #[inline(always)]
    fn waits_on(&self, seat: u64, call: &Call<M>) -> bool
        ensures { IsTrue result ↔ MayAskAgain self.now seat call.now }
    {
        match call.want() {
            Some(want) => self.seats.state(seat) == Some(State::Parked(want)),
            None => false,
        }
    }

    /// Makes the call of a seat that may make it.
    fn take_turn(&mut self, seat: u64, call: Call<M>) -> Outcome<M>
        requires { MayAsk self.old seat ⊎ MayAskAgain self.old seat call }
        ensures asks { Asks L.CHUNK M.SURE ⊤ self.old self.new seat call result }
        ensures turns { Turns seat (AskOf seat) (news_by result) self.old self.new }
    {
        let news = news_in(&call);
        // Each arm makes a new outcome, which the prover follows with less help than a whole that is kept and returned.
        match self.floor.apply(seat, call) {
            Outcome::Answered(answer) => {
                finish_turn(&self.floor, &mut self.seats, seat, Ended::Answered(news));
                Outcome::Answered(answer)
            }
            Outcome::Refused(refusal, call) => {
                finish_turn(&self.floor, &mut self.seats, seat, Ended::Failed);
                Outcome::Refused(refusal, call)
            }
            Outcome::WouldWait(call) => {
                let ended = Ended::Waits(call.want());
                if finish_turn(&self.floor, &mut self.seats, seat, ended) {
                    return Outcome::WouldWait(call);
                }
                Outcome::Refused(Refusal::Stalled, call)
            }
        }
    }

    /// Makes the call of a seat that may make it. The journal keeps the call, and the reply comes alone.
    #[inline(always)]
    fn call_turn(&mut self, seat: u64, call: Call<M>) -> Response<M>
        requires { MayAsk self.old seat ⊎ MayAskAgain self.old seat call }
        ensures asks { let outcome = outcome_of (entries_in self.old.board.history) call result in
            Asks L.CHUNK M.SURE ⊤ self.old self.new seat call outcome }
        ensures turns { let outcome = outcome_of (entries_in self.old.board.history) call result in
            Turns seat (AskOf seat) (news_by outcome) self.old self.new }
    {
        let news = news_in(&call);
        match self.floor.call(seat, call) {
            Response::Reply(reply) => {
                finish_turn(&self.floor, &mut self.seats, seat, Ended::Answered(news));
                Response::Reply(reply)
            }
            Response::Refused(refusal, call) => {
                finish_turn(&self.floor, &mut self.seats, seat, Ended::Failed);
                Response::Refused(refusal, call)
            }
            Response::WouldWait(call) => {
                let ended = Ended::Waits(call.want());
                if finish_turn(&self.floor, &mut self.seats, seat, ended) {
                    return Response::WouldWait(call);
                }
                Response::Refused(Refusal::Stalled, call)
            }
        }
    }
}
