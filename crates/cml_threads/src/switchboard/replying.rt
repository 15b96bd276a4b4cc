//! Calls that return their reply alone. The journal keeps the call. The named calls are made in this way.
ghost use Rattle.cml_threads.specs.{Responds, Replies};

use super::Switchboard;
use crate::hall::Hall;
use crate::seat::Seat;
use cml_board::{Call, Message, Refusal, Reply, Response};
use cml_log::MessageLog;
use std::sync::Wait;
use std::sync::ledger::Ledger;

impl<M: Message, L: MessageLog<M>, Led: Ledger> Switchboard<M, L, Led> {
    /// Makes a call, and blocks until it returns or fails, as `call` does. Returns the reply alone, which takes less time: the
    /// message is shared once less and dropped once less.
    #[inline(always)]
    pub fn reply<R: Wait>(
        &self,
        rt: &R,
        seat: &mut Seat<Led>,
        call: Call<M>,
    ) -> Result<Reply<M>, (Refusal, Call<M>)>
        ensures { Replies seat.old seat.new call result }
    {
        let mut response = self.call_once(rt, seat, call);
        for _ in rt.forever() {
            match response {
                Response::Reply(reply) => return Ok(reply),
                Response::Refused(refusal, call) => return Err((refusal, call)),
                Response::WouldWait(call) => {
                    self.locked.park(rt, seat.number());
                    response = self.call_again(rt, seat, call);
                }
            }
        }
        unreachable!()
    }

    /// Makes the seat's call, and wakes a seat that is due, as `ask` does.
    #[inline(always)]
    fn call_once<R: Wait>(&self, rt: &R, seat: &mut Seat<Led>, call: Call<M>) -> Response<M>
        ensures { Responds seat.old seat.new call result }
    {
        let mut turn = self.locked.lock(rt);
        let response = call_once(turn.hall(), seat, call);
        self.locked.unlock_after(turn, seat.number());
        response
    }

    /// Makes the call of a parked seat again, as `call_once` makes one.
    #[inline(never)]
    fn call_again<R: Wait>(&self, rt: &R, seat: &mut Seat<Led>, call: Call<M>) -> Response<M>
        ensures { Responds seat.old seat.new call result }
    {
        let mut turn = self.locked.lock(rt);
        let response = call_again(turn.hall(), seat, call);
        self.locked.unlock_after(turn, seat.number());
        response
    }
}

/// `Hall::call`, with as much of its contract as holds for the caller of a switchboard.
#[inline(always)]
fn call_once<M: Message, L: MessageLog<M>, Led: Ledger>(
    hall: &mut Hall<M, L, Led>,
    seat: &mut Seat<Led>,
    call: Call<M>,
) -> Response<M>
    ensures { Responds seat.old seat.new call result }
{
    hall.call(seat, call)
}

/// `Hall::call_again`, in the same way.
#[inline(always)]
fn call_again<M: Message, L: MessageLog<M>, Led: Ledger>(
    hall: &mut Hall<M, L, Led>,
    seat: &mut Seat<Led>,
    call: Call<M>,
) -> Response<M>
    ensures { Responds seat.old seat.new call result }
{
    hall.call_again(seat, call)
}
