//! A seat's call, and the code of what becomes of it.
ghost use Rattle.std.specs.Prelude.{ℕ, ◌≡◌};
ghost use Rattle.cml_board.specs.{Call, entries_in, outcome_of};
ghost use Rattle.cml_room.specs.{Asks, Turns, news_by, asked_by};
ghost use Rattle.cml_c.specs.{number, Calls, MayMake, chunk, written_outcome, told_reply};
ghost use Rattle.cml_c.specs.Asking.{told_outcome};

use crate::code::Code;
use crate::handle::Handle;
use crate::owned::{RoomOf, with_kind};
use cml_board::{Call, Message, Reply, Response};

/// Makes a call, again if it had parked its seat.
#[inline(always)]
pub(crate) fn ask<M: Message>(
    room: &mut RoomOf<M>,
    seat: u64,
    is_again: bool,
    call: Call<M>,
) -> Response<M>
    ensures asks { let outcome = outcome_of (entries_in room.old.board.history) call result in
        Asks chunk M.SURE (MayMake is_again room.old seat call) room.old room.new seat call outcome }
    ensures turns { let outcome = outcome_of (entries_in room.old.board.history) call result in
        Turns seat (asked_by seat outcome) (news_by outcome) room.old room.new }
{
    if is_again {
        return room.call_again(seat, call);
    }
    room.call(seat, call)
}

/// The code of what became of a call.
#[inline]
pub(crate) fn code_of_response<M>(response: &Response<M>) -> Code
    ensures { (entries : ℕ) (call : Call M) → result ≡ told_outcome (outcome_of entries call response.now) }
{
    match response {
        Response::Reply(reply) => code_of_reply(reply),
        Response::WouldWait(_) => Code::Parked,
        Response::Refused(refusal, _) => Code::of_refusal(*refusal),
    }
}

/// The code of a reply.
#[inline]
pub(crate) fn code_of_reply<M>(reply: &Reply<M>) -> Code
    ensures { result ≡ told_reply reply.now }
{
    match reply {
        Reply::Done | Reply::Made(_) | Reply::Got(_) => Code::Done,
        Reply::Nothing => Code::Nothing,
        Reply::Put => Code::Put,
        Reply::Closed => Code::Closed,
    }
}

/// Makes a call in a room of numbers, and writes the name or the message that it gives.
#[inline(always)]
pub(crate) fn make_call(
    handle: &mut Handle,
    seat: u64,
    is_again: bool,
    call: Call<u64>,
    given: &mut u64,
) -> u32
    ensures { Calls is_again seat call handle.old.owned handle.new.owned result given.old given.new }
{
    with_kind!(handle, Numbers(Room(room)) => tell(ask(&mut room.room, seat, is_again, call), given))
}

/// The code of what became of a call. A number that it gave is written.
#[inline(always)]
pub(crate) fn tell(response: Response<u64>, given: &mut u64) -> u32
    ensures code { (entries : ℕ) (call : Call ℕ) → result ≡ number (told_outcome (outcome_of entries call response)) }
    ensures written { (entries : ℕ) (call : Call ℕ) → given.new ≡ written_outcome given.old (outcome_of entries call response) }
{
    match response {
        Response::Reply(Reply::Made(name)) => {
            *given = name.0;
            Code::Done.number()
        }
        Response::Reply(Reply::Got(message)) => {
            *given = message;
            Code::Done.number()
        }
        other => code_of_response(&other).number(),
    }
}
