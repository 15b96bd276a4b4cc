//! A seat's call in a room of bytes.
ghost use Rattle.std.specs.Prelude.{ℕ, ◌≡◌, List, IsSome, OnOk};
ghost use Rattle.cml_c.specs.Asking.{told_outcome};
ghost use Rattle.cml_board.specs.{Call, outcome_of};
ghost use Rattle.cml_c.specs.{number, named_outcome, IsShortResponse, GivesBytes, MakesBytes, HandsOutcome};

use crate::asking::{ask, code_of_reply, code_of_response};
use crate::blocks::needs_block;
use crate::code::Code;
use crate::keeper::Held;
use crate::messages::{SeryugoBytes, hand_over, new_block, show_short};
use crate::owned::{RoomOf, RoomWithSpare};
use cml_board::{Bytes, Call, Reply, Response};
use std::alloc::{AllocError, Global};

/// Makes a call, and writes the name or hands over the message that it gives.
#[inline(always)]
pub(crate) fn make_in_room(
    alloc: Global,
    room: &mut RoomWithSpare<Bytes>,
    seat: u64,
    is_again: bool,
    call: Call<Bytes>,
    name: &mut u64,
    given: &mut SeryugoBytes,
) -> u32
    ensures { (sent : List ℕ) → MakesBytes is_again seat sent call result (GivesBytes name.old name.new given.old given.new)
        ((name.new ≡ name.old) × (given.new ≡ given.old)) room.old.room room.new.room }
{
    // The memory that keeps a long message is there first, so that none is received without it.
    if stock(alloc, &mut room.spare).is_err() {
        return make_without_block(&mut room.room, seat, is_again, call, name, given);
    }
    let response = ask(&mut room.room, seat, is_again, call);
    write_name(&response, name);
    tell(&mut room.spare, response, given)
}

/// Makes a call though there is no memory to keep a long message. If the call needs some, nothing is changed.
#[inline(never)]
fn make_without_block(
    room: &mut RoomOf<Bytes>,
    seat: u64,
    is_again: bool,
    call: Call<Bytes>,
    name: &mut u64,
    given: &mut SeryugoBytes,
) -> u32
    ensures { (sent : List ℕ) → MakesBytes is_again seat sent call result (GivesBytes name.old name.new given.old given.new)
        ((name.new ≡ name.old) × (given.new ≡ given.old)) room.old room.new }
{
    if needs_block(room, seat, is_again, &call) {
        drop(call);
        return Code::NoMemory.number();
    }
    let response = ask(room, seat, is_again, call);
    write_name(&response, name);
    tell_short(response, given).number()
}

/// Writes the name that a call gave.
#[inline(always)]
fn write_name(response: &Response<Bytes>, name: &mut u64)
    ensures { (entries : ℕ) (call : Call (List ℕ)) → name.new ≡ named_outcome name.old (outcome_of entries call response.now) }
{
    if let Response::Reply(Reply::Made(made)) = response {
        *name = made.0;
    }
}

/// Sees that there is a spare block.
#[inline]
fn stock(alloc: Global, spare: &mut Option<Box<Held>>) -> Result<(), AllocError>
    ensures { OnOk result (IsSome spare.new) }
{
    if spare.is_none() {
        *spare = Some(new_block(alloc)?);
    }
    Ok(())
}

/// The code of what became of a call. A message that the call gave is handed over, a long one in the spare block.
#[inline(always)]
fn tell(spare: &mut Option<Box<Held>>, response: Response<Bytes>, given: &mut SeryugoBytes) -> u32
    requires { IsSome spare.old }
    ensures code { (entries : ℕ) (call : Call (List ℕ)) → result ≡ number (told_outcome (outcome_of entries call response)) }
    ensures written { (entries : ℕ) (call : Call (List ℕ)) → HandsOutcome given.old given.new (outcome_of entries call response) }
{
    match response {
        Response::Reply(Reply::Got(message)) => {
            hand_over(spare, message, given);
            Code::Done.number()
        }
        other => code_of_response(&other).number(),
    }
}

/// The code of what became of a call that gave no long message. The message is handed over.
fn tell_short(response: Response<Bytes>, given: &mut SeryugoBytes) -> Code
    requires { IsShortResponse response }
    ensures code { (entries : ℕ) (call : Call (List ℕ)) → result ≡ told_outcome (outcome_of entries call response) }
    ensures written { (entries : ℕ) (call : Call (List ℕ)) → HandsOutcome given.old given.new (outcome_of entries call response) }
{
    match response {
        Response::Reply(Reply::Got(message)) => {
            show_short(message.as_slice(), given);
            Code::Done
        }
        Response::Reply(other) => code_of_reply(&other),
        other => code_of_response(&other),
    }
}
