//! A call that C asks for in a room of bytes.
ghost use Rattle.std.specs.Prelude.{ℕ, ◌≡◌, ◌⊎◌, List, IfOk, IfErr};
ghost use Rattle.cml_c.specs.declared.code.Code.TheVariants.{Gone};
ghost use Rattle.cml_board.specs.{given_call, want_in};
ghost use Rattle.cml_c.specs.{MayWant, NotCopied, MakesBytesAsked, SendsFor, call_at, number};

use crate::blocks::may_make;
use crate::bytes_asking::make_in_room;
use crate::code::Code;
use crate::door::SeryugoAsked;
use crate::messages::{SeryugoBytes, copied};
use crate::owned::{RoomOf, RoomWithSpare};
use cml_board::{Ask, Bytes, Call, Give, Make, Name, Want};
use cml_calls::shape_of_filled;
use std::alloc::Global;

/// A message that isn't copied, for this reason, and what its call waits for.
#[derive(Clone, Copy)]
pub struct Uncopied {
    pub code: Code,
    pub want: Option<Want>,
}

/// Copies the message that the call sends, makes the call, and writes the name or hands over the message that it gives.
pub(crate) fn make_bytes(
    alloc: Global,
    room: &mut RoomWithSpare<Bytes>,
    asked: &SeryugoAsked,
    given: &mut u64,
    message: &mut SeryugoBytes,
) -> u32
    ensures { MakesBytesAsked asked.now given.old given.new message.old message.new result room.old.room room.new.room }
{
    if !asked.takes_bytes {
        return Code::WrongHandle.number();
    }
    match call_of(alloc, asked) {
        Ok(Some(call)) => make_in_room(
            alloc,
            room,
            asked.seat,
            asked.is_again,
            call,
            given,
            message,
        ),
        Ok(None) => Code::OutOfBounds.number(),
        Err(lacks) => tell_uncopied(&room.room, asked, lacks),
    }
}

/// The call that C asks for, with a copy of its message if it sends one. Returns `None` if its kind is none.
fn call_of(alloc: Global, asked: &SeryugoAsked) -> Result<Option<Call<Bytes>>, Uncopied>
    ensures made { IfOk result (λ made. made ≡ call_at asked.now.kind (record { 0 = asked.now.object }) asked.now.sent.now) }
    ensures lacks { IfErr result (λ lacks. SendsFor (call_at asked.now.kind (record { 0 = asked.now.object }) asked.now.sent.now) lacks.want
        × NotCopied asked.now.sent.now (number lacks.code)) }
{
    let object = Name(asked.object);
    if let Some(make) = Make::of_number(asked.kind) {
        return Ok(Some(Call::make(make)));
    }
    if let Some(give) = Give::of_number(asked.kind) {
        let message = copied_for(alloc, asked.sent, want_of(give, object))?;
        return Ok(Some(Call::give(give, object, message)));
    }
    if let Some(ask) = Ask::of_number(asked.kind) {
        return Ok(Some(Call::ask(ask, object)));
    }
    if asked.kind == shape_of_filled().number {
        let message = copied_for(alloc, asked.sent, None)?;
        return Ok(Some(Call::MVarInit(message)));
    }
    Ok(None)
}

/// What a call waits for that gives the object a message.
fn want_of(give: Give, object: Name) -> Option<Want>
    ensures { (message : List ℕ) → result ≡ want_in (given_call give object message) }
{
    match give {
        Give::Swap => Some(Want::Swap(object)),
        Give::Send | Give::Cast | Give::Put => None,
    }
}

/// Copies the message of a call that waits for this.
fn copied_for(alloc: Global, sent: &[u8], want: Option<Want>) -> Result<Bytes, Uncopied>
    ensures copied { IfOk result (λ bytes. bytes ≡ sent.now) }
    ensures lacks { IfErr result (λ lacks. (lacks.want ≡ want) × NotCopied sent.now (number lacks.code)) }
{
    match copied(alloc, sent) {
        Ok(bytes) => Ok(bytes),
        Err(code) => Err(Uncopied { code, want }),
    }
}

/// The code of a call whose message isn't copied.
fn tell_uncopied(room: &RoomOf<Bytes>, asked: &SeryugoAsked, lacks: Uncopied) -> u32
    ensures { (MayWant asked.now.is_again room.now asked.now.seat lacks.want × (result ≡ number lacks.code))
        ⊎ (¬ (MayWant asked.now.is_again room.now asked.now.seat lacks.want) × (result ≡ number Gone)) }
{
    if may_make(room, asked.seat, asked.is_again, lacks.want) {
        return lacks.code.number();
    }
    Code::Gone.number()
}
