//! Calls that must be answered, and the other ways in which they can end.
ghost use Rattle.std.specs.Prelude.{◌≡◌, IfOk, OnErr, None, Some};
ghost use Rattle.cml_board.specs.{answer, AddsEntry, IsAsBefore, Refuses};

use cml_board::{Answer, Board, BoardLog, Call, Message, Name, Outcome, Refusal, Reply, Who};
use std::alloc::AllocError;

/// A board whose messages are of this type.
pub type BoardOf<M> = Board<M, BoardLog<M>>;

/// A board whose messages are numbers.
pub type Numbers = BoardOf<u64>;

/// The seat that makes the calls here.
pub const SEAT: Who = Who::Seat(1);

/// The reason why a call was not answered as its caller needs.
#[derive(Clone, Copy, Debug)]
pub enum Trouble {
    WouldWait,
    Refused(Refusal),
    OtherReply,
    NoMemory,
    /// Of threads: a seat is missing at the end.
    Unsettled,
    /// Of a lane without an end: a message was refused when it was dropped.
    Unclosed,
}

impl From<AllocError> for Trouble {
    fn from(_error: AllocError) -> Trouble {
        Trouble::NoMemory
    }
}

/// The name of the object that was made.
pub fn name_of<M: Message>(reply: Reply<M>) -> Result<Name, Trouble>
    ensures { IfOk result (λ name. reply ≡ Reply.Made name) }
{
    match reply {
        Reply::Made(name) => Ok(name),
        _ => Err(Trouble::OtherReply),
    }
}

/// The message that was got.
pub fn message_of<M: Message>(reply: Reply<M>) -> Result<M, Trouble>
    ensures { IfOk result (λ message. reply ≡ Reply.Got message) }
{
    match reply {
        Reply::Got(message) => Ok(message),
        _ => Err(Trouble::OtherReply),
    }
}

/// Nothing, of a reply that must be `Done`.
pub fn nothing_of<M: Message>(reply: Reply<M>) -> Result<(), Trouble>
    ensures { IfOk result (λ _. reply ≡ Reply.Done) }
{
    match reply {
        Reply::Done => Ok(()),
        _ => Err(Trouble::OtherReply),
    }
}

/// Makes a call that must be answered.
pub fn ask<M: Message>(board: &mut BoardOf<M>, call: Call<M>) -> Result<Answer<M>, Trouble>
    ensures answered { IfOk result (λ told. answer board.old.history call ≡ Some told.reply) }
    ensures added { IfOk result (λ told. AddsEntry board.old board.new SEAT call told.reply) }
    ensures waits { result ≡ Err Trouble.WouldWait → answer board.old.history call ≡ None }
    ensures refused { (refusal : Refusal) → result ≡ Err (Trouble.Refused refusal)
        → Refuses 4 M.SURE board.old call refusal }
    ensures unchanged { OnErr result (IsAsBefore board.old board.new) }
{
    match board.apply(SEAT, call) {
        Outcome::Answered(answer) => Ok(answer),
        Outcome::WouldWait(_) => Err(Trouble::WouldWait),
        Outcome::Refused(refusal, _) => Err(Trouble::Refused(refusal)),
    }
}

/// Makes a call that makes an object, and returns the object's name.
pub fn make<M: Message>(board: &mut BoardOf<M>, call: Call<M>) -> Result<Name, Trouble>
    ensures made { IfOk result (λ name. answer board.old.history call ≡ Some (Reply.Made name)) }
    ensures added { IfOk result (λ name. AddsEntry board.old board.new SEAT call (Reply.Made name)) }
{
    name_of(ask(board, call)?.into_reply())
}

/// Makes a call that receives a message, and returns the message.
pub fn fetch<M: Message>(board: &mut BoardOf<M>, call: Call<M>) -> Result<M, Trouble>
    ensures got { IfOk result (λ message. answer board.old.history call ≡ Some (Reply.Got message)) }
    ensures added { IfOk result (λ message. AddsEntry board.old board.new SEAT call (Reply.Got message)) }
{
    message_of(ask(board, call)?.into_reply())
}

/// Makes a call whose reply is `Done`, as a send.
pub fn perform<M: Message>(board: &mut BoardOf<M>, call: Call<M>) -> Result<(), Trouble>
    ensures done { IfOk result (λ _. answer board.old.history call ≡ Some Reply.Done) }
    ensures added { IfOk result (λ _. AddsEntry board.old board.new SEAT call Reply.Done) }
{
    nothing_of(ask(board, call)?.into_reply())
}
