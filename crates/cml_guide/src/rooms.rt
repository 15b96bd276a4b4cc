//! Seats that one thread plays in turn, or threads that share their own lock: no call of a room blocks.

use crate::calls::{Trouble, message_of, name_of};
use cml_board::{BoardLog, Call, Message, Outcome, Reply};
use cml_room::{Room, State};
use std::alloc::Global;

/// A room whose messages are numbers.
type Numbers = Room<u64, BoardLog<u64>>;

/// The message that a seat got after a wait, its state meanwhile, and which seat was due then.
pub fn received_in_turn(alloc: Global) -> Result<(u64, Option<State>, Option<u64>), Trouble> {
    let mut room = Numbers::new(alloc, 100)?;
    let one = room.new_seat()?;
    let two = room.new_seat()?;
    pass_on(&mut room, one, two)
}

/// The first seat waits for a message, and the second sends it. Then the first is due, and asks again.
fn pass_on(
    room: &mut Numbers,
    one: u64,
    two: u64,
) -> Result<(u64, Option<State>, Option<u64>), Trouble> {
    let letters = name_of(reply(room.ask(one, Call::NewMailbox))?)?;
    match room.ask(one, Call::Recv(letters)) {
        Outcome::WouldWait(receive) => {
            let meanwhile = room.state(one);
            reply(room.ask(two, Call::Send(letters, 5)))?;
            let due = room.next_due();
            let message = message_of(reply(room.ask_again(one, receive))?)?;
            Ok((message, meanwhile, due))
        }
        Outcome::Answered(_) => Err(Trouble::OtherReply),
        Outcome::Refused(refusal, _) => Err(Trouble::Refused(refusal)),
    }
}

/// The reply of a call that must be answered at once.
fn reply<M: Message>(outcome: Outcome<M>) -> Result<Reply<M>, Trouble> {
    match outcome {
        Outcome::Answered(answer) => Ok(answer.into_reply()),
        Outcome::WouldWait(_) => Err(Trouble::WouldWait),
        Outcome::Refused(refusal, _) => Err(Trouble::Refused(refusal)),
    }
}
