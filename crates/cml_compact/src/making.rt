//! The first stage: the same objects under the same names.
ghost use Rattle.std.specs.Prelude.{◌≡◌, ◌<◌, ◌+◌, true, length, OnOk, IfErr};
ghost use Rattle.cml_calls.specs.{is_port};
ghost use Rattle.cml_board.specs.{Lawful, is_a, made, origin_of, no_entries};
ghost use Rattle.cml_compact.specs.Planning.{IsPlan};
ghost use Rattle.cml_compact.specs.Stepping.{maker_in, Reaches};
ghost use Rattle.cml_compact.specs.{AllBy, Stops, begun_anew, begun_before, compact_size};

use crate::planning::Plan;
use crate::sending::send_until;
use crate::telling::tell;
use cml_board::{Board, Call, Message, Name, Refusal, Who};
use cml_calls::Kind;
use cml_log::MessageLog;
use std::alloc::Global;

/// Makes each object again. A channel gets the first of its messages before a port is made that has passed them.
pub fn make_all<M: Message, L: MessageLog<M>>(
    alloc: Global,
    board: &Board<M, L>,
    new: &mut Board<M, L>,
    who: Who,
    plan: &Plan<M>,
) -> Result<(), Refusal>
    requires fresh { new.old.history ≡ no_entries }
    requires begins { new.old.past ≡ no_entries }
    requires plan { IsPlan board.now.history plan.now.begins.items plan.now.fronts.items plan.now.messages.items }
    ensures ok { OnOk result (Reaches new.old.limit new.new (length (made board.now.history)) (begun_anew board.now.history)) }
    ensures err { IfErr result (Stops new.old.limit (compact_size board.now.history)) }
    ensures whose { AllBy who new.old.history → AllBy who new.new.history }
{
    board.facts();
    for name in 0..board.object_count() {
        send_before(alloc, board, new, who, plan, Name(name))?;
        tell(new, who, maker(board, Name(name)))?;
    }
    Ok(())
}

/// Multicasts again what a port doesn't get that is made next. Does nothing before any other object.
fn send_before<M: Message, L: MessageLog<M>>(
    alloc: Global,
    board: &Board<M, L>,
    new: &mut Board<M, L>,
    who: Who,
    plan: &Plan<M>,
    name: Name,
) -> Result<(), Refusal>
    requires lawful { Lawful board.now.history }
    requires within { name.0 < length (made board.now.history) }
    requires plan { IsPlan board.now.history plan.now.begins.items plan.now.fronts.items plan.now.messages.items }
    requires reaches { Reaches new.old.limit new.old name.0 (begun_before board.now.history name.0) }
    ensures ok { OnOk result (Reaches new.old.limit new.new name.0 (begun_before board.now.history (name.0 + 1))) }
    ensures err { IfErr result (Stops new.old.limit (compact_size board.now.history)) }
    ensures whose { AllBy who new.old.history → AllBy who new.new.history }
{
    match board.channel_of(name) {
        Some(channel) => send_until(alloc, new, who, plan, channel, plan.begins[name.0 as usize]),
        None => Ok(()),
    }
}

/// Returns the call that makes such an object.
fn maker<M: Message, L: MessageLog<M>>(board: &Board<M, L>, name: Name) -> Call<M>
    ensures { result ≡ maker_in (origin_of board.now.history name.0) }
{
    match board.kind(name) {
        Some(Kind::Mailbox) => Call::NewMailbox,
        Some(Kind::Channel) => Call::NewChannel,
        Some(Kind::Port) => port_maker(board, name),
        Some(Kind::IVar) => Call::NewIVar,
        Some(Kind::MVar) | None => Call::NewMVar,
    }
}

fn port_maker<M: Message, L: MessageLog<M>>(board: &Board<M, L>, name: Name) -> Call<M>
    requires { is_a is_port board.now.history name.0 ≡ true }
    ensures { result ≡ maker_in (origin_of board.now.history name.0) }
{
    match board.channel_of(name) {
        Some(channel) => Call::NewPort(channel),
        None => unreachable!(),
    }
}
