//! The second stage: what is owed is sent again.
ghost use Rattle.std.specs.Prelude.{ℕ, ◌≡◌, ◌<◌, ◌≤◌, ◌+◌, ◌-◌, ◌++◌, [], length, slice_get, Some, OnOk, IfErr};
ghost use Rattle.cml_calls.specs.declared.kind.Kind.TheVariants.{Channel, Mailbox};
ghost use Rattle.cml_board.specs.{Lawful, kind_of, made, no_entries, entries_in, facts_of, owed_to};
ghost use Rattle.cml_compact.specs.Stages.{stock};
ghost use Rattle.cml_compact.specs.Slowest.{AreSlowest};
ghost use Rattle.cml_compact.specs.Planning.{IsPlan};
ghost use Rattle.cml_compact.specs.Stepping.{Reaches, Changes, StopsBefore, sent_until};
ghost use Rattle.cml_compact.specs.{AllBy, Stops, begun_anew, compact_size, stocked};

use crate::planning::Plan;
use crate::slowest::owed;
use crate::telling::tell;
use cml_board::{Board, Call, Message, Name, Refusal, Who};
use cml_calls::Kind;
use cml_log::MessageLog;
use std::alloc::Global;

/// Sends to each mailbox what waits in it, and multicasts on each channel the rest of its messages.
pub fn send_all<M: Message, L: MessageLog<M>>(
    alloc: Global,
    board: &Board<M, L>,
    new: &mut Board<M, L>,
    who: Who,
    slowest: &Vec<Name>,
    plan: &Plan<M>,
) -> Result<(), Refusal>
    requires begun { Reaches new.old.limit new.old (length (made board.now.history)) (begun_anew board.now.history) }
    requires slowest { AreSlowest board.now.history (length (made board.now.history)) slowest.now.items }
    requires plan { IsPlan board.now.history plan.now.begins.items plan.now.fronts.items plan.now.messages.items }
    ensures ok { OnOk result (Reaches new.old.limit new.new (length (made board.now.history)) (stocked board.now.history)) }
    ensures err { IfErr result (Stops new.old.limit (compact_size board.now.history)) }
    ensures whose { AllBy who new.old.history → AllBy who new.new.history }
{
    board.facts();
    for name in 0..board.object_count() {
        let from = slowest[name as usize];
        send_one(alloc, board, new, who, Name(name), from, plan)?;
    }
    Ok(())
}

/// Sends what is owed of a mailbox, or the rest of what is owed of a channel. The slowest port of a channel is `from`.
fn send_one<M: Message, L: MessageLog<M>>(
    alloc: Global,
    board: &Board<M, L>,
    new: &mut Board<M, L>,
    who: Who,
    name: Name,
    from: Name,
    plan: &Plan<M>,
) -> Result<(), Refusal>
    requires lawful { Lawful board.now.history }
    requires within { name.0 < length (made board.now.history) }
    requires begins { new.old.past ≡ no_entries }
    requires kept { Lawful new.old.history }
    requires begun { facts_of new.old.history name.0 ≡ begun_anew board.now.history name.0 }
    requires slowest { kind_of board.now.history name.0 ≡ Some Channel → owed_to board.now.history from.0 ≡ stock board.now.history name.0 }
    requires plan { IsPlan board.now.history plan.now.begins.items plan.now.fronts.items plan.now.messages.items }
    ensures ok { OnOk result (Changes new.old new.new name.0 (stocked board.now.history name.0)) }
    ensures err { IfErr result (StopsBefore new.old (begun_anew board.now.history name.0) (stocked board.now.history name.0)) }
    ensures whose { AllBy who new.old.history → AllBy who new.new.history }
{
    match board.kind(name) {
        Some(Kind::Mailbox) => send_owed(board, new, who, name),
        Some(Kind::Channel) => send_until(alloc, new, who, plan, name, owed(board, from)),
        Some(Kind::Port | Kind::IVar | Kind::MVar) | None => Ok(()),
    }
}

/// Multicasts again on a channel, until it has had so many messages.
pub fn send_until<M: Message, L: MessageLog<M>>(
    alloc: Global,
    new: &mut Board<M, L>,
    who: Who,
    plan: &Plan<M>,
    channel: Name,
    to: u64,
) -> Result<(), Refusal>
    requires begins { new.old.past ≡ no_entries }
    requires kept { Lawful new.old.history }
    requires kind { kind_of new.old.history channel.0 ≡ Some Channel }
    requires order { length (facts_of new.old.history channel.0).sent ≤ to }
    requires within { channel.0 < length plan.now.fronts.items }
    requires enough { (front : ℕ) → slice_get plan.now.fronts.items channel.0 ≡ Some front
        → front + to ≤ length plan.now.messages.items }
    ensures ok { OnOk result ((front : ℕ) → slice_get plan.now.fronts.items channel.0 ≡ Some front
        → Changes new.old new.new channel.0 (sent_until (facts_of new.old.history channel.0) front to plan.now.messages.items)) }
    ensures err { IfErr result
        (Stops new.old.limit (entries_in new.old.history + (to - length (facts_of new.old.history channel.0).sent))) }
    ensures whose { AllBy who new.old.history → AllBy who new.new.history }
{
    let from = new.sent_count(channel).unwrap_or(0);
    share_all(alloc, new, who, channel, plan.part(channel, from, to))
}

/// Multicasts copies of these messages.
fn share_all<M: Message, L: MessageLog<M>>(
    alloc: Global,
    new: &mut Board<M, L>,
    who: Who,
    channel: Name,
    messages: &[M],
) -> Result<(), Refusal>
    requires begins { new.old.past ≡ no_entries }
    requires kept { Lawful new.old.history }
    requires kind { kind_of new.old.history channel.0 ≡ Some Channel }
    ensures ok { OnOk result (Changes new.old new.new channel.0
        (record (facts_of new.old.history channel.0) { sent = (facts_of new.old.history channel.0).sent ++ messages.now })) }
    ensures err { IfErr result (Stops new.old.limit (entries_in new.old.history + length messages.now)) }
    ensures whose { AllBy who new.old.history → AllBy who new.new.history }
{
    for message in messages {
        let Ok(copy) = message.share(alloc) else {
            return Err(Refusal::NoMemory);
        };
        tell(new, who, Call::Cast(channel, copy))?;
    }
    Ok(())
}

/// Sends what waits in this mailbox.
fn send_owed<M: Message, L: MessageLog<M>>(
    board: &Board<M, L>,
    new: &mut Board<M, L>,
    who: Who,
    mailbox: Name,
) -> Result<(), Refusal>
    requires begins { new.old.past ≡ no_entries }
    requires kept { Lawful new.old.history }
    requires kind { kind_of new.old.history mailbox.0 ≡ Some Mailbox }
    requires empty { (facts_of new.old.history mailbox.0).sent ≡ [] }
    ensures ok { OnOk result (Changes new.old new.new mailbox.0
        (record (facts_of new.old.history mailbox.0) { sent = owed_to board.now.history mailbox.0 })) }
    ensures err { IfErr result (Stops new.old.limit (entries_in new.old.history + length (owed_to board.now.history mailbox.0))) }
    ensures whose { AllBy who new.old.history → AllBy who new.new.history }
{
    match board.share_owed(mailbox) {
        Ok(messages) => give_all(new, who, mailbox, messages),
        Err(_) => Err(Refusal::NoMemory),
    }
}

/// Sends these messages.
fn give_all<M: Message, L: MessageLog<M>>(
    new: &mut Board<M, L>,
    who: Who,
    mailbox: Name,
    messages: Vec<M>,
) -> Result<(), Refusal>
    requires begins { new.old.past ≡ no_entries }
    requires kept { Lawful new.old.history }
    requires kind { kind_of new.old.history mailbox.0 ≡ Some Mailbox }
    requires empty { (facts_of new.old.history mailbox.0).sent ≡ [] }
    ensures ok { OnOk result
        (Changes new.old new.new mailbox.0 (record (facts_of new.old.history mailbox.0) { sent = messages.items })) }
    ensures err { IfErr result (Stops new.old.limit (entries_in new.old.history + length messages.items)) }
    ensures whose { AllBy who new.old.history → AllBy who new.new.history }
{
    for message in messages {
        tell(new, who, Call::Send(mailbox, message))?;
    }
    Ok(())
}
