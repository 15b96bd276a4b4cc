//! The third stage: each object leaves what it left before.
ghost use Rattle.std.specs.Prelude.{◌≡◌, ◌<◌, true, false, length, OnOk, IfErr};
ghost use Rattle.cml_calls.specs.{is_port};
ghost use Rattle.cml_board.specs.{Lawful, made, origin_of, source_by, is_a, is_open, sent, owed, no_entries, facts_of};
ghost use Rattle.cml_compact.specs.Stages.{stock};
ghost use Rattle.cml_compact.specs.Stepping.{Reaches, Halfway, Changes, StopsBefore};
ghost use Rattle.cml_compact.specs.{AllBy, Stops, compact_size, stocked, settled};

use crate::telling::tell;
use cml_board::{Board, Call, Message, Name, Refusal, Who};
use cml_log::MessageLog;
use std::alloc::Global;

/// Has ports pass over what they received, closes ports and fills variables.
pub fn settle_all<M: Message, L: MessageLog<M>>(
    alloc: Global,
    board: &Board<M, L>,
    new: &mut Board<M, L>,
    who: Who,
) -> Result<(), Refusal>
    requires stocked { Reaches new.old.limit new.old (length (made board.now.history)) (stocked board.now.history) }
    ensures ok { OnOk result (Reaches new.old.limit new.new (length (made board.now.history)) (settled board.now.history)) }
    ensures err { IfErr result (Stops new.old.limit (compact_size board.now.history)) }
    ensures whose { AllBy who new.old.history → AllBy who new.new.history }
{
    board.facts();
    for name in 0..board.object_count() {
        settle_one(alloc, board, new, who, Name(name))?;
    }
    Ok(())
}

/// Has a port pass over what it received, closes it, or fills a variable.
fn settle_one<M: Message, L: MessageLog<M>>(
    alloc: Global,
    board: &Board<M, L>,
    new: &mut Board<M, L>,
    who: Who,
    name: Name,
) -> Result<(), Refusal>
    requires lawful { Lawful board.now.history }
    requires within { name.0 < length (made board.now.history) }
    requires half { Halfway new.old.limit new.old (length (made board.now.history)) name.0
        (stocked board.now.history) (settled board.now.history) }
    ensures ok { OnOk result (Changes new.old new.new name.0 (settled board.now.history name.0)) }
    ensures err { IfErr result (StopsBefore new.old (stocked board.now.history name.0) (settled board.now.history name.0)) }
    ensures whose { AllBy who new.old.history → AllBy who new.new.history }
{
    match board.is_open(name) {
        Some(true) => pass_over(board, new, who, name),
        Some(false) => close(board, new, who, name),
        None => fill(alloc, board, new, who, name),
    }
}

/// Receives on an open port until it is owed what it was.
fn pass_over<M: Message, L: MessageLog<M>>(
    board: &Board<M, L>,
    new: &mut Board<M, L>,
    who: Who,
    name: Name,
) -> Result<(), Refusal>
    requires lawful { Lawful board.now.history }
    requires begins { new.old.past ≡ no_entries }
    requires kept { Lawful new.old.history }
    requires port { is_a is_port board.now.history name.0 ≡ true }
    requires opened { is_open board.now.history name.0 ≡ true }
    requires stocked { facts_of new.old.history name.0 ≡ stocked board.now.history name.0 }
    requires sends { sent new.old.history (source_by name.0 (origin_of board.now.history name.0))
        ≡ stock board.now.history (source_by name.0 (origin_of board.now.history name.0)) }
    ensures ok { OnOk result (Changes new.old new.new name.0 (settled board.now.history name.0)) }
    ensures err { IfErr result (StopsBefore new.old (stocked board.now.history name.0) (settled board.now.history name.0)) }
    ensures whose { AllBy who new.old.history → AllBy who new.new.history }
{
    let more = new.owed_count(name).unwrap_or(0);
    let left = board.owed_count(name).unwrap_or(0);
    for _at in left..more {
        tell(new, who, Call::Recv(name))?;
    }
    Ok(())
}

/// Closes a port that was closed.
fn close<M: Message, L: MessageLog<M>>(
    board: &Board<M, L>,
    new: &mut Board<M, L>,
    who: Who,
    name: Name,
) -> Result<(), Refusal>
    requires begins { new.old.past ≡ no_entries }
    requires kept { Lawful new.old.history }
    requires port { is_a is_port board.now.history name.0 ≡ true }
    requires closed { is_open board.now.history name.0 ≡ false }
    requires stocked { facts_of new.old.history name.0 ≡ stocked board.now.history name.0 }
    ensures ok { OnOk result (Changes new.old new.new name.0 (settled board.now.history name.0)) }
    ensures err { IfErr result (StopsBefore new.old (stocked board.now.history name.0) (settled board.now.history name.0)) }
    ensures whose { AllBy who new.old.history → AllBy who new.new.history }
{
    tell(new, who, Call::ClosePort(name))
}

/// Puts into a variable what it holds. Does nothing for a mailbox or a channel.
fn fill<M: Message, L: MessageLog<M>>(
    alloc: Global,
    board: &Board<M, L>,
    new: &mut Board<M, L>,
    who: Who,
    name: Name,
) -> Result<(), Refusal>
    requires lawful { Lawful board.now.history }
    requires begins { new.old.past ≡ no_entries }
    requires kept { Lawful new.old.history }
    requires port { is_a is_port board.now.history name.0 ≡ false }
    requires stocked { facts_of new.old.history name.0 ≡ stocked board.now.history name.0 }
    ensures ok { OnOk result (Changes new.old new.new name.0 (settled board.now.history name.0)) }
    ensures err { IfErr result (StopsBefore new.old (stocked board.now.history name.0) (settled board.now.history name.0)) }
    ensures whose { AllBy who new.old.history → AllBy who new.new.history }
{
    let Some(held) = board.held(name) else {
        return Ok(());
    };
    let Some(message) = held else {
        return Ok(());
    };
    match message.share(alloc) {
        Ok(message) => tell(new, who, Call::Put(name, message)),
        Err(_) => Err(Refusal::NoMemory),
    }
}
