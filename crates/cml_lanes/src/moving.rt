//! How messages go from a lane's ring into the journal: each is taken out once it has its entry.
ghost use Rattle.std.specs.Prelude.{◌≡◌, ◌<◌, [], length, IfNone, IfSome};
ghost use Rattle.cml_lanes.specs.{KeepsLane, MovesOut, Stops, OnSlot, HasLane, DrainsUntil, LeavesAll};

use crate::inner_lane::InnerLane;
use crate::lane::LaneEnd;
use cml_board::{Board, Message, Refusal, Response, Who};
use cml_log::MessageLog;
use std::alloc::Global;

/// Looks into the ring of a slot's lane, and moves the messages that it sees until one is refused. Returns how many it
/// moved, and the refusal.
pub fn drain_slot<M: Message, L: MessageLog<M>>(
    alloc: Global,
    board: &mut Board<M, L>,
    slot: &mut Option<InnerLane<M>>,
    number: u64,
) -> (usize, Option<Refusal>)
    requires { HasLane board.old.history number slot.old }
    ensures { OnSlot slot.old slot.new (DrainsUntil L.CHUNK M.SURE number result.0 result.1 board.old board.new) }
{
    let Some(lane) = slot else { unreachable!() };
    lane.look();
    move_seen(alloc, board, lane, number)
}

/// Moves all that is left in the ring of a lane that has finished, until a message is refused. Returns how many it moved, and
/// the refusal.
pub fn drain_slot_after<M: Message, L: MessageLog<M>>(
    alloc: Global,
    board: &mut Board<M, L>,
    slot: &mut Option<InnerLane<M>>,
    number: u64,
    end: &mut LaneEnd<M>,
) -> (usize, Option<Refusal>)
    requires slot { HasLane board.old.history number slot.old }
    requires ring { IfSome slot.old (λ side. end.old.ring ≡ side.ring) }
    ensures end { end.new ≡ end.old }
    ensures until { OnSlot slot.old slot.new (DrainsUntil L.CHUNK M.SURE number result.0 result.1 board.old board.new) }
    ensures all { IfSome slot.new (LeavesAll end.old) }
{
    let Some(lane) = slot else { unreachable!() };
    lane.look_after(end);
    move_seen(alloc, board, lane, number)
}

/// Moves all messages that were seen in the lane's ring until one is refused. Returns how many it moved, and the refusal.
pub fn move_seen<M: Message, L: MessageLog<M>>(
    alloc: Global,
    board: &mut Board<M, L>,
    lane: &mut InnerLane<M>,
    number: u64,
) -> (usize, Option<Refusal>)
    requires { KeepsLane board.old.history number lane.old }
    ensures moved { IfNone result.1 (MovesOut number result.0 board.old board.new lane.old lane.new × (lane.new.seen ≡ [])) }
    ensures stopped { IfSome result.1 (λ refusal. Stops L.CHUNK M.SURE number result.0 board.old board.new lane.old lane.new refusal) }
{
    let count = lane.seen();
    for moved in 0..count {
        let refusal = move_next(alloc, board, lane, number);
        if refusal.is_some() {
            return (moved, refusal);
        }
    }
    (count, None)
}

/// Moves the next message that was seen. It stays in the ring if its call is refused.
fn move_next<M: Message, L: MessageLog<M>>(
    alloc: Global,
    board: &mut Board<M, L>,
    lane: &mut InnerLane<M>,
    number: u64,
) -> Option<Refusal>
    requires kept { KeepsLane board.old.history number lane.old }
    requires seen { 0 < length lane.old.seen }
    ensures moved { IfNone result (MovesOut number 1 board.old board.new lane.old lane.new) }
    ensures stopped { IfSome result (λ refusal. Stops L.CHUNK M.SURE number 0 board.old board.new lane.old lane.new refusal) }
{
    // A full journal is reported before any memory is allocated.
    if board.is_full() {
        return Some(Refusal::JournalFull);
    }
    let Ok(message) = lane.next().share(alloc) else {
        return Some(Refusal::NoMemory);
    };
    let call = lane.way().call(lane.target(), message);
    match board.call(Who::Lane(number), call) {
        Response::Reply(_) => {
            lane.take();
            None
        }
        Response::WouldWait(_) => unreachable!(),
        Response::Refused(refusal, _) => Some(refusal),
    }
}
