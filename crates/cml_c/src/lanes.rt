//! Lanes, on which a thread sends without the room's lock.
ghost use Rattle.std.specs.Prelude.{◌≡◌, ⊤};
ghost use Rattle.cml_lanes.specs.{Drains, Abandons};
ghost use Rattle.cml_room.specs.{Stirs, MakesFewByOne, MakesNoneDue};
ghost use Rattle.cml_c.specs.Codes.{told_outcome};
ghost use Rattle.cml_c.specs.{number, written_count, chunk, Does, Counts, OnAnyMessages, OnAnyOwned, OnNumbers, OnBytes, OnBoth, OnRoom};
ghost use Rattle.cml_c.specs.{OpensLane, Sends, SendsCopied, Finishes, Closes, ClosesLane, ClosesEnd, DropsLane, told_sent, told_dropped};
ghost use Rattle.cml_c.specs.{written_dropped};
ghost use Rattle.cml_c.specs.Lanes.{SendsBytes};

use crate::code::Code;
use crate::handle::{Handle, Slot};
use crate::messages::copied;
use crate::owned::{
    Owned, Payload, Resource, RoomOf, for_both, on_any_messages, on_both, with_kind,
};
use crate::rooms::code_of;
use crate::telling::write_number;
use cml_board::{Bytes, Message, Name, Refusal};
use cml_lanes::{Lane, LaneEnd, MAX_CAPACITY};
use std::alloc::Global;
use std::mem;

/// Opens a lane to a mailbox or a channel, with room for `capacity` messages, and writes a handle to it and its number.
#[unsafe(no_mangle)]
pub extern "C" fn seryugo_lane_open(
    alloc: Global,
    room: &mut Handle,
    target: u64,
    capacity: usize,
    lane: &mut Slot,
    lane_number: &mut u64,
) -> u32
    ensures { OnAnyOwned
        (λ M sure wrap. OnRoom (OpensLane wrap (record { 0 = target }) capacity lane.old lane.new result lane_number.old lane_number.new))
        ((lane_number.new ≡ lane_number.old) × (lane.new ≡ lane.old)) result room.old.owned room.new.owned }
{
    for_both!(room.as_mut(), resource => open(alloc, resource, Name(target), capacity, lane, lane_number))
}

fn open<M: Payload>(
    alloc: Global,
    resource: &mut Resource<M>,
    target: Name,
    capacity: usize,
    lane: &mut Slot,
    lane_number: &mut u64,
) -> u32
    ensures { OnRoom (OpensLane M.OWNED target capacity lane.old lane.new result lane_number.old lane_number.new)
        ((lane_number.new ≡ lane_number.old) × (lane.new ≡ lane.old)) result resource.old resource.new }
{
    match resource {
        Resource::Room(room) => open_in(alloc, &mut room.room, target, capacity, lane, lane_number),
        _ => Code::WrongHandle.number(),
    }
}

fn open_in<M: Payload>(
    alloc: Global,
    room: &mut RoomOf<M>,
    target: Name,
    capacity: usize,
    lane: &mut Slot,
    lane_number: &mut u64,
) -> u32
    ensures { OpensLane M.OWNED target capacity lane.old lane.new result lane_number.old lane_number.new room.old room.new }
{
    if capacity < 1 || capacity > MAX_CAPACITY {
        return Code::OutOfBounds.number();
    }
    // The handle's memory is taken first, so that no lane is open without one.
    let Ok(mut handle) = Handle::new(alloc, Owned::Numbers(Resource::Spent)) else {
        return Code::NoMemory.number();
    };
    match room.open_lane(target, capacity) {
        Ok((opened, number)) => {
            handle.set(M::own_lane(opened));
            *lane = handle.into_slot();
            *lane_number = number;
            Code::Done.number()
        }
        Err(refusal) => Code::of_refusal(refusal).number(),
    }
}

/// Sends a number on a lane, which takes no lock. Fails with `Full` if no free slot is seen.
#[unsafe(no_mangle)]
pub extern "C" fn seryugo_lane_send(lane: &mut Handle, message: u64) -> u32
    ensures { OnNumbers (Sends message result) ⊤ result lane.old.owned lane.new.owned }
{
    with_kind!(lane, Numbers(Lane(lane)) => tell_sent(lane.send(message)))
}

/// Copies a message, and sends it on a lane, which takes no lock. Fails with `Full` if no free slot is seen.
#[unsafe(no_mangle)]
pub extern "C" fn seryugo_bytes_lane_send_from(
    alloc: Global,
    lane: &mut Handle,
    message: &[u8],
) -> u32
    ensures { SendsBytes message.now lane.old.owned lane.new.owned result }
{
    with_kind!(lane, Bytes(Lane(lane)) => send_copy(alloc, lane, message))
}

fn send_copy(alloc: Global, lane: &mut Lane<Bytes>, message: &[u8]) -> u32
    ensures { SendsCopied message.now result lane.old lane.new }
{
    match copied(alloc, message) {
        Ok(bytes) => tell_sent(lane.send(bytes)),
        Err(code) => code.number(),
    }
}

/// The code of a message that was sent on a lane, or is handed back.
fn tell_sent<T: Drop>(outcome: Result<(), T>) -> u32
    ensures { result ≡ number (told_sent outcome) }
{
    match outcome {
        Ok(()) => Code::Done.number(),
        Err(_) => Code::Full.number(),
    }
}

/// Ends a lane: nothing more is sent on it. Fails with `Gone` if its room has dropped it before.
#[unsafe(no_mangle)]
pub extern "C" fn seryugo_lane_finish(lane: &mut Handle) -> u32
    ensures { OnAnyMessages (λ M sure. Finishes) ⊤ result lane.old.owned lane.new.owned }
{
    for_both!(lane.as_mut(), resource => finish(resource))
}

fn finish<M: Message>(resource: &mut Resource<M>) -> u32
    ensures { Finishes ⊤ result resource.old resource.new }
{
    let (left, code) = match mem::replace(resource, Resource::Spent) {
        Resource::Lane(lane) => match lane.finish() {
            Some(end) => (Resource::LaneEnd(end), Code::Done),
            None => (Resource::Spent, Code::Gone),
        },
        other => (other, Code::WrongHandle),
    };
    *resource = left;
    code.number()
}

/// Moves the messages that it sees on a finished lane, and closes the lane if the journal then has as many of its messages
/// as were sent on it. Otherwise its handle is as it was.
#[unsafe(no_mangle)]
pub extern "C" fn seryugo_lane_close(room: &mut Handle, lane: &mut Handle) -> u32
    ensures { OnBoth (λ M sure. Closes sure) result room.old.owned room.new.owned lane.old.owned lane.new.owned }
{
    on_both!(room, lane => close(room, lane))
}

fn close<M: Message>(resource: &mut Resource<M>, lane: &mut Resource<M>) -> u32
    ensures { Closes M.SURE result resource.old resource.new lane.old lane.new }
{
    match resource {
        Resource::Room(room) => close_in(&mut room.room, lane),
        _ => Code::WrongHandle.number(),
    }
}

fn close_in<M: Message>(room: &mut RoomOf<M>, lane: &mut Resource<M>) -> u32
    ensures { ClosesLane M.SURE lane.old lane.new result room.old room.new }
{
    let (left, code) = match mem::replace(lane, Resource::Spent) {
        Resource::LaneEnd(end) => close_end(room, end),
        other => (other, Code::WrongHandle),
    };
    *lane = left;
    code.number()
}

/// What a finished lane's handle leads to then, and the code that says so.
fn close_end<M: Message>(room: &mut RoomOf<M>, end: LaneEnd<M>) -> (Resource<M>, Code)
    ensures { ClosesEnd M.SURE end result.0 (number result.1) room.old room.new }
{
    match room.close_counted(end) {
        Ok(()) => (Resource::Spent, Code::Done),
        Err((end, refusal)) => (Resource::LaneEnd(end), Code::of_refusal(refusal)),
    }
}

/// Moves the messages that it sees on an open lane into the journal, and writes how many.
#[unsafe(no_mangle)]
pub extern "C" fn seryugo_lane_drain(room: &mut Handle, lane_number: u64, count: &mut u64) -> u32
    ensures { OnAnyMessages (λ M sure. OnRoom (Counts (Drains chunk sure lane_number) (Stirs MakesFewByOne) result count.old count.new))
        (count.new ≡ count.old) result room.old.owned room.new.owned }
{
    on_any_messages!(room, Room(room) => drain(&mut room.room, lane_number, count))
}

fn drain<M: Message>(room: &mut RoomOf<M>, lane_number: u64, count: &mut u64) -> u32
    ensures { Counts (Drains chunk M.SURE lane_number) (Stirs MakesFewByOne) result count.old count.new room.old room.new }
{
    tell_count(room.drain(lane_number), count)
}

/// Moves the messages that it sees on an open lane, writes how many, and closes it if none was refused. Fails with `StillOpen`
/// if one was, but not the first.
#[unsafe(no_mangle)]
pub extern "C" fn seryugo_lane_drop(room: &mut Handle, lane_number: u64, count: &mut u64) -> u32
    ensures { OnAnyMessages (λ M sure. OnRoom (DropsLane sure lane_number result count.old count.new))
        (count.new ≡ count.old) result room.old.owned room.new.owned }
{
    on_any_messages!(room, Room(room) => drop_lane(&mut room.room, lane_number, count))
}

fn drop_lane<M: Message>(room: &mut RoomOf<M>, lane_number: u64, count: &mut u64) -> u32
    ensures { DropsLane M.SURE lane_number result count.old count.new room.old room.new }
{
    tell_dropped(room.drop_lane(lane_number), count)
}

/// The code of the drop of a lane, and how many messages were moved, which is written.
fn tell_dropped(outcome: Result<(usize, bool), Refusal>, count: &mut u64) -> u32
    ensures code { result ≡ number (told_dropped outcome) }
    ensures written { count.new ≡ written_dropped count.old outcome }
{
    match outcome {
        Ok((moved, true)) => write_number(moved as u64, count),
        Ok((moved, false)) => {
            *count = moved as u64;
            Code::StillOpen.number()
        }
        Err(refusal) => Code::of_refusal(refusal).number(),
    }
}

/// Closes an open lane at once, and drops the messages left on it.
#[unsafe(no_mangle)]
pub extern "C" fn seryugo_lane_abandon(room: &mut Handle, lane_number: u64) -> u32
    ensures { OnAnyMessages (λ M sure. OnRoom (Does (Abandons lane_number) (Stirs MakesNoneDue) result)) ⊤ result room.old.owned room.new.owned }
{
    on_any_messages!(room, Room(room) => abandon(&mut room.room, lane_number))
}

fn abandon<M: Message>(room: &mut RoomOf<M>, lane_number: u64) -> u32
    ensures { Does (Abandons lane_number) (Stirs MakesNoneDue) result room.old room.new }
{
    code_of(room.abandon_lane(lane_number))
}

/// The code of a call that gives a count, which is written.
pub(crate) fn tell_count(outcome: Result<usize, Refusal>, count: &mut u64) -> u32
    ensures code { result ≡ number (told_outcome outcome) }
    ensures written { count.new ≡ written_count count.old outcome }
{
    match outcome {
        Ok(moved) => write_number(moved as u64, count),
        Err(refusal) => Code::of_refusal(refusal).number(),
    }
}
