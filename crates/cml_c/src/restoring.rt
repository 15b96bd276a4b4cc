//! A room goes on from a journal that was read back.
ghost use Rattle.std.specs.Prelude.{◌≡◌, ◌≤◌, ◌^◌, IfOk};
ghost use Rattle.cml_c.specs.{number, told_halt, IsRoomOn, OpensOn, Restores, RestoresBy, RestoresKept, left_halted};

use crate::code::Code;
use crate::handle::{Handle, Slot};
use crate::owned::{CheckOf, LogOf, Owned, Payload, Resource, RoomWithSpare, for_both};
use crate::read_journals::code_of_halt;
use crate::rooms::{MOST, write_handle};
use cml_board::Restored;
use cml_journal::{Halt, Written};
use cml_room::Room;
use std::alloc::{AllocError, Global};
use std::mem;

/// Opens a room on what a reading read, and writes a handle to it. The reading is spent then.
#[unsafe(no_mangle)]
pub extern "C" fn seryugo_room_restore(
    alloc: Global,
    reading: &mut Handle,
    limit: u64,
    room: &mut Slot,
) -> u32
    ensures { RestoresKept limit room.old room.new result reading.old.owned reading.new.owned }
{
    for_both!(reading.as_mut(), resource => restore(alloc, resource, limit, room))
}

fn restore<M: Payload + Written>(
    alloc: Global,
    resource: &mut Resource<M>,
    limit: u64,
    room: &mut Slot,
) -> u32
    ensures { Restores M.VERSION M.meaning M.OWNED limit room.old room.new result resource.old resource.new }
{
    let (left, code) = match mem::replace(resource, Resource::Spent) {
        Resource::JournalCheck(reading) => restore_by(alloc, reading, limit, room),
        other => (other, Code::WrongHandle.number()),
    };
    *resource = left;
    code
}

/// What a reading's handle leads to then, and the code that tells it.
fn restore_by<M: Payload + Written>(
    alloc: Global,
    mut reading: Box<CheckOf<M>>,
    limit: u64,
    room: &mut Slot,
) -> (Resource<M>, u32)
    ensures { RestoresBy M.VERSION M.meaning M.OWNED limit room.old room.new reading result.0 result.1 }
{
    if limit < 1 || limit > MOST {
        return (Resource::JournalCheck(reading), Code::OutOfBounds.number());
    }
    if let Some(halt) = reading.halt() {
        return (left_of(reading, halt), code_of_halt(halt).number());
    }
    match reading.restore(limit) {
        Some(restored) => (Resource::Spent, open(alloc, restored, room)),
        None => (Resource::JournalCheck(reading), Code::Unlawful.number()),
    }
}

/// What is left of a reading that stopped so: nothing, if there was no memory.
pub(crate) fn left_of<M: Payload>(reading: Box<CheckOf<M>>, halt: Halt) -> Resource<M>
    ensures { result ≡ left_halted reading halt }
{
    match halt {
        Halt::NoMemory => Resource::Spent,
        _ => Resource::JournalCheck(reading),
    }
}

/// Opens a room on this board, and writes a handle to it.
fn open<M: Payload>(alloc: Global, restored: Restored<M, LogOf<M>>, room: &mut Slot) -> u32
    ensures { OpensOn M.OWNED restored room.old room.new result }
{
    match new_room(alloc, restored) {
        Ok(opened) => write_handle(alloc, M::own_room(opened), room),
        Err(_) => Code::NoMemory.number(),
    }
}

fn new_room<M: Payload>(
    alloc: Global,
    restored: Restored<M, LogOf<M>>,
) -> Result<Box<RoomWithSpare<M>>, AllocError>
    ensures { IfOk result (λ room. IsRoomOn restored room.value.room) }
{
    Ok(Box::new(
        alloc,
        RoomWithSpare {
            room: Room::restore(alloc, restored)?,
            spare: None,
        },
    )?)
}
