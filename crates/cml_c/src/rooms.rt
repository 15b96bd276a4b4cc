//! The calls that open rooms, make seats, let them leave and withdraw their calls, and the one that closes any handle.
ghost use Rattle.std.specs.Prelude.{◌≡◌, ◌⊎◌, IfOk, IfErr, slice_get, ⊤};
ghost use Rattle.cml_c.specs.declared.code.Code.TheVariants.{NoMemory, OutOfBounds};
ghost use Rattle.cml_c.specs.declared.owned.Owned.TheVariants as owned;
ghost use Rattle.cml_c.specs.Codes.{told_outcome};
ghost use Rattle.cml_c.specs.{message_kinds};
ghost use Rattle.cml_c.specs.{number, MakesSeat, Leaves, Withdraws, OnAnyMessages, OnRoom, IsLimit, IsNew, OpensARoom, OpensRoomOf, Writes};

use crate::code::Code;
use crate::handle::{Handle, Slot};
use crate::message_kind::MessageKind;
use crate::owned::{Owned, Resource, RoomOf, RoomWithSpare, on_any_messages};
use crate::telling::write_number;
use cml_board::{Message, Refusal};
use cml_room::Room;
use std::alloc::Global;

/// The largest limit that a journal may have: 2^32.
pub(crate) const MOST: u64 = 4_294_967_296;

/// Opens a room of these messages whose journal takes `limit` entries between two cuts, and writes a handle to it.
#[unsafe(no_mangle)]
pub extern "C" fn seryugo_open_room(
    alloc: Global,
    messages: u32,
    limit: u64,
    room: &mut Slot,
) -> u32
    ensures { OpensRoomOf (slice_get message_kinds messages) limit result room.old room.new }
{
    open(alloc, MessageKind::of(messages), limit, room)
}

fn open(alloc: Global, messages: Option<MessageKind>, limit: u64, room: &mut Slot) -> u32
    ensures { OpensRoomOf messages limit result room.old room.new }
{
    match messages {
        Some(MessageKind::Numbers) => open_numbers(alloc, limit, room),
        Some(MessageKind::Bytes) => open_bytes(alloc, limit, room),
        None => Code::OutOfBounds.number(),
    }
}

fn open_numbers(alloc: Global, limit: u64, room: &mut Slot) -> u32
    ensures { OpensARoom owned.Numbers limit result room.old room.new }
{
    match new_room(alloc, limit) {
        Ok(opened) => write_handle(alloc, Owned::Numbers(Resource::Room(opened)), room),
        Err(code) => code.number(),
    }
}

fn open_bytes(alloc: Global, limit: u64, room: &mut Slot) -> u32
    ensures { OpensARoom owned.Bytes limit result room.old room.new }
{
    match new_room(alloc, limit) {
        Ok(opened) => write_handle(alloc, Owned::Bytes(Resource::Room(opened)), room),
        Err(code) => code.number(),
    }
}

fn new_room<M: Message>(alloc: Global, limit: u64) -> Result<Box<RoomWithSpare<M>>, Code>
    ensures opened { IfOk result (λ room. IsLimit limit × IsNew limit room.value.room) }
    ensures refused { IfErr result (λ code. (code ≡ NoMemory × IsLimit limit) ⊎ (code ≡ OutOfBounds × ¬ (IsLimit limit))) }
{
    if limit < 1 || limit > MOST {
        return Err(Code::OutOfBounds);
    }
    let Ok(room) = Room::new(alloc, limit) else {
        return Err(Code::NoMemory);
    };
    match Box::new(alloc, RoomWithSpare { room, spare: None }) {
        Ok(room) => Ok(room),
        Err(_) => Err(Code::NoMemory),
    }
}

/// Writes a handle to this. If there is no memory for one, this is dropped.
pub(crate) fn write_handle(alloc: Global, owned: Owned, slot: &mut Slot) -> u32
    ensures { Writes owned result slot.old slot.new }
{
    match Handle::new(alloc, owned) {
        Ok(handle) => {
            *slot = handle.into_slot();
            Code::Done.number()
        }
        Err(_) => Code::NoMemory.number(),
    }
}

/// Closes what a handle leads to: it is dropped, and its memory is freed.
#[unsafe(no_mangle)]
pub extern "C" fn seryugo_close(handle: Handle) {
    drop(handle);
}

/// Makes a seat, and writes its number.
#[unsafe(no_mangle)]
pub extern "C" fn seryugo_new_seat(room: &mut Handle, seat: &mut u64) -> u32
    ensures { OnAnyMessages (λ M sure. OnRoom (MakesSeat result seat.old seat.new)) (seat.new ≡ seat.old) result room.old.owned room.new.owned }
{
    on_any_messages!(room, Room(room) => new_seat(&mut room.room, seat))
}

fn new_seat<M: Message>(room: &mut RoomOf<M>, seat: &mut u64) -> u32
    ensures { MakesSeat result seat.old seat.new room.old room.new }
{
    match room.new_seat() {
        Ok(number) => write_number(number, seat),
        Err(refusal) => Code::of_refusal(refusal).number(),
    }
}

/// Makes a seat leave: it makes no more calls.
#[unsafe(no_mangle)]
pub extern "C" fn seryugo_leave(room: &mut Handle, seat: u64) -> u32
    ensures { OnAnyMessages (λ M sure. OnRoom (Leaves seat result)) ⊤ result room.old.owned room.new.owned }
{
    on_any_messages!(room, Room(room) => leave(&mut room.room, seat))
}

fn leave<M: Message>(room: &mut RoomOf<M>, seat: u64) -> u32
    ensures { Leaves seat result room.old room.new }
{
    code_of(room.leave(seat))
}

/// Withdraws a parked seat's call. Fails with `Gone` if the seat isn't parked.
#[unsafe(no_mangle)]
pub extern "C" fn seryugo_withdraw(room: &mut Handle, seat: u64) -> u32
    ensures { OnAnyMessages (λ M sure. OnRoom (Withdraws seat result)) ⊤ result room.old.owned room.new.owned }
{
    on_any_messages!(room, Room(room) => withdraw(&mut room.room, seat))
}

fn withdraw<M: Message>(room: &mut RoomOf<M>, seat: u64) -> u32
    ensures { Withdraws seat result room.old room.new }
{
    code_of(room.withdraw(seat))
}

/// The code of a call that is done or refused.
pub(crate) fn code_of<T: Drop>(outcome: Result<T, Refusal>) -> u32
    ensures { result ≡ number (told_outcome outcome) }
{
    match outcome {
        Ok(_) => Code::Done.number(),
        Err(refusal) => Code::of_refusal(refusal).number(),
    }
}
