//! Sends and receives. Most calls are these, and here they take fewer instructions than by the door.
ghost use Rattle.std.specs.Prelude.{◌≡◌, [], false, ⊤};
ghost use Rattle.cml_board.specs.declared.call.Call.TheVariants.{Send, Recv};
ghost use Rattle.cml_c.specs.{Calls, CallsPlain, CallsBytes, CallsNameless, GivesBytes, MakesBytes, SendsBytes};

use crate::asking::{ask, code_of_response, make_call};
use crate::blocks::may_make;
use crate::bytes_asking::make_in_room;
use crate::code::Code;
use crate::handle::Handle;
use crate::messages::{SeryugoBytes, copied};
use crate::owned::{RoomOf, RoomWithSpare, with_kind};
use cml_board::{Bytes, Call, Name};
use std::alloc::Global;

/// Sends a message to a mailbox.
#[unsafe(no_mangle)]
pub extern "C" fn seryugo_send(room: &mut Handle, seat: u64, mailbox: u64, message: u64) -> u32
    ensures { CallsPlain seat (Send (record { 0 = mailbox }) message) room.old.owned room.new.owned result }
{
    let mut given = 0;
    make_call(
        room,
        seat,
        false,
        Call::Send(Name(mailbox), message),
        &mut given,
    )
}

/// Receives the next message of a mailbox or a port, and writes it. If there is none, the seat is parked: then make the call
/// again, with `is_again`.
#[unsafe(no_mangle)]
pub extern "C" fn seryugo_recv(
    room: &mut Handle,
    seat: u64,
    source: u64,
    is_again: bool,
    message: &mut u64,
) -> u32
    ensures { Calls is_again seat (Recv (record { 0 = source })) room.old.owned room.new.owned result message.old message.new }
{
    make_call(room, seat, is_again, Call::Recv(Name(source)), message)
}

/// Copies a message, and sends it to a mailbox.
#[unsafe(no_mangle)]
pub extern "C" fn seryugo_bytes_send_from(
    alloc: Global,
    room: &mut Handle,
    seat: u64,
    mailbox: u64,
    message: &[u8],
) -> u32
    ensures { SendsBytes seat message.now (Send (record { 0 = mailbox }) message.now) room.old.owned room.new.owned result }
{
    with_kind!(room, Bytes(Room(room)) => send(alloc, &mut room.room, seat, Name(mailbox), message))
}

#[inline(always)]
fn send(alloc: Global, room: &mut RoomOf<Bytes>, seat: u64, mailbox: Name, message: &[u8]) -> u32
    ensures { MakesBytes false seat message.now (Send mailbox message.now) result (λ becomes. ⊤) ⊤ room.old room.new }
{
    match copied(alloc, message) {
        Ok(bytes) => code_of_response(&room.call(seat, Call::Send(mailbox, bytes))).number(),
        Err(code) => {
            if may_make(room, seat, false, None) {
                return code.number();
            }
            Code::Gone.number()
        }
    }
}

/// Receives the next message of a mailbox or a port, and hands it over. If there is none, the seat is parked.
#[unsafe(no_mangle)]
pub extern "C" fn seryugo_bytes_recv(
    alloc: Global,
    room: &mut Handle,
    seat: u64,
    source: u64,
    is_again: bool,
    message: &mut SeryugoBytes,
) -> u32
    ensures { CallsNameless is_again seat (Recv (record { 0 = source })) room.old.owned room.new.owned result message.old message.new }
{
    let mut name = 0;
    receive(
        alloc,
        room,
        seat,
        is_again,
        Name(source),
        &mut name,
        message,
    )
}

#[inline(always)]
fn receive(
    alloc: Global,
    room: &mut Handle,
    seat: u64,
    is_again: bool,
    source: Name,
    name: &mut u64,
    message: &mut SeryugoBytes,
) -> u32
    ensures { CallsBytes is_again seat (Recv source) room.old.owned room.new.owned result name.old name.new message.old message.new }
{
    with_kind!(room, Bytes(Room(room)) => receive_in(alloc, room, seat, is_again, source, name, message))
}

#[inline(always)]
fn receive_in(
    alloc: Global,
    room: &mut RoomWithSpare<Bytes>,
    seat: u64,
    is_again: bool,
    source: Name,
    name: &mut u64,
    message: &mut SeryugoBytes,
) -> u32
    ensures { MakesBytes is_again seat [] (Recv source) result (GivesBytes name.old name.new message.old message.new)
        ((name.new ≡ name.old) × (message.new ≡ message.old)) room.old.room room.new.room }
{
    make_in_room(
        alloc,
        room,
        seat,
        is_again,
        Call::Recv(source),
        name,
        message,
    )
}
