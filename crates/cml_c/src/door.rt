//! One door to a room: C asks for any call of the table by data. Sends and receives have exports of their own beside it.
ghost use Rattle.std.specs.Prelude.{◌≡◌};
ghost use Rattle.cml_c.specs.{MakesAsked, MakesNumberAsked};

use crate::asking::{ask, tell};
use crate::checked_entries::call_of;
use crate::code::Code;
use crate::door_bytes::make_bytes;
use crate::handle::Handle;
use crate::messages::SeryugoBytes;
use crate::owned::{Owned, Resource, RoomOf};
use cml_board::Name;
use std::alloc::Global;

/// A seat's call: its number in the table, whether the parked seat makes it again, the seat, the object, and the message that it
/// sends, a number or bytes. What its kind doesn't have is not read. It is wrong in a room whose messages it doesn't take.
#[repr(C)]
#[derive(Clone, Copy)]
pub struct SeryugoAsked<'a> {
    pub kind: u32,
    pub is_again: bool,
    pub takes_numbers: bool,
    pub takes_bytes: bool,
    pub seat: u64,
    pub object: u64,
    pub number: u64,
    pub sent: &'a [u8],
}

/// Makes a seat's call. Writes the name or the number that it gives, or hands over its message of bytes.
#[unsafe(no_mangle)]
pub extern "C" fn seryugo_call_from(
    alloc: Global,
    room: &mut Handle,
    asked: &SeryugoAsked,
    given: &mut u64,
    message: &mut SeryugoBytes,
) -> u32
    ensures { MakesAsked asked.now given.old given.new message.old message.new result room.old.owned room.new.owned }
{
    match room.as_mut() {
        Owned::Numbers(Resource::Room(room)) => make_number(&mut room.room, asked, given),
        Owned::Bytes(Resource::Room(room)) => make_bytes(alloc, room, asked, given, message),
        _ => Code::WrongHandle.number(),
    }
}

/// Makes the call in a room of numbers.
fn make_number(room: &mut RoomOf<u64>, asked: &SeryugoAsked, given: &mut u64) -> u32
    ensures { MakesNumberAsked asked.now given.old given.new result room.old room.new }
{
    if !asked.takes_numbers {
        return Code::WrongHandle.number();
    }
    match call_of(asked.kind, Name(asked.object), asked.number) {
        Some(call) => tell(ask(room, asked.seat, asked.is_again, call), given),
        None => Code::OutOfBounds.number(),
    }
}
