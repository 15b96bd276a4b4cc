//! Which of the waiting seats are due.
ghost use Rattle.std.specs.Prelude.{◌≡◌, ⊤};
ghost use Rattle.cml_c.specs.{GivesNext, TellsDue, OnAnyMessages, OnRoom};

use crate::code::Code;
use crate::handle::Handle;
use crate::owned::{RoomOf, on_any_messages};
use crate::telling::write_number;
use cml_board::Message;

/// Writes the next seat that is due and was not given since it last asked. Wake its thread, and let it ask again. Returns
/// `Nothing` if each seat that is due was given.
#[unsafe(no_mangle)]
pub extern "C" fn seryugo_next_due(room: &mut Handle, seat: &mut u64) -> u32
    ensures { OnAnyMessages (λ M sure. OnRoom (GivesNext result seat.old seat.new)) (seat.new ≡ seat.old) result room.old.owned room.new.owned }
{
    on_any_messages!(room, Room(room) => give_next(&mut room.room, seat))
}

fn give_next<M: Message>(room: &mut RoomOf<M>, seat: &mut u64) -> u32
    ensures { GivesNext result seat.old seat.new room.old room.new }
{
    match room.next_due() {
        Some(number) => write_number(number, seat),
        None => Code::Nothing.number(),
    }
}

/// Returns `Done` if a seat is due, and else `Nothing`.
#[unsafe(no_mangle)]
pub extern "C" fn seryugo_is_due(room: &mut Handle, seat: u64) -> u32
    ensures { OnAnyMessages (λ M sure. OnRoom (TellsDue seat result)) ⊤ result room.old.owned room.new.owned }
{
    on_any_messages!(room, Room(room) => tell_due(&mut room.room, seat))
}

fn tell_due<M: Message>(room: &mut RoomOf<M>, seat: u64) -> u32
    ensures { TellsDue seat result room.old room.new }
{
    if room.is_due(seat) {
        return Code::Done.number();
    }
    Code::Nothing.number()
}
