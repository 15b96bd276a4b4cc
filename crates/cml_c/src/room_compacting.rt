//! The short journal of a room.
ghost use Rattle.std.specs.Prelude.{◌≡◌, ◌^◌, IfOk, IfErr, MatchResult};
ghost use Rattle.cml_compact.specs.{Stops, compact_size};
ghost use Rattle.cml_c.specs.{IsShortOf, LeavesShort, MakesShort};

use crate::code::Code;
use crate::handle::{Handle, Slot};
use crate::owned::{Owned, Payload, Resource, RoomOf};
use crate::rooms::MOST;
use cml_board::{Entry, Refusal};
use cml_compact::{last_seat, short_journal};
use std::alloc::Global;

/// Writes a handle to a short journal that leaves what all calls of the room leave, and how many entries it has. If `cuts`, the room's
/// journal is cut while lanes and feeds are open, and the reserved memory stays.
pub(crate) fn compact_in<M: Payload>(
    alloc: Global,
    room: &mut RoomOf<M>,
    cuts: bool,
    journal: &mut Slot,
    count: &mut u64,
) -> u32
    ensures { MakesShort cuts M.OWNED journal.old journal.new result count.old count.new room.old room.new }
{
    // Nothing is cut without a handle.
    let Ok(mut handle) = Handle::new(alloc, Owned::Numbers(Resource::Spent)) else {
        return Code::NoMemory.number();
    };
    match short_of(alloc, room, cuts) {
        Ok(entries) => {
            *count = entries.len() as u64;
            handle.set(M::own_journal(entries));
            *journal = handle.into_slot();
            Code::Done.number()
        }
        Err(refusal) => Code::of_refusal(refusal).number(),
    }
}

/// The room's short journal, by its last seat. If `cuts`, the room's journal is cut then.
fn short_of<M: Payload>(
    alloc: Global,
    room: &mut RoomOf<M>,
    cuts: bool,
) -> Result<Vec<Entry<M>>, Refusal>
    ensures short { IfOk result (λ entries. IsShortOf room.old entries.items) }
    ensures err { IfErr result (Stops (2 ^ 32) (compact_size room.old.board.history)) }
    ensures leaves { MatchResult result (λ _. LeavesShort cuts room.old room.new) (λ _. room.new ≡ room.old) }
{
    let entries = short_journal(alloc, room.board(), last_seat(room.seats() as u64), MOST)?;
    if cuts {
        room.cut_open();
    }
    Ok(entries)
}
