//! The journal: memory that is reserved for it, its cuts, and what is taken out of it.
ghost use Rattle.std.specs.Prelude.{◌≡◌, slice_get, ⊤};
ghost use Rattle.cml_room.specs.{KeepsSeats};
ghost use Rattle.cml_c.specs.{Does, OnAnyMessages, OnAnyOwned, OnRoom, ReservesSome, CutsBy, CutsOpen, CutsReserved, TakesJournal};
ghost use Rattle.cml_c.specs.{TakesJournalOpen, TakesBy, TakesOn, takings};

use crate::code::Code;
use crate::handle::{Handle, Slot};
use crate::owned::{Owned, Payload, Resource, RoomOf, for_both, on_any_messages};
use crate::room_compacting::compact_in;
use crate::rooms::code_of;
use cml_board::Message;
use std::alloc::Global;

/// Reserves memory for `entries` more entries.
#[unsafe(no_mangle)]
pub extern "C" fn seryugo_reserve(room: &mut Handle, entries: usize) -> u32
    ensures { OnAnyMessages (λ M sure. OnRoom (Does (ReservesSome entries) KeepsSeats result)) ⊤ result room.old.owned room.new.owned }
{
    on_any_messages!(room, Room(room) => reserve(&mut room.room, entries))
}

fn reserve<M: Message>(room: &mut RoomOf<M>, entries: usize) -> u32
    ensures { Does (ReservesSome entries) KeepsSeats result room.old room.new }
{
    code_of(room.reserve(entries))
}

/// Cuts the journal: drops its entries, so that it takes as many again. Keeps the reserved memory. If `is_open`, lanes and feeds may be
/// open, and it is never refused.
#[unsafe(no_mangle)]
pub extern "C" fn seryugo_cut_by(room: &mut Handle, is_open: bool) -> u32
    ensures { OnAnyMessages (λ M sure. OnRoom (CutsBy is_open result)) ⊤ result room.old.owned room.new.owned }
{
    on_any_messages!(room, Room(room) => cut_by(&mut room.room, is_open))
}

fn cut_by<M: Message>(room: &mut RoomOf<M>, is_open: bool) -> u32
    ensures { CutsBy is_open result room.old room.new }
{
    match is_open {
        true => cut_open(room),
        false => cut(room),
    }
}

fn cut<M: Message>(room: &mut RoomOf<M>) -> u32
    ensures { Does CutsReserved KeepsSeats result room.old room.new }
{
    code_of(room.cut())
}

fn cut_open<M: Message>(room: &mut RoomOf<M>) -> u32
    ensures { CutsOpen result room.old room.new }
{
    room.cut_open();
    Code::Done.number()
}

/// What is done to a room's journal as it is handed out.
#[derive(Clone, Copy)]
pub enum Taking {
    /// The entries are taken out of the room's journal, which is cut.
    Cut,
    /// They are taken while lanes and feeds are open.
    CutOpen,
    /// A short journal is made, and the room stays as it was.
    Short,
    /// A short journal is made, and the room's journal is cut while lanes and feeds are open.
    ShortAndCut,
}

impl Taking {
    /// The taking that has this number in the header.
    fn of(number: u32) -> Option<Taking>
        ensures { result ≡ slice_get takings number }
    {
        match number {
            0 => Some(Taking::Cut),
            1 => Some(Taking::CutOpen),
            2 => Some(Taking::Short),
            3 => Some(Taking::ShortAndCut),
            _ => None,
        }
    }
}

/// Writes a handle to a journal of the room, and how many entries it has: to those since the last cut, whose memory goes with them, or to
/// a short journal that leaves what all calls of the room leave. `OutOfBounds`: no taking has the number.
#[unsafe(no_mangle)]
pub extern "C" fn seryugo_take_by(
    alloc: Global,
    room: &mut Handle,
    taking: u32,
    journal: &mut Slot,
    count: &mut u64,
) -> u32
    ensures { TakesOn (slice_get takings taking) journal.old journal.new count.old count.new result room.old.owned room.new.owned }
{
    take(alloc, room, Taking::of(taking), journal, count)
}

fn take(
    alloc: Global,
    room: &mut Handle,
    taking: Option<Taking>,
    journal: &mut Slot,
    count: &mut u64,
) -> u32
    ensures { TakesOn taking journal.old journal.new count.old count.new result room.old.owned room.new.owned }
{
    match taking {
        Some(taking) => take_by(alloc, room, taking, journal, count),
        None => Code::OutOfBounds.number(),
    }
}

fn take_by(
    alloc: Global,
    room: &mut Handle,
    taking: Taking,
    journal: &mut Slot,
    count: &mut u64,
) -> u32
    ensures { OnAnyOwned (λ M sure wrap. OnRoom (TakesBy taking wrap journal.old journal.new result count.old count.new))
        ((count.new ≡ count.old) × (journal.new ≡ journal.old)) result room.old.owned room.new.owned }
{
    for_both!(room.as_mut(), resource => take_from(alloc, resource, taking, journal, count))
}

fn take_from<M: Payload>(
    alloc: Global,
    resource: &mut Resource<M>,
    taking: Taking,
    journal: &mut Slot,
    count: &mut u64,
) -> u32
    ensures { OnRoom (TakesBy taking M.OWNED journal.old journal.new result count.old count.new)
        ((count.new ≡ count.old) × (journal.new ≡ journal.old)) result resource.old resource.new }
{
    match resource {
        Resource::Room(room) => take_of(alloc, &mut room.room, taking, journal, count),
        _ => Code::WrongHandle.number(),
    }
}

fn take_of<M: Payload>(
    alloc: Global,
    room: &mut RoomOf<M>,
    taking: Taking,
    journal: &mut Slot,
    count: &mut u64,
) -> u32
    ensures { TakesBy taking M.OWNED journal.old journal.new result count.old count.new room.old room.new }
{
    match taking {
        Taking::Cut => take_in(alloc, room, journal, count),
        Taking::CutOpen => take_open_in(alloc, room, journal, count),
        Taking::Short => compact_in(alloc, room, false, journal, count),
        Taking::ShortAndCut => compact_in(alloc, room, true, journal, count),
    }
}

fn take_in<M: Payload>(
    alloc: Global,
    room: &mut RoomOf<M>,
    journal: &mut Slot,
    count: &mut u64,
) -> u32
    ensures { TakesJournal M.OWNED journal.old journal.new result count.old count.new room.old room.new }
{
    // The handle's memory is taken first, so that no entries are taken without one.
    let Ok(mut handle) = Handle::new(alloc, Owned::Numbers(Resource::Spent)) else {
        return Code::NoMemory.number();
    };
    match room.take_journal() {
        Ok(entries) => {
            *count = entries.len() as u64;
            handle.set(M::own_journal(entries));
            *journal = handle.into_slot();
            Code::Done.number()
        }
        Err(refusal) => Code::of_refusal(refusal).number(),
    }
}

fn take_open_in<M: Payload>(
    alloc: Global,
    room: &mut RoomOf<M>,
    journal: &mut Slot,
    count: &mut u64,
) -> u32
    ensures { TakesJournalOpen M.OWNED journal.old journal.new result count.old count.new room.old room.new }
{
    // As in `take_in`: no entries are taken without a handle.
    let Ok(mut handle) = Handle::new(alloc, Owned::Numbers(Resource::Spent)) else {
        return Code::NoMemory.number();
    };
    let entries = room.take_journal_open();
    *count = entries.len() as u64;
    handle.set(M::own_journal(entries));
    *journal = handle.into_slot();
    Code::Done.number()
}
