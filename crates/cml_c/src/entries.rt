//! Entries of the journal.
ghost use Rattle.std.specs.Prelude.{◌≡◌, slice_get, option_copied};
ghost use Rattle.cml_c.specs.{flat, maker_of, call_of, call_kind, call_object, reply_of, reply_kind, reply_name, reply_message, Finds};
ghost use Rattle.cml_c.specs.{IsAt, FindsIn, FindsAt, entry_sources, OnNumbers, OnRoom, OnJournal};

use crate::code::Code;
use crate::handle::Handle;
use crate::owned::{RoomOf, with_kind};
use cml_board::{Call, Entry, Message, Reply, Who};

/// Who made a call: a seat (0), a lane (1) or a feed (2), by its number.
#[repr(C)]
#[derive(Clone, Copy)]
pub struct SeryugoMaker {
    pub kind: u32,
    pub number: u64,
}

/// A call: which one it is, and its object and message, each 0 if the call has none.
#[repr(C)]
#[derive(Clone, Copy)]
pub struct SeryugoCall {
    pub kind: u32,
    pub object: u64,
    pub message: u64,
}

/// A reply: which one it is, and the name or the message that it gives, else 0.
#[repr(C)]
#[derive(Clone, Copy)]
pub struct SeryugoReply {
    pub kind: u32,
    pub given: u64,
}

/// One accepted call in the journal.
#[repr(C)]
#[derive(Clone, Copy)]
pub struct SeryugoEntry {
    pub maker: SeryugoMaker,
    pub call: SeryugoCall,
    pub reply: SeryugoReply,
}

/// Where an entry is looked for.
#[derive(Clone, Copy)]
pub enum EntrySource {
    /// In a room's journal, by its position, counted from 0 since the room was opened.
    Room,
    /// In a journal that was taken, by its place, from 0.
    Journal,
}

impl EntrySource {
    /// The source that has this number in the header.
    pub(crate) fn of(number: u32) -> Option<EntrySource>
        ensures { result ≡ slice_get entry_sources number }
    {
        match number {
            0 => Some(EntrySource::Room),
            1 => Some(EntrySource::Journal),
            _ => None,
        }
    }
}

/// Writes the entry at this position of a room's journal, or at this place of a taken one. Fails with `NoSuch` if there is none, or if it
/// was cut away, and with `OutOfBounds` if no source has the number.
#[unsafe(no_mangle)]
pub extern "C" fn seryugo_entry_at(
    handle: &mut Handle,
    source: u32,
    at: u64,
    entry: &mut SeryugoEntry,
) -> u32
    ensures { FindsAt (slice_get entry_sources source) at entry.old entry.new result handle.old.owned handle.new.owned }
{
    find(handle, EntrySource::of(source), at, entry)
}

fn find(handle: &mut Handle, source: Option<EntrySource>, at: u64, entry: &mut SeryugoEntry) -> u32
    ensures { FindsAt source at entry.old entry.new result handle.old.owned handle.new.owned }
{
    match source {
        Some(EntrySource::Room) => find_in_room(handle, at, entry),
        Some(EntrySource::Journal) => find_taken(handle, at, entry),
        None => Code::OutOfBounds.number(),
    }
}

fn find_in_room(room: &mut Handle, at: u64, entry: &mut SeryugoEntry) -> u32
    ensures { OnNumbers (OnRoom (FindsIn at result entry.old entry.new)) (entry.new ≡ entry.old) result room.old.owned room.new.owned }
{
    with_kind!(room, Numbers(Room(room)) => find_in(&mut room.room, at, entry))
}

fn find_taken(journal: &mut Handle, place: u64, entry: &mut SeryugoEntry) -> u32
    ensures { OnNumbers (OnJournal (λ entries. Finds (slice_get entries place) result entry.old entry.new))
        (entry.new ≡ entry.old) result journal.old.owned journal.new.owned }
{
    with_kind!(journal, Numbers(Journal(journal)) => write_found(entry_of_place(journal, place), entry))
}

fn find_in(room: &mut RoomOf<u64>, at: u64, entry: &mut SeryugoEntry) -> u32
    ensures { FindsIn at result entry.old entry.new room.old room.new }
{
    write_found(entry_at(room, at), entry)
}

/// The journal's entry at this position, if there is one yet, and it was not cut away.
pub(crate) fn entry_at<M: Message>(room: &RoomOf<M>, at: u64) -> Option<&Entry<M>>
    ensures { IsAt at room.now (option_copied result) }
{
    let board = room.board();
    let Some(place) = at.checked_sub(board.cut_at()) else {
        return None;
    };
    entry_of_place(board.journal(), place)
}

/// The entry of this place, if there is one.
pub(crate) fn entry_of_place<M>(journal: &[Entry<M>], place: u64) -> Option<&Entry<M>>
    ensures { option_copied result ≡ slice_get journal.now place }
{
    journal.get(place as usize)
}

/// Writes an entry that was found.
fn write_found(found: Option<&Entry<u64>>, entry: &mut SeryugoEntry) -> u32
    ensures { Finds (option_copied found.entry) result entry.old entry.new }
{
    match found {
        Some(found) => {
            *entry = flat(found);
            Code::Done.number()
        }
        None => Code::NoSuch.number(),
    }
}

fn flat(entry: &Entry<u64>) -> SeryugoEntry
    ensures { result ≡ flat entry.now }
{
    SeryugoEntry {
        maker: maker_of(entry.who),
        call: call_of(&entry.call),
        reply: reply_of(&entry.reply),
    }
}

/// Who made a call, as C is shown it.
pub(crate) fn maker_of(who: Who) -> SeryugoMaker
    ensures { result ≡ maker_of who }
{
    let (kind, number) = match who {
        Who::Seat(number) => (0, number),
        Who::Lane(number) => (1, number),
        Who::Feed(number) => (2, number),
    };
    SeryugoMaker { kind, number }
}

fn call_of(call: &Call<u64>) -> SeryugoCall
    ensures { result ≡ call_of call.now }
{
    let (kind, object) = kind_and_object(call);
    SeryugoCall {
        kind,
        object,
        message: *call.message().unwrap_or(&0),
    }
}

/// Which call it is, and its object's number or 0.
pub(crate) fn kind_and_object<M>(call: &Call<M>) -> (u32, u64)
    ensures kind { result.0 ≡ call_kind call.now }
    ensures object { result.1 ≡ call_object call.now }
{
    let object = match call.object() {
        Some(name) => name.0,
        None => 0,
    };
    (call.shape().number, object)
}

fn reply_of(reply: &Reply<u64>) -> SeryugoReply
    ensures { result ≡ reply_of reply.now }
{
    let (kind, name, message) = reply_parts(reply);
    SeryugoReply {
        kind,
        given: *message.unwrap_or(&name),
    }
}

/// Which reply it is, the name that it gives or 0, and its message if it has one.
pub(crate) fn reply_parts<M>(reply: &Reply<M>) -> (u32, u64, Option<&M>)
    ensures kind { result.0 ≡ reply_kind reply.now }
    ensures name { result.1 ≡ reply_name reply.now }
    ensures message { option_copied result.2 ≡ reply_message reply.now }
{
    match reply {
        Reply::Done => (0, 0, None),
        Reply::Made(name) => (1, name.0, None),
        Reply::Got(message) => (2, 0, Some(message)),
        Reply::Nothing => (3, 0, None),
        Reply::Put => (4, 0, None),
        Reply::Closed => (5, 0, None),
    }
}
