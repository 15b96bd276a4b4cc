//! Entries of a journal whose messages are bytes.
ghost use Rattle.std.specs.Prelude.{◌≡◌, IfOk, option_copied, slice_get};
ghost use Rattle.cml_board.specs.{message_of};
ghost use Rattle.cml_c.specs.{call_kind, call_object, count_of, reply_kind, reply_name, reply_message, IsShown, FindsBytes, FindsBytesIn};
ghost use Rattle.cml_c.specs.{FindsBytesAt, entry_sources, OnBytes, OnRoom, OnJournal};

use crate::code::Code;
use crate::entries::{
    EntrySource, SeryugoMaker, entry_at, entry_of_place, kind_and_object, maker_of, reply_parts,
};
use crate::handle::{Handle, Slot};
use crate::messages::place_of;
use crate::owned::{Owned, Resource, RoomOf, with_kind};
use cml_board::{Bytes, Call, Entry, Message, Reply};
use std::alloc::{AllocError, Global};
use std::ptr;

/// Where a message's bytes are, and how many they are. Both are 0 if there is no message.
#[repr(C)]
#[derive(Drop)]
pub struct SeryugoPlace {
    pub at: *const u8,
    pub length: usize,
}

/// A call: which one it is, its object's number or 0, and its message.
#[repr(C)]
#[derive(Drop)]
pub struct SeryugoBytesCall {
    pub kind: u32,
    pub object: u64,
    pub message: SeryugoPlace,
}

/// A reply: which one it is, the name that it gives or 0, and its message.
#[repr(C)]
#[derive(Drop)]
pub struct SeryugoBytesReply {
    pub kind: u32,
    pub name: u64,
    pub message: SeryugoPlace,
}

/// One accepted call in the journal. Its messages stay where they are until C closes the owner.
#[repr(C)]
#[derive(Drop)]
pub struct SeryugoBytesEntry {
    pub maker: SeryugoMaker,
    pub call: SeryugoBytesCall,
    pub reply: SeryugoBytesReply,
    pub owner: Slot,
}

/// Hands over the entry at this position of a room's journal, or at this place of a taken one. Fails as `seryugo_entry_at` does.
#[unsafe(no_mangle)]
pub extern "C" fn seryugo_bytes_entry_at(
    alloc: Global,
    handle: &mut Handle,
    source: u32,
    at: u64,
    entry: &mut SeryugoBytesEntry,
) -> u32
    ensures { FindsBytesAt (slice_get entry_sources source) at entry.old entry.new result handle.old.owned handle.new.owned }
{
    find(alloc, handle, EntrySource::of(source), at, entry)
}

fn find(
    alloc: Global,
    handle: &mut Handle,
    source: Option<EntrySource>,
    at: u64,
    entry: &mut SeryugoBytesEntry,
) -> u32
    ensures { FindsBytesAt source at entry.old entry.new result handle.old.owned handle.new.owned }
{
    match source {
        Some(EntrySource::Room) => find_in_room(alloc, handle, at, entry),
        Some(EntrySource::Journal) => find_taken(alloc, handle, at, entry),
        None => Code::OutOfBounds.number(),
    }
}

fn find_in_room(alloc: Global, room: &mut Handle, at: u64, entry: &mut SeryugoBytesEntry) -> u32
    ensures { OnBytes (OnRoom (FindsBytesIn at result entry.old entry.new)) (entry.new ≡ entry.old) result room.old.owned room.new.owned }
{
    with_kind!(room, Bytes(Room(room)) => find_in(alloc, &mut room.room, at, entry))
}

fn find_taken(alloc: Global, journal: &mut Handle, place: u64, entry: &mut SeryugoBytesEntry) -> u32
    ensures { OnBytes (OnJournal (λ entries. FindsBytes (slice_get entries place) result entry.old entry.new))
        (entry.new ≡ entry.old) result journal.old.owned journal.new.owned }
{
    with_kind!(journal, Bytes(Journal(journal)) => hand_over_found(alloc, entry_of_place(journal, place), entry))
}

fn find_in(alloc: Global, room: &mut RoomOf<Bytes>, at: u64, entry: &mut SeryugoBytesEntry) -> u32
    ensures { FindsBytesIn at result entry.old entry.new room.old room.new }
{
    hand_over_found(alloc, entry_at(room, at), entry)
}

/// Hands over an entry that was found.
fn hand_over_found(
    alloc: Global,
    found: Option<&Entry<Bytes>>,
    entry: &mut SeryugoBytesEntry,
) -> u32
    ensures { FindsBytes (option_copied found.entry) result entry.old entry.new }
{
    let Some(found) = found else {
        return Code::NoSuch.number();
    };
    match shown(alloc, found) {
        Ok(shown) => {
            *entry = shown;
            Code::Done.number()
        }
        Err(_) => Code::NoMemory.number(),
    }
}

/// An entry as C is shown it, with a share of each message.
fn shown(alloc: Global, entry: &Entry<Bytes>) -> Result<SeryugoBytesEntry, AllocError>
    ensures { IfOk result (λ shown. IsShown entry.now shown) }
{
    let shared = Entry {
        who: entry.who,
        call: entry.call.share(alloc)?,
        reply: share_reply(alloc, &entry.reply)?,
    };
    let shared = Owned::Bytes(Resource::Entry(Box::new(alloc, shared)?));
    let mut owner = Handle::new(alloc, shared)?;
    let (call, reply) = match owner.as_mut() {
        Owned::Bytes(Resource::Entry(kept)) => (shown_call(&kept.call), shown_reply(&kept.reply)),
        _ => unreachable!(),
    };
    Ok(SeryugoBytesEntry {
        maker: maker_of(entry.who),
        call,
        reply,
        owner: owner.into_slot(),
    })
}

fn share_reply<M: Message>(alloc: Global, reply: &Reply<M>) -> Result<Reply<M>, AllocError>
    ensures { IfOk result (λ copy. copy ≡ reply.now) }
{
    Ok(match reply {
        Reply::Done => Reply::Done,
        Reply::Made(name) => Reply::Made(*name),
        Reply::Got(message) => Reply::Got(message.share(alloc)?),
        Reply::Nothing => Reply::Nothing,
        Reply::Put => Reply::Put,
        Reply::Closed => Reply::Closed,
    })
}

fn shown_call(call: &Call<Bytes>) -> SeryugoBytesCall
    ensures kind { result.kind ≡ call_kind call.now }
    ensures object { result.object ≡ call_object call.now }
    ensures message { result.message.length ≡ count_of (message_of call.now) }
{
    let (kind, object) = kind_and_object(call);
    SeryugoBytesCall {
        kind,
        object,
        message: place_of_message(call.message()),
    }
}

fn shown_reply(reply: &Reply<Bytes>) -> SeryugoBytesReply
    ensures kind { result.kind ≡ reply_kind reply.now }
    ensures name { result.name ≡ reply_name reply.now }
    ensures message { result.message.length ≡ count_of (reply_message reply.now) }
{
    let (kind, name, message) = reply_parts(reply);
    SeryugoBytesReply {
        kind,
        name,
        message: place_of_message(message),
    }
}

fn place_of_message(message: Option<&Bytes>) -> SeryugoPlace
    ensures { result.length ≡ count_of (option_copied message.entry) }
{
    let (at, length) = match message {
        Some(message) => place_of(message.as_slice()),
        None => (ptr::null(), 0),
    };
    SeryugoPlace { at, length }
}
