//! Feeds, on which a thread receives without the room's lock.
ghost use Rattle.std.specs.Prelude.{◌≡◌, ⊤};
ghost use Rattle.cml_lanes.specs.{Pumps};
ghost use Rattle.cml_room.specs.{Stirs, MakesNoneDue};
ghost use Rattle.cml_c.specs.{chunk, Counts, OnAnyMessages, OnAnyOwned, OnNumbers, OnBytes, OnRoom, OnFeed, OpensFeed, TakesNumber};
ghost use Rattle.cml_c.specs.{TakesBytes, TellsPort, EndsFeed};

use crate::code::Code;
use crate::handle::{Handle, Slot};
use crate::lanes::tell_count;
use crate::messages::{SeryugoBytes, hand_over, new_block};
use crate::owned::{Owned, Payload, Resource, RoomOf, for_both, on_any_messages, with_kind};
use crate::rooms::code_of;
use crate::telling::write_number;
use cml_board::{Bytes, Message, Name};
use cml_lanes::{Feed, MAX_CAPACITY};
use std::alloc::Global;

/// Opens a feed of what is multicast on a channel from now on, with room for `capacity` messages, and writes a handle to it
/// and its number.
#[unsafe(no_mangle)]
pub extern "C" fn seryugo_feed_open(
    alloc: Global,
    room: &mut Handle,
    channel: u64,
    capacity: usize,
    feed: &mut Slot,
    feed_number: &mut u64,
) -> u32
    ensures { OnAnyOwned (λ M sure wrap.
        OnRoom (OpensFeed wrap sure (record { 0 = channel }) capacity feed.old feed.new result feed_number.old feed_number.new))
        ((feed_number.new ≡ feed_number.old) × (feed.new ≡ feed.old)) result room.old.owned room.new.owned }
{
    for_both!(room.as_mut(), resource => open(alloc, resource, Name(channel), capacity, feed, feed_number))
}

fn open<M: Payload>(
    alloc: Global,
    resource: &mut Resource<M>,
    channel: Name,
    capacity: usize,
    feed: &mut Slot,
    feed_number: &mut u64,
) -> u32
    ensures { OnRoom (OpensFeed M.OWNED M.SURE channel capacity feed.old feed.new result feed_number.old feed_number.new)
        ((feed_number.new ≡ feed_number.old) × (feed.new ≡ feed.old)) result resource.old resource.new }
{
    match resource {
        Resource::Room(room) => open_in(
            alloc,
            &mut room.room,
            channel,
            capacity,
            feed,
            feed_number,
        ),
        _ => Code::WrongHandle.number(),
    }
}

fn open_in<M: Payload>(
    alloc: Global,
    room: &mut RoomOf<M>,
    channel: Name,
    capacity: usize,
    feed: &mut Slot,
    feed_number: &mut u64,
) -> u32
    ensures { OpensFeed M.OWNED M.SURE channel capacity feed.old feed.new result feed_number.old feed_number.new room.old room.new }
{
    if capacity < 1 || capacity > MAX_CAPACITY {
        return Code::OutOfBounds.number();
    }
    // The handle's memory is taken first, so that no feed is open without one.
    let Ok(mut handle) = Handle::new(alloc, Owned::Numbers(Resource::Spent)) else {
        return Code::NoMemory.number();
    };
    match room.open_feed(channel, capacity) {
        Ok((opened, number)) => {
            handle.set(M::own_feed(opened));
            *feed = handle.into_slot();
            *feed_number = number;
            Code::Done.number()
        }
        Err(refusal) => Code::of_refusal(refusal).number(),
    }
}

/// Receives what an open feed is owed into its ring, while that has a free slot, and writes how many messages.
#[unsafe(no_mangle)]
pub extern "C" fn seryugo_feed_pump(room: &mut Handle, feed_number: u64, count: &mut u64) -> u32
    ensures { OnAnyMessages (λ M sure. OnRoom (Counts (Pumps chunk sure feed_number) (Stirs MakesNoneDue) result count.old count.new))
        (count.new ≡ count.old) result room.old.owned room.new.owned }
{
    on_any_messages!(room, Room(room) => pump(&mut room.room, feed_number, count))
}

fn pump<M: Message>(room: &mut RoomOf<M>, feed_number: u64, count: &mut u64) -> u32
    ensures { Counts (Pumps chunk M.SURE feed_number) (Stirs MakesNoneDue) result count.old count.new room.old room.new }
{
    tell_count(room.pump(feed_number), count)
}

/// Takes the next number that was pumped, without a lock. Returns `Nothing` if none is seen.
#[unsafe(no_mangle)]
pub extern "C" fn seryugo_feed_recv(feed: &mut Handle, message: &mut u64) -> u32
    ensures { OnNumbers (OnFeed (TakesNumber result message.old message.new))
        (message.new ≡ message.old) result feed.old.owned feed.new.owned }
{
    with_kind!(feed, Numbers(Feed(feed)) => match feed.recv() {
        Some(taken) => write_number(taken, message),
        None => Code::Nothing.number(),
    })
}

/// Takes the next message of bytes that was pumped, without a lock, and hands it over.
#[unsafe(no_mangle)]
pub extern "C" fn seryugo_bytes_feed_recv(
    alloc: Global,
    feed: &mut Handle,
    message: &mut SeryugoBytes,
) -> u32
    ensures { OnBytes (OnFeed (TakesBytes result message.old message.new)) (message.new ≡ message.old) result feed.old.owned feed.new.owned }
{
    with_kind!(feed, Bytes(Feed(feed)) => take_bytes(alloc, feed, message))
}

fn take_bytes(alloc: Global, feed: &mut Feed<Bytes>, message: &mut SeryugoBytes) -> u32
    ensures { TakesBytes result message.old message.new feed.old feed.new }
{
    // The memory that keeps a long message is taken first, so that none is taken without it.
    let Ok(block) = new_block(alloc) else {
        return Code::NoMemory.number();
    };
    match feed.recv() {
        Some(taken) => {
            hand_over(&mut Some(block), taken, message);
            Code::Done.number()
        }
        None => Code::Nothing.number(),
    }
}

/// Writes the name of a feed's port.
#[unsafe(no_mangle)]
pub extern "C" fn seryugo_feed_port(feed: &mut Handle, port: &mut u64) -> u32
    ensures { OnAnyMessages (λ M sure. OnFeed (TellsPort result port.new)) (port.new ≡ port.old) result feed.old.owned feed.new.owned }
{
    on_any_messages!(feed, Feed(feed) => write_number(feed.port().0, port))
}

/// Ends an open feed for good: nothing more is pumped into it. What is left in it can still be taken.
#[unsafe(no_mangle)]
pub extern "C" fn seryugo_feed_end(room: &mut Handle, feed_number: u64) -> u32
    ensures { OnAnyMessages (λ M sure. OnRoom (EndsFeed feed_number result)) ⊤ result room.old.owned room.new.owned }
{
    on_any_messages!(room, Room(room) => end(&mut room.room, feed_number))
}

fn end<M: Message>(room: &mut RoomOf<M>, feed_number: u64) -> u32
    ensures { EndsFeed feed_number result room.old room.new }
{
    code_of(room.end_feed(feed_number))
}
