//! Calls that read a room without changing it.
ghost use Rattle.std.specs.Prelude.{◌≡◌, option_map, slice_get, ⊤};
ghost use Rattle.cml_c.specs.{OnAnyMessages, OnNumbers, OnBytes, OnRoom, number_of_kind, bare, one_if, found_in, readers, Reads, ReadsOn};
ghost use Rattle.cml_c.specs.{Holds, HoldsBytes, TellsFull};

use crate::code::Code;
use crate::handle::Handle;
use crate::messages::{SeryugoBytes, hand_over_held};
use crate::owned::{RoomOf, on_any_messages, with_kind};
use crate::telling::{tell_found, tell_full, tell_held};
use cml_board::{Kind, Message, Name};
use std::alloc::Global;

/// A number that is read off a room: of one of its objects, or of its journal.
#[derive(Clone, Copy)]
pub enum Reader {
    /// How many messages were sent to a mailbox, or multicast on a channel.
    Sent(Name),
    /// How many were received from a mailbox or a port.
    Got(Name),
    /// How many wait in a mailbox, or are owed to an open port.
    Owed(Name),
    /// How many messages of a mailbox or a channel are kept, and the place of the first of these.
    Kept(Name),
    First(Name),
    Kind(Name),
    /// A port's channel, and how many messages were multicast there before the first that the port receives.
    Channel(Name),
    Start(Name),
    /// 1 if a port is open, and else 0.
    IsOpen(Name),
    /// How many calls were accepted, how many entries of these were cut away, and how many the journal takes between two cuts.
    Entries,
    CutAt,
    Limit,
}

impl Reader {
    /// The reader that has this number in the header.
    fn of(what: u32, object: Name) -> Option<Reader>
        ensures { result ≡ slice_get (readers object) what }
    {
        Some(match what {
            0 => Reader::Sent(object),
            1 => Reader::Got(object),
            2 => Reader::Owed(object),
            3 => Reader::Kept(object),
            4 => Reader::First(object),
            5 => Reader::Kind(object),
            6 => Reader::Channel(object),
            7 => Reader::Start(object),
            8 => Reader::IsOpen(object),
            9 => Reader::Entries,
            10 => Reader::CutAt,
            11 => Reader::Limit,
            _ => return None,
        })
    }
}

/// Writes a number that is read off a room. Fails with `NoSuch` if no object of the name has such a number, and with `OutOfBounds`
/// if no reader has the number `what`.
#[unsafe(no_mangle)]
pub extern "C" fn seryugo_read(room: &mut Handle, what: u32, object: u64, number: &mut u64) -> u32
    ensures { ReadsOn (slice_get (readers (record { 0 = object })) what) room.old.owned room.new.owned result number.old number.new }
{
    read(room, Reader::of(what, Name(object)), number)
}

fn read(room: &mut Handle, reader: Option<Reader>, number: &mut u64) -> u32
    ensures { ReadsOn reader room.old.owned room.new.owned result number.old number.new }
{
    match reader {
        Some(reader) => read_by(room, reader, number),
        None => Code::OutOfBounds.number(),
    }
}

fn read_by(room: &mut Handle, reader: Reader, number: &mut u64) -> u32
    ensures { OnAnyMessages (λ M sure. OnRoom (Reads reader result number.old number.new))
        (number.new ≡ number.old) result room.old.owned room.new.owned }
{
    on_any_messages!(room, Room(room) => tell_found(found_in(&room.room, reader), number))
}

fn found_in<M: Message>(room: &RoomOf<M>, reader: Reader) -> Option<u64>
    ensures { result ≡ found_in reader room.now }
{
    let board = room.board();
    match reader {
        Reader::Sent(object) => board.sent_count(object),
        Reader::Got(object) => board.got_count(object),
        Reader::Owed(object) => board.owed_count(object),
        Reader::Kept(object) => board.kept_count(object),
        Reader::First(object) => board.first_of(object),
        Reader::Kind(object) => number_of(board.kind(object)),
        Reader::Channel(port) => bare(board.channel_of(port)),
        Reader::Start(port) => board.start_of(port),
        Reader::IsOpen(port) => one_if(board.is_open(port)),
        Reader::Entries => Some(board.entries()),
        Reader::CutAt => Some(board.cut_at()),
        Reader::Limit => Some(board.limit()),
    }
}

fn number_of(kind: Option<Kind>) -> Option<u64>
    ensures { result ≡ option_map number_of_kind kind }
{
    Some(match kind? {
        Kind::Mailbox => 0,
        Kind::Channel => 1,
        Kind::Port => 2,
        Kind::IVar => 3,
        Kind::MVar => 4,
    })
}

fn one_if(is_so: Option<bool>) -> Option<u64>
    ensures { result ≡ option_map one_if is_so }
{
    Some(match is_so? {
        true => 1,
        false => 0,
    })
}

fn bare(name: Option<Name>) -> Option<u64>
    ensures { result ≡ option_map bare name }
{
    Some(name?.0)
}

/// What a variable of a room of numbers holds. Returns `Nothing` if it is empty. Fails with `NoSuch` if no variable has the name.
#[unsafe(no_mangle)]
pub extern "C" fn seryugo_held(room: &mut Handle, variable: u64, message: &mut u64) -> u32
    ensures { OnNumbers (OnRoom (Holds variable result message.old message.new))
        (message.new ≡ message.old) result room.old.owned room.new.owned }
{
    with_kind!(room, Numbers(Room(room)) => tell_held(room.room.board().held(Name(variable)), message))
}

/// Hands over what a variable of a room of bytes holds. Fails with `NoSuch` if no variable has the name.
#[unsafe(no_mangle)]
pub extern "C" fn seryugo_bytes_held(
    alloc: Global,
    room: &mut Handle,
    variable: u64,
    message: &mut SeryugoBytes,
) -> u32
    ensures { OnBytes (OnRoom (HoldsBytes variable result message.old message.new))
        (message.new ≡ message.old) result room.old.owned room.new.owned }
{
    with_kind!(room, Bytes(Room(room)) => hand_over_held(alloc, room.room.board().held(Name(variable)), message))
}

/// Returns `Done` if the journal takes more entries, and else `JournalFull`.
#[unsafe(no_mangle)]
pub extern "C" fn seryugo_is_full(room: &mut Handle) -> u32
    ensures { OnAnyMessages (λ M sure. OnRoom (TellsFull result)) ⊤ result room.old.owned room.new.owned }
{
    on_any_messages!(room, Room(room) => tell_full(room.room.board().is_full()))
}
