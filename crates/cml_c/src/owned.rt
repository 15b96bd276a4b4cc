//! What a handle leads to.
ghost use Rattle.std.specs.Prelude.{◌≡◌};
ghost use Rattle.cml_c.specs.declared.owned.Owned.{Owned};
ghost use Rattle.cml_c.specs.declared.owned.Resource.{Resource};
ghost use Rattle.cml_c.specs.declared.owned.Owned.TheVariants as owned;
ghost use Rattle.cml_c.specs.declared.owned.Resource.TheVariants as resource;

use crate::keeper::Held;
use cml_board::{Board, Bytes, Checker, Entry, Message};
use cml_journal::{Check, Summing};
use cml_lanes::{Feed, Lane, LaneEnd};
use cml_log::ChunkLog;
use cml_room::Room;
use cml_store::{Exchange, Store};

/// The messages of a mailbox or a channel. A chunk of sixteen is allocated and freed four times less often than one of `BoardLog`.
pub type LogOf<M> = ChunkLog<M, 16>;

/// A room whose messages are of this type, and its board.
pub type RoomOf<M> = Room<M, LogOf<M>>;

pub type BoardOf<M> = Board<M, LogOf<M>>;

/// What checks entries, and a journal's text. A room goes on from their board.
pub type CheckerOf<M> = Checker<M, LogOf<M>>;

pub type CheckOf<M> = Check<M, LogOf<M>>;

/// A room, with memory for the next long message that is handed over, unless it is used.
#[derive(Drop)]
pub struct RoomWithSpare<M: Message> {
    pub room: RoomOf<M>,
    pub spare: Option<Box<Held>>,
}

/// What a handle leads to, by the messages that it has to do with.
#[derive(Drop)]
pub enum Owned {
    Numbers(Resource<u64>),
    Bytes(Resource<Bytes>),
}

/// What a handle leads to that has to do with messages of this type. What is large lies in a box, so that this is small.
#[derive(Drop)]
pub enum Resource<M: Message> {
    Room(Box<RoomWithSpare<M>>),
    Lane(Lane<M>),
    /// A lane that has finished, and isn't closed yet.
    LaneEnd(LaneEnd<M>),
    Feed(Feed<M>),
    /// Entries that were taken out of a room's journal, oldest first.
    Journal(Vec<Entry<M>>),
    Checker(Box<CheckerOf<M>>),
    /// A journal's text that is read back.
    JournalCheck(Box<CheckOf<M>>),
    /// An entry that C has, with its messages.
    Entry(Box<Entry<M>>),
    /// The machine of a journal's file.
    Store(Box<Store>),
    /// The machine of its exchange for a short one.
    Exchange(Box<Exchange>),
    /// How far a piece of text is summed.
    Summing(Box<Summing>),
    /// Nothing: a lane that was closed, or a reading that was restored.
    Spent,
}

/// Evaluates the expression for the resource that a handle leads to, whatever its messages are.
macro_rules! for_both {
    ($owned:expr, $resource:ident => $result:expr) => {
        match $owned {
            $crate::owned::Owned::Numbers($resource) => $result,
            $crate::owned::Owned::Bytes($resource) => $result,
        }
    };
}

/// Evaluates the expression for what a handle leads to, if it is such a resource, whatever its messages are. Else the call is wrong.
macro_rules! on_any_messages {
    ($handle:expr, $variant:ident($resource:ident) => $result:expr) => {
        match $handle.as_mut() {
            $crate::owned::Owned::Numbers($crate::owned::Resource::$variant($resource)) => $result,
            $crate::owned::Owned::Bytes($crate::owned::Resource::$variant($resource)) => $result,
            _ => $crate::code::Code::WrongHandle.number(),
        }
    };
}

/// Evaluates the expression for what a handle leads to, if its messages are of this kind. Else the call is wrong.
macro_rules! with_kind {
    ($handle:expr, $kind:ident($variant:ident($resource:ident)) => $result:expr) => {
        match $handle.as_mut() {
            $crate::owned::Owned::$kind($crate::owned::Resource::$variant($resource)) => $result,
            _ => $crate::code::Code::WrongHandle.number(),
        }
    };
}

/// Evaluates the expression for the resources that two handles lead to, if their messages are of one type. Else the call is wrong.
macro_rules! on_both {
    ($one:ident, $other:ident => $result:expr) => {
        match $one.as_mut() {
            $crate::owned::Owned::Numbers($one) => match $other.as_mut() {
                $crate::owned::Owned::Numbers($other) => $result,
                $crate::owned::Owned::Bytes(_) => $crate::code::Code::WrongHandle.number(),
            },
            $crate::owned::Owned::Bytes($one) => match $other.as_mut() {
                $crate::owned::Owned::Bytes($other) => $result,
                $crate::owned::Owned::Numbers(_) => $crate::code::Code::WrongHandle.number(),
            },
        }
    };
}

pub(crate) use for_both;
pub(crate) use on_any_messages;
pub(crate) use on_both;
pub(crate) use with_kind;

/// A type of messages that a room for C may have.
pub trait Payload: Message {
    /// What a handle to such a resource leads to.
    ghost OWNED: { Resource Self → Owned };

    fn own_room(room: Box<RoomWithSpare<Self>>) -> Owned
        ensures { result ≡ OWNED (resource.Room room) };

    fn own_lane(lane: Lane<Self>) -> Owned
        ensures { result ≡ OWNED (resource.Lane lane) };

    fn own_feed(feed: Feed<Self>) -> Owned
        ensures { result ≡ OWNED (resource.Feed feed) };

    fn own_journal(entries: Vec<Entry<Self>>) -> Owned
        ensures { result ≡ OWNED (resource.Journal entries) };
}

impl Payload for u64 {
    ghost OWNED = { owned.Numbers };

    fn own_room(room: Box<RoomWithSpare<u64>>) -> Owned
        ensures { result ≡ owned.Numbers (resource.Room room) }
    {
        Owned::Numbers(Resource::Room(room))
    }

    fn own_lane(lane: Lane<u64>) -> Owned
        ensures { result ≡ owned.Numbers (resource.Lane lane) }
    {
        Owned::Numbers(Resource::Lane(lane))
    }

    fn own_feed(feed: Feed<u64>) -> Owned
        ensures { result ≡ owned.Numbers (resource.Feed feed) }
    {
        Owned::Numbers(Resource::Feed(feed))
    }

    fn own_journal(entries: Vec<Entry<u64>>) -> Owned
        ensures { result ≡ owned.Numbers (resource.Journal entries) }
    {
        Owned::Numbers(Resource::Journal(entries))
    }
}

impl Payload for Bytes {
    ghost OWNED = { owned.Bytes };

    fn own_room(room: Box<RoomWithSpare<Bytes>>) -> Owned
        ensures { result ≡ owned.Bytes (resource.Room room) }
    {
        Owned::Bytes(Resource::Room(room))
    }

    fn own_lane(lane: Lane<Bytes>) -> Owned
        ensures { result ≡ owned.Bytes (resource.Lane lane) }
    {
        Owned::Bytes(Resource::Lane(lane))
    }

    fn own_feed(feed: Feed<Bytes>) -> Owned
        ensures { result ≡ owned.Bytes (resource.Feed feed) }
    {
        Owned::Bytes(Resource::Feed(feed))
    }

    fn own_journal(entries: Vec<Entry<Bytes>>) -> Owned
        ensures { result ≡ owned.Bytes (resource.Journal entries) }
    {
        Owned::Bytes(Resource::Journal(entries))
    }
}
