ghost use Rattle.std.specs.Prelude.{◌≡◌, ◌↔◌, IsTrue};

use crate::call::{Call, Name};
use crate::message::Message;
use cml_calls::{Bytes, Text};
use std::mem;

/// The maker of a call, by its number: a seat, or a lane or a feed on its thread's behalf.
#[derive(Clone, Copy, Debug, PartialEq, Eq, Hash)]
pub enum Who {
    Seat(u64),
    Lane(u64),
    Feed(u64),
}

/// The reply to an accepted call.
#[derive(Debug, Drop)]
pub enum Reply<M> {
    Done,
    /// The name of the object that was made.
    Made(Name),
    Got(M),
    /// A poll found nothing.
    Nothing,
    /// The variable was full before, and stays as it was.
    Put,
    /// The port was closed before.
    Closed,
}

impl<M: Message> Reply<M> {
    /// Says whether two replies are equal.
    pub fn same(&self, other: &Reply<M>) -> bool
        ensures { IsTrue result ↔ (self.now ≡ other.now) }
    {
        match (self, other) {
            (Reply::Done, Reply::Done) => true,
            (Reply::Made(one), Reply::Made(two)) => one == two,
            (Reply::Got(one), Reply::Got(two)) => one.same(two),
            (Reply::Nothing, Reply::Nothing) => true,
            (Reply::Put, Reply::Put) => true,
            (Reply::Closed, Reply::Closed) => true,
            _ => false,
        }
    }
}

/// One accepted call in the journal.
#[derive(Debug, Drop)]
pub struct Entry<M> {
    pub who: Who,
    pub call: Call<M>,
    pub reply: Reply<M>,
}

/// An entry of a board of numbers is at most 56 bytes.
const _: () = prove!(mem::size_of::<Entry<u64>>() <= 56);

/// So is one of a board of bytes or of texts: each message is one pointer.
const _: () = prove!(mem::size_of::<Entry<Bytes>>() <= 56);

const _: () = prove!(mem::size_of::<Entry<Text>>() <= 56);
