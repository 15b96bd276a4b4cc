ghost use Rattle.std.specs.Prelude.{◌≡◌, ◌<◌, ◌-◌, ◌^◌, ◌∷◌, ◌++◌, [], true, false, length, slice_get, slice_set, replicate};
ghost use Rattle.std.specs.Prelude.{Some, None, is_some, count_by, IsSome, IfSome, IfOk, OnOk};
ghost use Rattle.cml_lanes.specs.{FeedSide, is_taken, stays, OnPlace, KeepsFeed, PumpsUntil, is_feeds_port, is_barred};

use crate::feed::FeedEnd;
use crate::inner_feed::InnerFeed;
use crate::pumping::{finish_slot, pump_slot};
use cml_board::{Board, Call, Message, Refusal};
use cml_log::MessageLog;
use std::alloc::{AllocError, Global};
use std::collections::HashSet;
use std::marker::Model;

/// The floor's ends of feeds by their numbers, and the ports of those that are open, which alone are looked at when a
/// seat receives.
#[derive(Drop)]
pub struct FeedSlots<M> {
    // This many were ended before the floor was made. They take no memory: the slots are of the numbers after theirs.
    closed: usize,
    slots: Vec<Option<InnerFeed<M>>>,
    ports: HashSet<u64>,
}

impl<M> Model for FeedSlots<M> {
    ghost use Rattle.cml_lanes.specs.Slots.{SlotsShown, HasPorts, behind};

    ghost Value = { SlotsShown M };

    ghost use Rattle.std.specs.Prelude.{◌-◌, ◌<◌, ◌^◌, min, vec_len, vec_capacity};
    ghost use Rattle.std.specs.HashSet.{spare};

    ghost view = { λ f. record {
      feeds = behind f.closed f.slots.items;
      room = min (vec_capacity f.slots - vec_len f.slots) (spare f.ports);
    } };

    ghost invariant = { λ f. HasPorts f.ports.keys (behind f.closed f.slots.items) × (f.closed < 2 ^ 63) };
}

impl<M: Message> FeedSlots<M> {
    pub fn new(alloc: Global) -> FeedSlots<M>
        ensures { result.feeds ≡ [] }
    {
        FeedSlots {
            closed: 0,
            slots: Vec::new(alloc),
            ports: HashSet::new(alloc),
        }
    }

    /// This many feeds, none of which is open. Allocates no memory, and fails only if there are 2^63.
    pub fn of_closed(alloc: Global, count: usize) -> Result<FeedSlots<M>, AllocError>
        ensures closed { IfOk result (λ slots. slots.feeds ≡ replicate count None) }
        ensures few { IfOk result (λ _. count < 2 ^ 64 - 1) }
    {
        if count >= 1 << 63 {
            return Err(AllocError);
        }
        Ok(FeedSlots {
            closed: count,
            slots: Vec::new(alloc),
            ports: HashSet::new(alloc),
        })
    }

    /// How many feeds were opened.
    pub fn count(&self) -> usize
        ensures { result ≡ length self.now.feeds }
    {
        self.closed + self.slots.len()
    }

    /// How many are open.
    pub fn open_count(&self) -> u64
        ensures { result ≡ count_by is_some self.now.feeds }
    {
        self.ports.len() as u64
    }

    pub fn has(&self, number: u64) -> bool
        ensures { result ≡ is_taken (slice_get self.now.feeds number) }
    {
        if (number as usize) < self.closed {
            return false;
        }
        matches!(self.slots.get(number as usize - self.closed), Some(Some(_)))
    }

    /// Whether the call is one that an open feed alone may make.
    #[inline(always)]
    pub fn bars(&self, call: &Call<M>) -> bool
        ensures { result ≡ is_barred self.now.feeds call.now }
    {
        if self.ports.is_empty() {
            return false;
        }
        self.bars_some(call)
    }

    fn bars_some(&self, call: &Call<M>) -> bool
        ensures { result ≡ is_barred self.now.feeds call.now }
    {
        match call {
            Call::Recv(port) | Call::Poll(port) | Call::ClosePort(port) => self.has_port(port.0),
            _ => false,
        }
    }

    fn has_port(&self, port: u64) -> bool
        ensures { result ≡ is_feeds_port self.now.feeds port }
    {
        self.ports.contains(&port)
    }

    /// Takes memory for one more.
    pub fn reserve(&mut self) -> Result<(), AllocError>
        ensures feeds { self.new.feeds ≡ self.old.feeds }
        ensures room { OnOk result (0 < self.new.room) }
    {
        self.slots.reserve(1)?;
        self.ports.reserve(1)
    }

    /// Adds a feed with the next number.
    pub fn add(&mut self, feed: InnerFeed<M>)
        requires room { 0 < self.old.room }
        requires own { is_feeds_port self.old.feeds feed.port.0 ≡ false }
        ensures { self.new.feeds ≡ self.old.feeds ++ Some feed ∷ [] }
    {
        if self.ports.insert(feed.port().0).is_err() {
            unreachable!()
        }
        if self.slots.push(Some(feed)).is_err() {
            unreachable!()
        }
    }

    /// Pumps messages into an open feed's ring, until one is refused: how many, and the refusal.
    pub fn pump<L: MessageLog<M>>(
        &mut self,
        board: &mut Board<M, L>,
        number: u64,
    ) -> (usize, Option<Refusal>)
        requires opened { is_taken (slice_get self.old.feeds number) ≡ true }
        requires kept { (side : FeedSide M) → slice_get self.old.feeds number ≡ Some (Some side) → KeepsFeed board.old.history number side }
        ensures { OnPlace stays number self.old.feeds self.new.feeds
            (PumpsUntil L.CHUNK M.SURE number result.0 result.1 board.old board.new) }
    {
        let at = number as usize - self.closed;
        pump_slot(board, &mut self.slots[at], number)
    }

    /// Ends an open feed whose port no other has. `None` where its subscriber has let go of it.
    pub fn end(&mut self, number: u64) -> Option<FeedEnd<M>>
        requires opened { is_taken (slice_get self.old.feeds number) ≡ true }
        requires own { (side : FeedSide M) → slice_get self.old.feeds number ≡ Some (Some side)
            → is_feeds_port (slice_set self.old.feeds number None) side.port.0 ≡ false }
        ensures feeds { self.new.feeds ≡ slice_set self.old.feeds number None }
        ensures ended { (side : FeedSide M) → slice_get self.old.feeds number ≡ Some (Some side)
            → IfSome result (λ end. end ≡ record { ring = side.ring; number = number; sent = side.pushed }) }
    {
        let port = port_of(&self.slots[number as usize - self.closed]);
        self.ports.remove(&port);
        finish_slot(&mut self.slots[number as usize - self.closed], number)
    }
}

fn port_of<M>(slot: &Option<InnerFeed<M>>) -> u64
    requires { IsSome slot.now }
    ensures { IfSome slot.now (λ side. result ≡ side.port.0) }
{
    let Some(feed) = slot else { unreachable!() };
    feed.port().0
}
