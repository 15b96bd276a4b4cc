//! The calls on feeds. None of them changes a seat's state.
ghost use Rattle.std.specs.Prelude.{ℕ, ◌≡◌, ◌≤◌, ◌<◌, length, count_by, is_some};
ghost use Rattle.cml_lanes.specs.{KeepsRings, SameFeedRing, OpensAFeed, Pumps};
ghost use Rattle.cml_lanes.specs.Feeds.{Ends};
ghost use Rattle.cml_room.specs.{KeepsSeats, Stirs, MakesNoneDue};
ghost use Rattle.cml_threads.specs.{floor_of, room_of};

use super::Hall;
use super::counting::{count_entries, count_since};
use cml_board::{Message, Name, Refusal};
use cml_lanes::{Feed, FeedEnd, MAX_CAPACITY};
use cml_log::MessageLog;
use std::sync::ledger::Ledger;

impl<M: Message, L: MessageLog<M>, Led: Ledger> Hall<M, L, Led> {
    /// Returns how many feeds are open.
    pub fn open_feeds(&self) -> u64
        ensures { result ≡ count_by is_some self.now.feeds }
    {
        self.room.open_feeds()
    }

    /// Opens a feed of what is multicast on a channel from now on, as `Floor::open_feed` does. The book counts the entry that
    /// makes its port, for no seat.
    pub fn open_feed(&mut self, channel: Name, capacity: usize) -> Result<(Feed<M>, u64), Refusal>
        requires least { 1 ≤ capacity }
        requires most { capacity ≤ MAX_CAPACITY }
        ensures opens { OpensAFeed L.CHUNK M.SURE (floor_of self.old) (floor_of self.new) channel capacity result }
        ensures rings { (number : ℕ) → number < length self.old.feeds → SameFeedRing number (floor_of self.old) (floor_of self.new) }
        ensures stirs { Stirs MakesNoneDue (room_of self.old) (room_of self.new) }
    {
        let before = count_entries(&self.room);
        let told = self.room.open_feed(channel, capacity);
        count_since(before, &self.room, &mut self.book, &mut self.rest);
        told
    }

    /// Receives what an open feed's port is owed, and puts it into the ring, as `Floor::pump` does. The book counts each
    /// entry, for no seat.
    pub fn pump(&mut self, feed: u64) -> Result<usize, Refusal>
        ensures pumps { Pumps L.CHUNK M.SURE feed (floor_of self.old) (floor_of self.new) result }
        ensures rings { KeepsRings (floor_of self.old) (floor_of self.new) }
        ensures stirs { Stirs MakesNoneDue (room_of self.old) (room_of self.new) }
    {
        let before = count_entries(&self.room);
        let told = self.room.pump(feed);
        count_since(before, &self.room, &mut self.book, &mut self.rest);
        told
    }

    /// Ends an open feed for good, as `Floor::end_feed` does. From now on its port is a port like any other.
    pub fn end_feed(&mut self, feed: u64) -> Result<Option<FeedEnd<M>>, Refusal>
        ensures ends { Ends feed (floor_of self.old) (floor_of self.new) result }
        ensures rings { KeepsRings (floor_of self.old) (floor_of self.new) }
        ensures kept { KeepsSeats (room_of self.old) (room_of self.new) }
    {
        self.room.end_feed(feed)
    }
}
