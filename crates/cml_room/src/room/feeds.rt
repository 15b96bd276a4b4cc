//! The calls on feeds. None of them changes a seat's state, and none brings news. If one fills the journal, or leaves all seats
//! stalled, all that wait are due.
ghost use Rattle.std.specs.Prelude.{ℕ, ◌≡◌, ◌≤◌, ◌<◌, length, count_by, is_some};
ghost use Rattle.cml_lanes.specs.{KeepsRings, SameFeedRing, OpensAFeed, Pumps};
ghost use Rattle.cml_lanes.specs.Feeds.{Ends};
ghost use Rattle.cml_room.specs.{KeepsSeats, Stirs, MakesNoneDue, floor_of};

use super::Room;
use crate::turns::settle;
use cml_board::{Message, Name, Refusal};
use cml_lanes::{Feed, FeedEnd, MAX_CAPACITY};
use cml_log::MessageLog;

impl<M: Message, L: MessageLog<M>> Room<M, L> {
    /// Returns how many feeds are open.
    pub fn open_feeds(&self) -> u64
        ensures { result ≡ count_by is_some self.now.feeds }
    {
        self.floor.open_feeds()
    }

    /// Opens a feed of what is multicast on a channel from now on, as `Floor::open_feed` does.
    pub fn open_feed(&mut self, channel: Name, capacity: usize) -> Result<(Feed<M>, u64), Refusal>
        requires least { 1 ≤ capacity }
        requires most { capacity ≤ MAX_CAPACITY }
        ensures opens { OpensAFeed L.CHUNK M.SURE (floor_of self.old) (floor_of self.new) channel capacity result }
        ensures rings { (number : ℕ) → number < length self.old.feeds → SameFeedRing number (floor_of self.old) (floor_of self.new) }
        ensures stirs { Stirs MakesNoneDue self.old self.new }
    {
        let told = self.floor.open_feed(channel, capacity);
        settle(&self.floor, &mut self.seats, None);
        told
    }

    /// Receives what an open feed's port is owed, and puts it into the ring, as `Floor::pump` does.
    pub fn pump(&mut self, feed: u64) -> Result<usize, Refusal>
        ensures pumps { Pumps L.CHUNK M.SURE feed (floor_of self.old) (floor_of self.new) result }
        ensures rings { KeepsRings (floor_of self.old) (floor_of self.new) }
        ensures stirs { Stirs MakesNoneDue self.old self.new }
    {
        let told = self.floor.pump(feed);
        settle(&self.floor, &mut self.seats, None);
        told
    }

    /// Ends an open feed for good, as `Floor::end_feed` does. From now on its port is a port like any other.
    pub fn end_feed(&mut self, feed: u64) -> Result<Option<FeedEnd<M>>, Refusal>
        ensures ends { Ends feed (floor_of self.old) (floor_of self.new) result }
        ensures rings { KeepsRings (floor_of self.old) (floor_of self.new) }
        ensures kept { KeepsSeats self.old self.new }
    {
        self.floor.end_feed(feed)
    }
}
