ghost use Rattle.std.specs.Prelude.{◌≡◌, [], ◌∷◌, ◌++◌, length, IfNone, IfSome, MatchOption};
ghost use Rattle.rtrb.specs.Ring.{received, consumer_capacity, all_sent};
ghost use Rattle.cml_lanes.specs.{ring_of};

use cml_board::Name;
use rtrb::{Consumer, Finished};
use std::marker::Model;

/// The subscriber's end of a feed, for one thread. None of its calls blocks, takes a lock or allocates memory.
#[derive(Drop)]
pub struct Feed<M> {
    consumer: Consumer<M>,
    number: u64,
    port: Name,
}

impl<M> Model for Feed<M> {
    ghost use Rattle.cml_lanes.specs.Ends.{FeedShown};

    ghost Value = { FeedShown M };

    ghost use Rattle.rtrb.specs.Ring.{received, consumer_capacity};
    ghost use Rattle.cml_lanes.specs.Ring.{ring_of};

    ghost view = { λ f. record {
      ring = ring_of f.consumer.end;
      number = f.number;
      port = f.port;
      capacity = consumer_capacity f.consumer;
      taken = received f.consumer;
    } };
}

impl<M> Feed<M> {
    pub(crate) fn new(consumer: Consumer<M>, number: u64, port: Name) -> Feed<M>
        requires { received consumer ≡ [] }
        ensures { result ≡ record {
          ring = ring_of consumer.end;
          number = number;
          port = port;
          capacity = consumer_capacity consumer;
          taken = [];
        } }
    {
        Feed {
            consumer,
            number,
            port,
        }
    }

    /// Returns the feed's number on its floor.
    pub fn number(&self) -> u64
        ensures { result ≡ self.now.number }
    {
        self.number
    }

    /// Returns the feed's port, whose messages the feed receives.
    pub fn port(&self) -> Name
        ensures { result ≡ self.now.port }
    {
        self.port
    }

    /// Takes the next message that the floor's `pump` has put into the ring. Returns `None` if it sees none there.
    pub fn recv(&mut self) -> Option<M>
        ensures got { IfSome result (λ message. self.new ≡ record self.old { taken = self.old.taken ++ message ∷ [] }) }
        ensures none { IfNone result (self.new ≡ self.old) }
    {
        self.consumer.pop().ok()
    }

    /// Returns the messages left in a feed that the floor has ended. Together with those taken before they are all that was
    /// pumped.
    pub fn rest(mut self, mut end: FeedEnd<M>) -> Taken<M>
    where
        M: Drop,
        requires { end.ring ≡ self.ring }
        ensures { self.taken ++ result ≡ end.sent }
    {
        self.consumer.slots_after(&mut end.finished);
        Taken {
            consumer: self.consumer,
        }
    }
}

/// The end of a feed that the floor has ended. It knows all that was pumped; `Feed::rest` needs it.
#[derive(Drop)]
pub struct FeedEnd<M> {
    finished: Finished<M>,
    number: u64,
}

impl<M> Model for FeedEnd<M> {
    ghost use Rattle.cml_lanes.specs.Ends.{Ended};

    ghost Value = { Ended M };

    ghost use Rattle.rtrb.specs.Ring.{all_sent};
    ghost use Rattle.cml_lanes.specs.Ring.{ring_of};

    ghost view = { λ e. record { ring = ring_of e.finished.end; number = e.number; sent = all_sent e.finished } };
}

impl<M> FeedEnd<M> {
    pub(crate) fn new(finished: Finished<M>, number: u64) -> FeedEnd<M>
        ensures { result ≡ record { ring = ring_of finished.end; number = number; sent = all_sent finished } }
    {
        FeedEnd { finished, number }
    }

    /// Returns the number of the feed.
    pub fn number(&self) -> u64
        ensures { result ≡ self.now.number }
    {
        self.number
    }
}

/// The messages that were left in the ring of a feed that has ended, in order. `next` takes them one by one.
#[derive(Drop)]
pub struct Taken<M> {
    consumer: Consumer<M>,
}

impl<M> Model for Taken<M> {
    ghost use Rattle.std.specs.Prelude.{List};
    ghost use Rattle.rtrb.specs.Ring.{known_items};

    ghost Value = { List M };

    ghost view = { λ t. known_items t.consumer };
}

impl<M> Taken<M> {
    /// Returns the next message, or `None` if none is left.
    pub fn next(&mut self) -> Option<M>
        ensures { MatchOption result ((self.old ≡ []) × (self.new ≡ [])) (λ message. self.old ≡ message ∷ self.new) }
    {
        if self.consumer.cached_slots() == 0 {
            return None;
        }
        Some(self.consumer.pop_known())
    }

    /// Returns how many messages are left.
    pub fn left(&self) -> usize
        ensures { result ≡ length self.now }
    {
        self.consumer.cached_slots()
    }
}
