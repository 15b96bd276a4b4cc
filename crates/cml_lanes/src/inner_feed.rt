ghost use Rattle.std.specs.Prelude.{◌≡◌, ◌+◌, ◌<◌, [], ◌∷◌, ◌++◌, IfSome};
ghost use Rattle.rtrb.specs.Ring.{sent, known_free, producer_capacity};
ghost use Rattle.cml_lanes.specs.{ring_of, LearnsFree};

use crate::feed::FeedEnd;
use cml_board::Name;
use rtrb::Producer;
use std::marker::Model;

/// The floor's end of a feed.
#[derive(Drop)]
pub struct InnerFeed<M> {
    producer: Producer<M>,
    port: Name,
}

impl<M> Model for InnerFeed<M> {
    ghost use Rattle.cml_lanes.specs.Sides.{FeedSide};

    ghost Value = { FeedSide M };

    ghost use Rattle.rtrb.specs.Ring.{sent, known_free, producer_capacity};
    ghost use Rattle.cml_lanes.specs.Ring.{ring_of};

    ghost view = { λ f. record {
      ring = ring_of f.producer.end;
      port = f.port;
      capacity = producer_capacity f.producer;
      pushed = sent f.producer;
      free = known_free f.producer;
    } };
}

impl<M> InnerFeed<M> {
    pub fn new(producer: Producer<M>, port: Name) -> InnerFeed<M>
        requires { sent producer ≡ [] }
        ensures { result ≡ record {
          ring = ring_of producer.end;
          port = port;
          capacity = producer_capacity producer;
          pushed = [];
          free = known_free producer;
        } }
    {
        InnerFeed { producer, port }
    }

    pub fn port(&self) -> Name
        ensures { result ≡ self.now.port }
    {
        self.port
    }

    /// How many slots of the ring are known to be free.
    pub fn free(&self) -> usize
        ensures { result ≡ self.now.free }
    {
        self.producer.cached_slots()
    }

    /// Looks how many slots of the ring are free.
    pub fn look(&mut self)
        ensures { LearnsFree self.old self.new }
    {
        self.producer.slots();
    }

    /// Puts a message into a free slot.
    pub fn push(&mut self, message: M)
        requires { 0 < self.old.free }
        ensures side { self.new ≡ record self.old { pushed = self.old.pushed ++ message ∷ []; free = self.new.free } }
        ensures free { self.old.free ≡ self.new.free + 1 }
    {
        self.producer.push_reserved(message);
    }

    /// Ends the feed: nothing more is put into its ring. Returns `None` if its subscriber has dropped it before.
    pub fn finish(self, number: u64) -> Option<FeedEnd<M>>
    where
        M: Drop,
        ensures { IfSome result (λ end. end ≡ record { ring = self.ring; number = number; sent = self.pushed }) }
    {
        let finished = self.producer.finish()?;
        Some(FeedEnd::new(finished, number))
    }
}
