ghost use Rattle.std.specs.Prelude.{◌≡◌, ◌-◌, ◌^◌, ◌<◌, [], ◌∷◌, ◌++◌, length, slice_get, Some};
ghost use Rattle.rtrb.specs.Ring.{received, known_items, consumer_capacity};
ghost use Rattle.cml_lanes.specs.{ring_of, Looks};

use crate::lane::LaneEnd;
use crate::way::Way;
use cml_board::Name;
use rtrb::Consumer;
use std::marker::Model;

/// The floor's end of a lane.
#[derive(Drop)]
pub struct InnerLane<M> {
    consumer: Consumer<M>,
    target: Name,
    way: Way,
    count: u64,
}

impl<M> Model for InnerLane<M> {
    ghost use Rattle.cml_lanes.specs.Sides.{LaneSide};

    ghost Value = { LaneSide M };

    ghost use Rattle.std.specs.Prelude.{◌≡◌, ◌≤◌, length};
    ghost use Rattle.rtrb.specs.Ring.{received, known_items, consumer_capacity};
    ghost use Rattle.cml_lanes.specs.Ring.{ring_of};

    ghost view = { λ l. record {
      ring = ring_of l.consumer.end;
      target = l.target;
      way = l.way;
      capacity = consumer_capacity l.consumer;
      received = received l.consumer;
      seen = known_items l.consumer;
    } };

    ghost invariant = { λ l. l.count ≡ length (received l.consumer) };
}

impl<M> InnerLane<M> {
    pub fn new(consumer: Consumer<M>, target: Name, way: Way) -> InnerLane<M>
        requires { received consumer ≡ [] }
        ensures { result ≡ record {
          ring = ring_of consumer.end;
          target = target;
          way = way;
          capacity = consumer_capacity consumer;
          received = [];
          seen = known_items consumer;
        } }
    {
        InnerLane {
            consumer,
            target,
            way,
            count: 0,
        }
    }

    pub fn target(&self) -> Name
        ensures { result ≡ self.now.target }
    {
        self.target
    }

    pub fn way(&self) -> Way
        ensures { result ≡ self.now.way }
    {
        self.way
    }

    /// How many messages were taken out of the ring.
    pub fn count(&self) -> u64
        ensures { result ≡ length self.now.received }
    {
        self.count
    }

    /// How many messages were seen in the ring, and are still there.
    pub fn seen(&self) -> usize
        ensures { result ≡ length self.now.seen }
    {
        self.consumer.cached_slots()
    }

    /// Looks how many messages there are in the ring.
    pub fn look(&mut self)
        ensures { Looks self.old self.new }
    {
        self.consumer.slots();
    }

    /// Looks at all that is left in the ring of a lane that has finished.
    pub fn look_after(&mut self, end: &mut LaneEnd<M>)
        requires { end.old.ring ≡ self.old.ring }
        ensures end { end.new ≡ end.old }
        ensures looked { Looks self.old self.new }
        ensures all { self.new.received ++ self.new.seen ≡ end.old.sent }
    {
        self.consumer.slots_after(&mut end.finished);
    }

    /// The next message, left in the ring.
    pub fn next(&self) -> &M
        requires { 0 < length self.now.seen }
        ensures { slice_get self.now.seen 0 ≡ Some result.now }
    {
        self.consumer.peek_known()
    }

    /// Takes the next message out of the ring.
    pub fn take(&mut self) -> M
        requires seen { 0 < length self.old.seen }
        requires countable { length self.old.received < 2 ^ 64 - 1 }
        ensures side { self.new ≡ record self.old { received = self.old.received ++ result ∷ []; seen = self.new.seen } }
        ensures next { self.old.seen ≡ result ∷ self.new.seen }
    {
        self.count += 1;
        self.consumer.pop_known()
    }
}
