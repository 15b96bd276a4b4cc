ghost use Rattle.std.specs.Prelude.{◌≡◌, ◌^◌, ◌-◌, ◌<◌, ◌≤◌, [], ◌∷◌, ◌++◌, length, OnOk, IsOk, IsErr, IfErr, IfSome};
ghost use Rattle.rtrb.specs.Ring.{sent, known_free, producer_capacity};
ghost use Rattle.cml_lanes.specs.{ring_of};

use rtrb::{Finished, Producer};
use std::marker::Model;

/// The sender's end of a lane, for one thread. None of its calls blocks, takes a lock or allocates memory.
#[derive(Drop)]
pub struct Lane<M> {
    producer: Producer<M>,
    number: u64,
    accepted: u64,
}

impl<M> Model for Lane<M> {
    ghost use Rattle.cml_lanes.specs.Ends.{LaneShown};

    ghost Value = { LaneShown M };

    ghost use Rattle.std.specs.Prelude.{◌≡◌, ◌+◌, ◌≤◌, length};
    ghost use Rattle.rtrb.specs.Ring.{sent, known_free, producer_capacity};
    ghost use Rattle.cml_lanes.specs.Ring.{ring_of};

    ghost view = { λ l.
        record { ring = ring_of l.producer.end; number = l.number; capacity = producer_capacity l.producer; accepted = sent l.producer } };

    ghost invariant = { λ l. (l.accepted ≡ length (sent l.producer))
        × (producer_capacity l.producer ≤ length (sent l.producer) + known_free l.producer) };
}

impl<M> Lane<M> {
    pub(crate) fn new(producer: Producer<M>, number: u64) -> Lane<M>
        requires empty { sent producer ≡ [] }
        requires free { producer_capacity producer ≤ known_free producer }
        ensures { result ≡ record { ring = ring_of producer.end; number = number; capacity = producer_capacity producer; accepted = [] } }
    {
        Lane {
            producer,
            number,
            accepted: 0,
        }
    }

    /// Returns the lane's number on its floor.
    pub fn number(&self) -> u64
        ensures { result ≡ self.now.number }
    {
        self.number
    }

    /// Sends a message. The floor's next `drain` may move it into the journal. Fails with `LaneFull`, which returns the
    /// message, if it sees no free slot in the ring; send it again later. Always fails after 2^64 - 1 messages.
    pub fn send(&mut self, message: M) -> Result<(), LaneFull<M>>
        ensures sent { OnOk result (self.new ≡ record self.old { accepted = self.old.accepted ++ message ∷ [] }) }
        ensures full { IfErr result (λ full. (full.0 ≡ message) × (self.new ≡ self.old)) }

        // It never fails while the lane has accepted fewer messages than it has room for, whatever was drained.
        ensures sure { length self.old.accepted < self.old.capacity → IsOk result }

        // A lane that has accepted the highest count of messages takes no more.
        ensures last { length self.old.accepted ≡ 2 ^ 64 - 1 → IsErr result }
    {
        if self.accepted == u64::MAX {
            return Err(LaneFull(message));
        }
        if let Err(full) = self.producer.push(message) {
            let rtrb::PushError::Full(message) = full;
            return Err(LaneFull(message));
        }
        self.accepted += 1;
        Ok(())
    }

    /// Ends the lane: nothing more is sent on it. Returns the end that closes the lane on its floor. Returns `None` only if
    /// the floor has dropped the lane before.
    pub fn finish(self) -> Option<LaneEnd<M>>
    where
        M: Drop,
        ensures { IfSome result (λ end. end ≡ record { ring = self.ring; number = self.number; sent = self.accepted }) }
    {
        let finished = self.producer.finish()?;
        Some(LaneEnd {
            finished,
            number: self.number,
            count: self.accepted,
        })
    }
}

/// The error of a send on a full lane. It returns the message to its sender.
#[derive(Debug, Drop, PartialEq, Eq)]
pub struct LaneFull<M>(pub M);

/// The end of a lane that has finished. It knows all that was sent, and closes the lane on its floor.
#[derive(Drop)]
pub struct LaneEnd<M> {
    pub(crate) finished: Finished<M>,
    number: u64,
    count: u64,
}

impl<M> Model for LaneEnd<M> {
    ghost use Rattle.cml_lanes.specs.Ends.{Ended};

    ghost Value = { Ended M };

    ghost use Rattle.std.specs.Prelude.{◌≡◌, length};
    ghost use Rattle.rtrb.specs.Ring.{all_sent};
    ghost use Rattle.cml_lanes.specs.Ring.{ring_of};

    ghost view = { λ e. record { ring = ring_of e.finished.end; number = e.number; sent = all_sent e.finished } };

    ghost invariant = { λ e. e.count ≡ length (all_sent e.finished) };
}

impl<M> LaneEnd<M> {
    /// Returns the number of the lane.
    pub fn number(&self) -> u64
        ensures { result ≡ self.now.number }
    {
        self.number
    }

    /// Returns how many messages the lane accepted.
    pub fn count(&self) -> u64
        ensures { result ≡ length self.now.sent }
    {
        self.count
    }
}
