//! The calls that open, drain and close lanes.
ghost use Rattle.std.specs.Prelude.{ℕ, ◌≤◌, ◌<◌, length};
ghost use Rattle.cml_lanes.specs.{KeepsRings, SameRing, IsOfItsRing, OpensALane, Drains, Closes, ClosesCounted, Drops, Abandons};

use super::Floor;
use crate::MAX_CAPACITY;
use crate::inner_lane::InnerLane;
use crate::lane::{Lane, LaneEnd};
use crate::way::Way;
use cml_board::{Message, Name, Refusal};
use cml_log::MessageLog;
use rtrb::RingBuffer;

impl<M: Message, L: MessageLog<M>> Floor<M, L> {
    /// Opens a lane to a mailbox or a channel, with room for `capacity` messages. Returns the lane and its number. Adds no
    /// entry to the journal. Fails with `NoSuch` if the target was never made, with `WrongKind` if it is no mailbox and no
    /// channel, and with `NoMemory`.
    pub fn open_lane(&mut self, target: Name, capacity: usize) -> Result<(Lane<M>, u64), Refusal>
        requires least { 1 ≤ capacity }
        requires most { capacity ≤ MAX_CAPACITY }
        ensures opens { OpensALane self.old self.new target capacity result }
        ensures rings { (number : ℕ) → number < length self.old.lanes → SameRing number self.old self.new }
    {
        let Some(kind) = self.board.kind(target) else {
            return Err(Refusal::NoSuch);
        };
        let Some(way) = Way::to(kind) else {
            return Err(Refusal::WrongKind);
        };
        let Ok((producer, consumer)) = RingBuffer::new(self.alloc, capacity) else {
            return Err(Refusal::NoMemory);
        };
        let number = self.lanes.count() as u64;
        let inner = InnerLane::new(consumer, target, way);
        if self.lanes.add(inner).is_err() {
            return Err(Refusal::NoMemory);
        }
        Ok((Lane::new(producer, number), number))
    }

    /// Moves the messages that it sees in the lane's ring into the journal, in order, each as a call of the lane. Returns
    /// how many it moved. It stops at a message whose call fails, and leaves that message in the ring. Fails with
    /// `JournalFull` or `NoMemory` only if the first call does, and with `NoSuch` if no open lane has the number.
    pub fn drain(&mut self, lane: u64) -> Result<usize, Refusal>
        ensures drains { Drains L.CHUNK M.SURE lane self.old self.new result }
        ensures rings { KeepsRings self.old self.new }
    {
        if !self.has_lane(lane) {
            return Err(Refusal::NoSuch);
        }
        let (count, refusal) = self.drain_open(lane);
        let Some(refusal) = refusal else {
            return Ok(count);
        };
        if count == 0 {
            return Err(refusal);
        }
        Ok(count)
    }

    /// Moves all messages left on a finished lane into the journal, and closes the lane. Fails with `NoSuch` if no open lane
    /// has the end's number. It may move some messages and then fail with `JournalFull` or `NoMemory`. Those have entries,
    /// the others are in the ring, and the lane is open: try the returned end again.
    pub fn close_lane(&mut self, mut end: LaneEnd<M>) -> Result<(), (LaneEnd<M>, Refusal)>
        requires { IsOfItsRing self.old end }
        ensures closes { Closes L.CHUNK M.SURE self.old self.new end result }
        ensures rings { KeepsRings self.old self.new }
    {
        let lane = end.number();
        if !self.has_lane(lane) {
            return Err((end, Refusal::NoSuch));
        }
        if let Some(refusal) = self.drain_after(lane, &mut end).1 {
            return Err((end, refusal));
        }
        self.let_go(lane);
        Ok(())
    }

    /// Moves the messages that it sees on a finished lane. Then it closes the lane if the journal has as many of its messages
    /// as the end says. Fails with `Unseen` if it has not; the lane stays open. The end need not be of the lane's ring, but
    /// only counts are compared. It has the other failures of `close_lane`.
    pub fn close_counted(&mut self, end: LaneEnd<M>) -> Result<(), (LaneEnd<M>, Refusal)>
        ensures closes { ClosesCounted L.CHUNK M.SURE self.old self.new end result }
        ensures rings { KeepsRings self.old self.new }
    {
        let lane = end.number();
        if !self.has_lane(lane) {
            return Err((end, Refusal::NoSuch));
        }
        if let Some(refusal) = self.drain_open(lane).1 {
            return Err((end, refusal));
        }
        if self.moved_count(lane) != end.count() {
            return Err((end, Refusal::Unseen));
        }
        self.let_go(lane);
        Ok(())
    }

    /// Moves the messages that it sees on a lane, and closes the lane if none was refused. Returns how many it moved, and
    /// whether the lane is closed. Fails as `drain` does, and then the lane is open. It does not say whether it saw all
    /// messages that were sent.
    pub fn drop_lane(&mut self, lane: u64) -> Result<(usize, bool), Refusal>
        ensures drops { Drops L.CHUNK M.SURE lane self.old self.new result }
        ensures rings { KeepsRings self.old self.new }
    {
        if !self.has_lane(lane) {
            return Err(Refusal::NoSuch);
        }
        let (count, refusal) = self.drain_open(lane);
        let Some(refusal) = refusal else {
            self.let_go(lane);
            return Ok((count, true));
        };
        if count == 0 {
            return Err(refusal);
        }
        Ok((count, false))
    }

    /// Closes an open lane at once, and drops the messages in its ring. Fails with `NoSuch` if no open lane has the number.
    pub fn abandon_lane(&mut self, lane: u64) -> Result<(), Refusal>
        ensures abandons { Abandons lane self.old self.new result }
        ensures rings { KeepsRings self.old self.new }
    {
        if self.has_lane(lane) {
            self.let_go(lane);
            return Ok(());
        }
        Err(Refusal::NoSuch)
    }
}
