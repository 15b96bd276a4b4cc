//! The calls on lanes. None of them changes a seat's state.
ghost use Rattle.std.specs.Prelude.{ℕ, ◌≡◌, ◌≤◌, ◌<◌, length, count_by, is_some};
ghost use Rattle.cml_lanes.specs.{KeepsRings, SameRing, IsOfItsRing, OpensALane, Drains, Closes, ClosesCounted, Drops, Abandons};
ghost use Rattle.cml_room.specs.{KeepsSeats, Stirs, MakesFewByOne, MakesNoneDue};
ghost use Rattle.cml_threads.specs.{floor_of, room_of};

use super::Hall;
use super::counting::{count_entries, count_since};
use cml_board::{Message, Name, Refusal};
use cml_lanes::{Lane, LaneEnd, MAX_CAPACITY};
use cml_log::MessageLog;
use std::sync::ledger::Ledger;

impl<M: Message, L: MessageLog<M>, Led: Ledger> Hall<M, L, Led> {
    /// Returns how many lanes are open. While any is open, no call fails with `Stalled`.
    pub fn open_lanes(&self) -> u64
        ensures { result ≡ count_by is_some self.now.lanes }
    {
        self.room.open_lanes()
    }

    /// Opens a lane to a mailbox or a channel, as `Floor::open_lane` does.
    pub fn open_lane(&mut self, target: Name, capacity: usize) -> Result<(Lane<M>, u64), Refusal>
        requires least { 1 ≤ capacity }
        requires most { capacity ≤ MAX_CAPACITY }
        ensures opens { OpensALane (floor_of self.old) (floor_of self.new) target capacity result }
        ensures rings { (number : ℕ) → number < length self.old.lanes → SameRing number (floor_of self.old) (floor_of self.new) }
        ensures kept { KeepsSeats (room_of self.old) (room_of self.new) }
    {
        self.room.open_lane(target, capacity)
    }

    /// Moves the messages that it sees in the lane's ring into the journal, as `Floor::drain` does. The book counts each
    /// entry, for no seat.
    pub fn drain(&mut self, lane: u64) -> Result<usize, Refusal>
        ensures drains { Drains L.CHUNK M.SURE lane (floor_of self.old) (floor_of self.new) result }
        ensures rings { KeepsRings (floor_of self.old) (floor_of self.new) }
        ensures stirs { Stirs MakesFewByOne (room_of self.old) (room_of self.new) }
    {
        let before = count_entries(&self.room);
        let told = self.room.drain(lane);
        count_since(before, &self.room, &mut self.book, &mut self.rest);
        told
    }

    /// Moves all messages left on a finished lane into the journal, and closes the lane, as `Floor::close_lane` does. If it
    /// fails, the book also counts the entries that it added before.
    pub fn close_lane(&mut self, end: LaneEnd<M>) -> Result<(), (LaneEnd<M>, Refusal)>
        requires { IsOfItsRing (floor_of self.old) end }
        ensures closes { Closes L.CHUNK M.SURE (floor_of self.old) (floor_of self.new) end result }
        ensures rings { KeepsRings (floor_of self.old) (floor_of self.new) }
        ensures stirs { Stirs MakesFewByOne (room_of self.old) (room_of self.new) }
    {
        let before = count_entries(&self.room);
        let told = self.room.close_lane(end);
        count_since(before, &self.room, &mut self.book, &mut self.rest);
        told
    }

    /// Closes a finished lane if the journal has as many of its messages as the end says, as `Floor::close_counted` does.
    pub fn close_counted(&mut self, end: LaneEnd<M>) -> Result<(), (LaneEnd<M>, Refusal)>
        ensures closes { ClosesCounted L.CHUNK M.SURE (floor_of self.old) (floor_of self.new) end result }
        ensures rings { KeepsRings (floor_of self.old) (floor_of self.new) }
        ensures stirs { Stirs MakesFewByOne (room_of self.old) (room_of self.new) }
    {
        let before = count_entries(&self.room);
        let told = self.room.close_counted(end);
        count_since(before, &self.room, &mut self.book, &mut self.rest);
        told
    }

    /// Moves the messages that it sees on a lane, and closes the lane if none was refused, as `Floor::drop_lane` does.
    /// Returns how many it moved, and whether the lane is closed.
    pub fn drop_lane(&mut self, lane: u64) -> Result<(usize, bool), Refusal>
        ensures drops { Drops L.CHUNK M.SURE lane (floor_of self.old) (floor_of self.new) result }
        ensures rings { KeepsRings (floor_of self.old) (floor_of self.new) }
        ensures stirs { Stirs MakesFewByOne (room_of self.old) (room_of self.new) }
    {
        let before = count_entries(&self.room);
        let told = self.room.drop_lane(lane);
        count_since(before, &self.room, &mut self.book, &mut self.rest);
        told
    }

    /// Closes an open lane at once, and drops the messages in its ring. Fails with `NoSuch` if no open lane has the number.
    pub fn abandon_lane(&mut self, lane: u64) -> Result<(), Refusal>
        ensures abandons { Abandons lane (floor_of self.old) (floor_of self.new) result }
        ensures rings { KeepsRings (floor_of self.old) (floor_of self.new) }
        ensures stirs { Stirs MakesNoneDue (room_of self.old) (room_of self.new) }
    {
        self.room.abandon_lane(lane)
    }
}
