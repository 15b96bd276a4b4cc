//! Lanes and feeds of a switchboard in a file. A call returns once the entries of what it moved are stored.
ghost use Rattle.std.specs.Prelude.{◌≡◌, ◌≤◌, ◌<◌, false, [], IfOk, IfErr, IfSome};
ghost use Rattle.cml_board.specs.declared.outcome.Refusal.TheVariants.{NoSuch};
ghost use Rattle.cml_threads.specs.{MayRefuseClose, MayRefuseDrain, MayRefuseFeed, MayRefuseLane};
ghost use Rattle.cml_file.specs.{FailsMoving};

use super::KeptSwitchboard;
use crate::failed::Failed;
use crate::kept_lane::KeptLane;
use crate::unstored::Unstored;
use cml_board::{Message, Name, Refusal};
use cml_journal::Written;
use cml_lanes::{Feed, FeedEnd, LaneEnd, MAX_CAPACITY};
use cml_log::MessageLog;
use std::sync::Wait;
use std::sync::ledger::Ledger;

/// Makes a call until the journal has room for it, and returns then what that returned.
macro_rules! until_room {
    ($board:ident, $rt:ident, $call:expr) => {
        for _ in $rt.forever() {
            match $call {
                Ok(value) => return Ok(Unstored::of(value)),
                Err(Refusal::JournalFull) => {
                    if let Err(fault) = $board.store($rt) {
                        return Err(Failed::Unmade(fault, ()));
                    }
                }
                Err(refusal) => return Err(Failed::Refused(refusal, ())),
            }
        }
    };
}

impl<M: Message + Written, L: MessageLog<M>, Led: Ledger> KeptSwitchboard<M, L, Led> {
    /// Opens a lane, as `Switchboard::open_lane` does. That adds no entry.
    pub fn open_lane<R: Wait>(
        &self,
        rt: &R,
        target: Name,
        capacity: usize,
    ) -> Result<(KeptLane<M>, u64), Refusal>
        requires least { 1 ≤ capacity }
        requires most { capacity ≤ MAX_CAPACITY }
        ensures lane { IfOk result (λ lane. lane.0 ≡ record { ring = lane.0.ring; number = lane.1; capacity = capacity; accepted = [] }) }
        ensures refused { IfErr result MayRefuseLane }
    {
        let (lane, number) = self.board.open_lane(rt, target, capacity)?;
        Ok((KeptLane::of(self.alloc, lane), number))
    }

    /// Moves the messages that it sees in a lane's ring into the journal, as `Switchboard::drain` does, and stores them. Returns how
    /// many it moved: call it again until it moves none.
    pub fn drain<R: Wait>(&self, rt: &R, lane: u64) -> Result<usize, Failed<(), usize>>
        ensures { IfErr result (FailsMoving MayRefuseDrain tt) }
    {
        if let Err(fault) = self.make_up(rt) {
            return Err(Failed::Unmade(fault, ()));
        }
        match self.drain_unstored(rt, lane) {
            Ok(moved) => self.keep(rt, moved),
            Err(failed) => Err(failed),
        }
    }

    fn drain_unstored<R: Wait>(
        &self,
        rt: &R,
        lane: u64,
    ) -> Result<Unstored<usize>, Failed<(), usize>>
        ensures { IfErr result (FailsMoving MayRefuseDrain tt) }
    {
        until_room!(self, rt, self.board.drain(rt, lane));
        unreachable!()
    }

    /// Moves the messages that it sees on a lane, stores them, and closes the lane if none was refused, as `Switchboard::drop_lane`
    /// does. Returns how many it moved, and whether the lane is closed.
    pub fn drop_lane<R: Wait>(
        &self,
        rt: &R,
        lane: u64,
    ) -> Result<(usize, bool), Failed<(), (usize, bool)>>
        ensures stopped { IfOk result (λ told. told.1 ≡ false → 0 < told.0) }
        ensures failed { IfErr result (FailsMoving MayRefuseDrain tt) }
    {
        if let Err(fault) = self.make_up(rt) {
            return Err(Failed::Unmade(fault, ()));
        }
        match self.drop_unstored(rt, lane) {
            Ok(moved) => self.keep(rt, moved),
            Err(failed) => Err(failed),
        }
    }

    fn drop_unstored<R: Wait>(
        &self,
        rt: &R,
        lane: u64,
    ) -> Result<Unstored<(usize, bool)>, Failed<(), (usize, bool)>>
        ensures stopped { IfOk result (λ told. told.value.1 ≡ false → 0 < told.value.0) }
        ensures failed { IfErr result (FailsMoving MayRefuseDrain tt) }
    {
        until_room!(self, rt, self.board.drop_lane(rt, lane));
        unreachable!()
    }

    /// Closes a finished lane, as `Switchboard::close_lane` does, and stores its messages. If it fails before that, it returns the
    /// end, and may have moved some.
    pub fn close_lane<R: Wait>(&self, rt: &R, end: LaneEnd<M>) -> Result<(), Failed<LaneEnd<M>, ()>>
        ensures { IfErr result (FailsMoving MayRefuseClose end) }
    {
        if let Err(fault) = self.make_up(rt) {
            return Err(Failed::Unmade(fault, end));
        }
        match self.close_unstored(rt, end) {
            Ok(closed) => self.keep(rt, closed),
            Err(failed) => Err(failed),
        }
    }

    fn close_unstored<R: Wait>(
        &self,
        rt: &R,
        end: LaneEnd<M>,
    ) -> Result<Unstored<()>, Failed<LaneEnd<M>, ()>>
        ensures { IfErr result (FailsMoving MayRefuseClose end) }
    {
        let mut end = end;
        for _ in rt.forever() {
            match self.board.close_lane(rt, end) {
                Ok(()) => return Ok(Unstored::of(())),
                Err((back, Refusal::JournalFull)) => {
                    if let Err(fault) = self.store(rt) {
                        return Err(Failed::Unmade(fault, back));
                    }
                    end = back;
                }
                Err((back, refusal)) => return Err(Failed::Refused(refusal, back)),
            }
        }
        unreachable!()
    }

    /// Closes an open lane at once, and drops the messages in its ring, as `Switchboard::abandon_lane` does. That adds no entry.
    pub fn abandon_lane<R: Wait>(&self, rt: &R, lane: u64) -> Result<(), Refusal>
        ensures { IfErr result (λ refusal. refusal ≡ NoSuch) }
    {
        self.board.abandon_lane(rt, lane)
    }

    /// Opens a feed, as `Switchboard::open_feed` does, and stores the entry of its port.
    pub fn open_feed<R: Wait>(
        &self,
        rt: &R,
        channel: Name,
        capacity: usize,
    ) -> Result<(Feed<M>, u64), Failed<(), (Feed<M>, u64)>>
        requires least { 1 ≤ capacity }
        requires most { capacity ≤ MAX_CAPACITY }
        ensures feed { IfOk result (λ feed. feed.0 ≡ record { ring = feed.0.ring; number = feed.1; port = feed.0.port; capacity = capacity; taken = [] }) }
        ensures failed { IfErr result (FailsMoving MayRefuseFeed tt) }
    {
        if let Err(fault) = self.make_up(rt) {
            return Err(Failed::Unmade(fault, ()));
        }
        match self.open_unstored(rt, channel, capacity) {
            Ok(feed) => self.keep(rt, feed),
            Err(failed) => Err(failed),
        }
    }

    fn open_unstored<R: Wait>(
        &self,
        rt: &R,
        channel: Name,
        capacity: usize,
    ) -> Result<Unstored<(Feed<M>, u64)>, Failed<(), (Feed<M>, u64)>>
        requires least { 1 ≤ capacity }
        requires most { capacity ≤ MAX_CAPACITY }
        ensures feed { IfOk result (λ feed. feed.value.0 ≡ record { ring = feed.value.0.ring; number = feed.value.1; port = feed.value.0.port; capacity = capacity; taken = [] }) }
        ensures failed { IfErr result (FailsMoving MayRefuseFeed tt) }
    {
        until_room!(self, rt, self.board.open_feed(rt, channel, capacity));
        unreachable!()
    }

    /// Receives the messages that an open feed's port is owed into the feed's ring, as `Switchboard::pump` does, and stores that.
    /// Returns how many: call it again until it moves none. The feed's thread may take them before they are stored.
    pub fn pump<R: Wait>(&self, rt: &R, feed: u64) -> Result<usize, Failed<(), usize>>
        ensures { IfErr result (FailsMoving MayRefuseDrain tt) }
    {
        if let Err(fault) = self.make_up(rt) {
            return Err(Failed::Unmade(fault, ()));
        }
        match self.pump_unstored(rt, feed) {
            Ok(moved) => self.keep(rt, moved),
            Err(failed) => Err(failed),
        }
    }

    fn pump_unstored<R: Wait>(
        &self,
        rt: &R,
        feed: u64,
    ) -> Result<Unstored<usize>, Failed<(), usize>>
        ensures { IfErr result (FailsMoving MayRefuseDrain tt) }
    {
        until_room!(self, rt, self.board.pump(rt, feed));
        unreachable!()
    }

    /// Ends an open feed for good, as `Switchboard::end_feed` does. That adds no entry.
    pub fn end_feed<R: Wait>(&self, rt: &R, feed: u64) -> Result<Option<FeedEnd<M>>, Refusal>
        ensures end { IfOk result (λ end. IfSome end (λ whole. whole.number ≡ feed)) }
        ensures refused { IfErr result (λ refusal. refusal ≡ NoSuch) }
    {
        self.board.end_feed(rt, feed)
    }
}
