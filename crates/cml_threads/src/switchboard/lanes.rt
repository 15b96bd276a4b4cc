//! Lanes onto a switchboard, which their senders use without its lock.
ghost use Rattle.std.specs.Prelude.{◌≡◌, ◌≤◌, ◌<◌, false, [], IfOk, IfErr};
ghost use Rattle.cml_board.specs.declared.outcome.Refusal.TheVariants.{NoSuch};
ghost use Rattle.cml_threads.specs.{MayRefuseLane, MayRefuseDrain, MayRefuseClose};

use super::Switchboard;
use cml_board::{Message, Name, Refusal};
use cml_lanes::{Lane, LaneEnd, MAX_CAPACITY};
use cml_log::MessageLog;
use std::sync::Wait;
use std::sync::ledger::Ledger;

impl<M: Message, L: MessageLog<M>, Led: Ledger> Switchboard<M, L, Led> {
    /// Opens a lane to a mailbox or a channel, with room for `capacity` messages. Returns the lane and its number. While a
    /// lane is open no call fails with `Stalled`, so close, drop or abandon it in the end. Fails with `NoSuch`, `WrongKind`
    /// or `NoMemory`.
    pub fn open_lane<R: Wait>(
        &self,
        rt: &R,
        target: Name,
        capacity: usize,
    ) -> Result<(Lane<M>, u64), Refusal>
        requires least { 1 ≤ capacity }
        requires most { capacity ≤ MAX_CAPACITY }
        ensures lane { IfOk result (λ lane. lane.0 ≡ record { ring = lane.0.ring; number = lane.1; capacity = capacity; accepted = [] }) }
        ensures refused { IfErr result MayRefuseLane }
    {
        let mut turn = self.locked.lock(rt);
        let told = turn.hall().open_lane(target, capacity);
        self.locked.unlock(turn);
        told
    }

    /// Moves the messages that it sees in a lane's ring into the journal, in order, each as a call of the lane. Returns how
    /// many it moved, and wakes a thread that waits for them. It stops at a message whose call fails. Fails with `JournalFull`
    /// or `NoMemory` only if the first call does, and with `NoSuch` if no open lane has the number.
    pub fn drain<R: Wait>(&self, rt: &R, lane: u64) -> Result<usize, Refusal>
        ensures { IfErr result MayRefuseDrain }
    {
        let mut turn = self.locked.lock(rt);
        let told = turn.hall().drain(lane);
        self.locked.unlock(turn);
        told
    }

    /// Moves the messages that it sees on a finished lane, and wakes a thread that waits for them. Then it closes the lane if
    /// the journal has as many of its messages as the end says, as `Hall::close_counted` does. Fails with `Unseen` if it has
    /// not, and with `NoSuch`, `JournalFull` or `NoMemory`. If it fails, it returns the end, and may have moved some.
    pub fn close_lane<R: Wait>(&self, rt: &R, end: LaneEnd<M>) -> Result<(), (LaneEnd<M>, Refusal)>
        ensures { IfErr result (λ failed. (failed.0 ≡ end) × MayRefuseClose failed.1) }
    {
        let mut turn = self.locked.lock(rt);
        let told = turn.hall().close_counted(end);
        self.locked.unlock(turn);
        told
    }

    /// Moves the messages that it sees on a lane, and closes the lane if none was refused. Returns how many it moved, and
    /// whether the lane is closed. Wakes a thread that waits for them. Fails as `drain` does.
    pub fn drop_lane<R: Wait>(&self, rt: &R, lane: u64) -> Result<(usize, bool), Refusal>
        ensures stopped { IfOk result (λ told. told.1 ≡ false → 0 < told.0) }
        ensures refused { IfErr result MayRefuseDrain }
    {
        let mut turn = self.locked.lock(rt);
        let told = turn.hall().drop_lane(lane);
        self.locked.unlock(turn);
        told
    }

    /// Closes an open lane at once, and drops the messages in its ring. If no seat can go on then, all blocked calls are made
    /// again, since they may be stalled. Fails with `NoSuch` if no open lane has the number.
    pub fn abandon_lane<R: Wait>(&self, rt: &R, lane: u64) -> Result<(), Refusal>
        ensures { IfErr result (λ refusal. refusal ≡ NoSuch) }
    {
        let mut turn = self.locked.lock(rt);
        let told = turn.hall().abandon_lane(lane);
        self.locked.unlock(turn);
        told
    }
}
