//! Lanes. A call that moves messages into a full journal makes room first.
ghost use Rattle.std.specs.Prelude.{◌≡◌, ◌≤◌, ◌<◌, false, [], IfOk, IfErr};
ghost use Rattle.cml_board.specs.declared.outcome.Refusal.TheVariants.{NoSuch};
ghost use Rattle.cml_threads.specs.{MayRefuseLane, MayRefuseDrain, MayRefuseClose};
ghost use Rattle.cml_threads.specs.{MayFail};

use super::Keeping;
use super::failure::Failure;
use super::sink::Sink;
use super::start::Start;
use cml_board::{Message, Name, Refusal};
use cml_lanes::{Lane, LaneEnd, MAX_CAPACITY};
use cml_log::MessageLog;
use std::sync::Wait;

impl<M: Message, L: MessageLog<M>, Led: Start<M>, S: Sink<M>> Keeping<M, L, Led, S> {
    /// Opens a lane, as `Switchboard::open_lane` does. That adds no entry.
    pub fn open_lane<R: Wait>(
        &self,
        rt: &R,
        target: Name,
        capacity: usize,
    ) -> Result<(Lane<M>, u64), Refusal>
        requires least { 1 ≤ capacity }
        requires most { capacity ≤ MAX_CAPACITY }
        ensures lane { IfOk result (λ lane. lane.0 ≡ record { ring = lane.0.ring; number = lane.1; capacity = capacity; accepted = [] }) }
        ensures refused { IfErr result MayRefuseLane }
    {
        self.board.open_lane(rt, target, capacity)
    }

    /// Moves the messages that it sees in a lane's ring into the journal, as `Switchboard::drain` does. Returns how many it moved.
    /// It stops once the journal is full, so call it again until it moves none. If it can't move the first, it makes room.
    pub fn drain<R: Wait>(&self, rt: &R, lane: u64) -> Result<usize, Failure<S::Error>>
        ensures { IfErr result (MayFail MayRefuseDrain) }
    {
        for _ in rt.forever() {
            let seen = self.cuts();
            match self.board.drain(rt, lane) {
                Ok(moved) => return Ok(moved),
                Err(Refusal::JournalFull) => {
                    if let Err(error) = self.make_room_since(rt, seen) {
                        return Err(Failure::NotKept(error));
                    }
                }
                Err(refusal) => return Err(Failure::Refused(refusal)),
            }
        }
        unreachable!()
    }

    /// Closes a finished lane, as `Switchboard::close_lane` does, and makes room as often as its messages need it. If it fails, it
    /// returns the end, and may have moved some.
    pub fn close_lane<R: Wait>(
        &self,
        rt: &R,
        end: LaneEnd<M>,
    ) -> Result<(), (LaneEnd<M>, Failure<S::Error>)>
        ensures { IfErr result (λ failed. (failed.0 ≡ end) × MayFail MayRefuseClose failed.1) }
    {
        let mut end = end;
        for _ in rt.forever() {
            let seen = self.cuts();
            match self.board.close_lane(rt, end) {
                Ok(()) => return Ok(()),
                Err((back, Refusal::JournalFull)) => {
                    if let Err(error) = self.make_room_since(rt, seen) {
                        return Err((back, Failure::NotKept(error)));
                    }
                    end = back;
                }
                Err((back, refusal)) => return Err((back, Failure::Refused(refusal))),
            }
        }
        unreachable!()
    }

    /// Moves the messages that it sees on a lane, and closes the lane if none was refused, as `Switchboard::drop_lane` does. Returns
    /// how many it moved, and whether the lane is closed. If the lane is still open, call it again.
    pub fn drop_lane<R: Wait>(&self, rt: &R, lane: u64) -> Result<(usize, bool), Failure<S::Error>>
        ensures stopped { IfOk result (λ told. told.1 ≡ false → 0 < told.0) }
        ensures refused { IfErr result (MayFail MayRefuseDrain) }
    {
        for _ in rt.forever() {
            let seen = self.cuts();
            match self.board.drop_lane(rt, lane) {
                Ok(told) => return Ok(told),
                Err(Refusal::JournalFull) => {
                    if let Err(error) = self.make_room_since(rt, seen) {
                        return Err(Failure::NotKept(error));
                    }
                }
                Err(refusal) => return Err(Failure::Refused(refusal)),
            }
        }
        unreachable!()
    }

    /// Closes an open lane at once, and drops the messages in its ring, as `Switchboard::abandon_lane` does.
    pub fn abandon_lane<R: Wait>(&self, rt: &R, lane: u64) -> Result<(), Refusal>
        ensures { IfErr result (λ refusal. refusal ≡ NoSuch) }
    {
        self.board.abandon_lane(rt, lane)
    }
}
