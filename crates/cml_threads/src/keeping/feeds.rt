//! Feeds. A call that needs an entry in a full journal makes room first.
ghost use Rattle.std.specs.Prelude.{◌≡◌, ◌≤◌, [], IfOk, IfErr, IfSome};
ghost use Rattle.cml_board.specs.declared.outcome.Refusal.TheVariants.{NoSuch};
ghost use Rattle.cml_threads.specs.{MayRefuseFeed, MayRefuseDrain};
ghost use Rattle.cml_threads.specs.{MayFail};

use super::Keeping;
use super::failure::Failure;
use super::sink::Sink;
use super::start::Start;
use cml_board::{Message, Name, Refusal};
use cml_lanes::{Feed, FeedEnd, MAX_CAPACITY};
use cml_log::MessageLog;
use std::sync::Wait;

impl<M: Message, L: MessageLog<M>, Led: Start<M>, S: Sink<M>> Keeping<M, L, Led, S> {
    /// Opens a feed, as `Switchboard::open_feed` does.
    pub fn open_feed<R: Wait>(
        &self,
        rt: &R,
        channel: Name,
        capacity: usize,
    ) -> Result<(Feed<M>, u64), Failure<S::Error>>
        requires least { 1 ≤ capacity }
        requires most { capacity ≤ MAX_CAPACITY }
        ensures feed { IfOk result (λ feed. feed.0 ≡ record { ring = feed.0.ring; number = feed.1; port = feed.0.port; capacity = capacity; taken = [] }) }
        ensures refused { IfErr result (MayFail MayRefuseFeed) }
    {
        for _ in rt.forever() {
            let seen = self.cuts();
            match self.board.open_feed(rt, channel, capacity) {
                Ok(feed) => return Ok(feed),
                Err(Refusal::JournalFull) => {
                    if let Err(error) = self.make_room_since(rt, seen) {
                        return Err(Failure::NotKept(error));
                    }
                }
                Err(refusal) => return Err(Failure::Refused(refusal)),
            }
        }
        unreachable!()
    }

    /// Receives the messages that an open feed's port is owed into the feed's ring, as `Switchboard::pump` does. Returns how many.
    /// It stops once the journal is full, so call it again until it moves none. If it can't move the first, it makes room.
    pub fn pump<R: Wait>(&self, rt: &R, feed: u64) -> Result<usize, Failure<S::Error>>
        ensures { IfErr result (MayFail MayRefuseDrain) }
    {
        for _ in rt.forever() {
            let seen = self.cuts();
            match self.board.pump(rt, feed) {
                Ok(moved) => return Ok(moved),
                Err(Refusal::JournalFull) => {
                    if let Err(error) = self.make_room_since(rt, seen) {
                        return Err(Failure::NotKept(error));
                    }
                }
                Err(refusal) => return Err(Failure::Refused(refusal)),
            }
        }
        unreachable!()
    }

    /// Ends an open feed for good, as `Switchboard::end_feed` does.
    pub fn end_feed<R: Wait>(&self, rt: &R, feed: u64) -> Result<Option<FeedEnd<M>>, Refusal>
        ensures end { IfOk result (λ end. IfSome end (λ whole. whole.number ≡ feed)) }
        ensures refused { IfErr result (λ refusal. refusal ≡ NoSuch) }
    {
        self.board.end_feed(rt, feed)
    }
}
