//! Feeds from a switchboard's ports, which their subscribers use without its lock.
ghost use Rattle.std.specs.Prelude.{◌≡◌, ◌≤◌, [], IfOk, IfErr, IfSome};
ghost use Rattle.cml_board.specs.declared.outcome.Refusal.TheVariants.{NoSuch};
ghost use Rattle.cml_threads.specs.{MayRefuseFeed, MayRefuseDrain};

use super::Switchboard;
use cml_board::{Message, Name, Refusal};
use cml_lanes::{Feed, FeedEnd, MAX_CAPACITY};
use cml_log::MessageLog;
use std::sync::Wait;
use std::sync::ledger::Ledger;

impl<M: Message, L: MessageLog<M>, Led: Ledger> Switchboard<M, L, Led> {
    /// Opens a feed of what is multicast on a channel from now on, with room for `capacity` messages in its ring. Returns the
    /// feed and its number. While it is open, a seat's call that would receive from its port, poll it or close it fails with
    /// `WrongKind`. Fails with `NoSuch`, `WrongKind`, `JournalFull` or `NoMemory`.
    pub fn open_feed<R: Wait>(
        &self,
        rt: &R,
        channel: Name,
        capacity: usize,
    ) -> Result<(Feed<M>, u64), Refusal>
        requires least { 1 ≤ capacity }
        requires most { capacity ≤ MAX_CAPACITY }
        ensures feed { IfOk result (λ feed. feed.0 ≡ record { ring = feed.0.ring; number = feed.1; port = feed.0.port; capacity = capacity; taken = [] }) }
        ensures refused { IfErr result MayRefuseFeed }
    {
        let mut turn = self.locked.lock(rt);
        let told = turn.hall().open_feed(channel, capacity);
        self.locked.unlock(turn);
        told
    }

    /// Receives the messages that an open feed's port is owed into the feed's ring, in order, while it sees a free slot. Each
    /// is a call of the feed. Returns how many. It stops at a message whose call fails. Fails with `JournalFull` or `NoMemory`
    /// only if the first call does, and with `NoSuch` if no open feed has the number.
    pub fn pump<R: Wait>(&self, rt: &R, feed: u64) -> Result<usize, Refusal>
        ensures { IfErr result MayRefuseDrain }
    {
        let mut turn = self.locked.lock(rt);
        let told = turn.hall().pump(feed);
        self.locked.unlock(turn);
        told
    }

    /// Ends an open feed for good: nothing more is put into its ring. The subscriber still receives what is left there. The
    /// port stays, and is from now on a port like any other. Returns the end for `Feed::rest`, or `None` if the subscriber dropped
    /// the feed before. Fails with `NoSuch` if no open feed has the number.
    pub fn end_feed<R: Wait>(&self, rt: &R, feed: u64) -> Result<Option<FeedEnd<M>>, Refusal>
        ensures end { IfOk result (λ end. IfSome end (λ whole. whole.number ≡ feed)) }
        ensures refused { IfErr result (λ refusal. refusal ≡ NoSuch) }
    {
        let mut turn = self.locked.lock(rt);
        let told = turn.hall().end_feed(feed);
        self.locked.unlock(turn);
        told
    }
}
