//! The calls that open, pump and end feeds.
ghost use Rattle.std.specs.Prelude.{ℕ, ◌≡◌, ◌≤◌, ◌<◌, true, length, IfOk, IfErr, IfNone, IfSome, MatchOption};
ghost use Rattle.cml_board.specs.declared.call.Call.TheVariants.{NewPort};
ghost use Rattle.cml_board.specs.{Fits, Lawful, HasRoom, IsAsBefore, Refuses};
ghost use Rattle.cml_lanes.specs.{is_open_feed, stays, OnFeed, KeepsRings, SameFeedRing, MakesPort, OpensAFeed, Pumps, PumpsUntil};
ghost use Rattle.cml_lanes.specs.Feeds.{Ends};

use super::Floor;
use crate::MAX_CAPACITY;
use crate::feed::{Feed, FeedEnd};
use crate::inner_feed::InnerFeed;
use cml_board::{Board, Call, Kind, Message, Name, Outcome, Refusal, Reply, Who};
use cml_log::MessageLog;
use rtrb::RingBuffer;

impl<M: Message, L: MessageLog<M>> Floor<M, L> {
    /// Opens a feed of what is multicast on a channel from now on, with room for `capacity` messages in its ring. Makes the
    /// feed's port. Returns the feed and its number. Fails with `NoSuch`, `WrongKind` or `JournalFull` if making the port
    /// would, and with `NoMemory`.
    pub fn open_feed(&mut self, channel: Name, capacity: usize) -> Result<(Feed<M>, u64), Refusal>
        requires least { 1 ≤ capacity }
        requires most { capacity ≤ MAX_CAPACITY }
        ensures opens { OpensAFeed L.CHUNK M.SURE self.old self.new channel capacity result }
        ensures rings { (number : ℕ) → number < length self.old.feeds → SameFeedRing number self.old self.new }
    {
        // The other refusals of the port come before any memory is allocated.
        if let Some(refusal) = port_refusal(&self.board, channel) {
            return Err(refusal);
        }
        let Ok((producer, consumer)) = RingBuffer::new(self.alloc, capacity) else {
            return Err(Refusal::NoMemory);
        };
        if self.feeds.reserve().is_err() {
            return Err(Refusal::NoMemory);
        }
        let number = self.feeds.count() as u64;
        let port = make_port(&mut self.board, number, channel)?;
        self.feeds.add(InnerFeed::new(producer, port));
        Ok((Feed::new(consumer, number, port), number))
    }

    /// Receives the messages that an open feed's port is owed into the feed's ring, in order, while it sees a free slot. Each
    /// is a call of the feed. Returns how many. It stops at a message whose call fails. Fails with `JournalFull` or `NoMemory`
    /// only if the first call does, and with `NoSuch` if no open feed has the number.
    pub fn pump(&mut self, feed: u64) -> Result<usize, Refusal>
        ensures pumps { Pumps L.CHUNK M.SURE feed self.old self.new result }
        ensures rings { KeepsRings self.old self.new }
    {
        if !self.has_feed(feed) {
            return Err(Refusal::NoSuch);
        }
        let (count, refusal) = self.pump_open(feed);
        let Some(refusal) = refusal else {
            return Ok(count);
        };
        if count == 0 {
            return Err(refusal);
        }
        Ok(count)
    }

    /// Pumps an open feed until a message is refused. Returns how many it pumped, and the refusal.
    fn pump_open(&mut self, feed: u64) -> (usize, Option<Refusal>)
        requires { is_open_feed self.old feed ≡ true }
        ensures until { OnFeed stays feed self.old self.new
            (PumpsUntil L.CHUNK M.SURE feed result.0 result.1 self.old.board self.new.board) }
        ensures rings { KeepsRings self.old self.new }
    {
        self.feeds.pump(&mut self.board, feed)
    }

    /// Ends an open feed for good: nothing more is put into its ring. Returns the end, by which `Feed::rest` returns what is
    /// left there, or `None` if the subscriber has dropped the feed before. The port stays, and is from now on a port like
    /// any other. Fails with `NoSuch` if no open feed has the number.
    pub fn end_feed(&mut self, feed: u64) -> Result<Option<FeedEnd<M>>, Refusal>
        ensures ends { Ends feed self.old self.new result }
        ensures rings { KeepsRings self.old self.new }
    {
        if self.has_feed(feed) {
            return Ok(self.feeds.end(feed));
        }
        Err(Refusal::NoSuch)
    }
}

/// The reason, other than want of memory, why a board would make no port of this channel.
fn port_refusal<M: Message, L: MessageLog<M>>(board: &Board<M, L>, channel: Name) -> Option<Refusal>
    ensures told { MatchOption result (Fits board.now.history (NewPort channel) × HasRoom board.now)
        (λ refusal. Refuses L.CHUNK M.SURE board.now (NewPort channel) refusal) }
    ensures lawful { IfNone result (Lawful board.now.history) }
{
    let Some(kind) = board.kind(channel) else {
        return Some(Refusal::NoSuch);
    };
    if kind != Kind::Channel {
        return Some(Refusal::WrongKind);
    }
    if board.is_full() {
        return Some(Refusal::JournalFull);
    }
    None
}

/// Makes the port of the feed with this number.
fn make_port<M: Message, L: MessageLog<M>>(
    board: &mut Board<M, L>,
    number: u64,
    channel: Name,
) -> Result<Name, Refusal>
    ensures made { IfOk result (λ port. MakesPort number board.old board.new channel port) }
    ensures refused { IfErr result (λ refusal. Refuses L.CHUNK M.SURE board.old (NewPort channel) refusal
        × IsAsBefore board.old board.new) }
{
    match board.apply(Who::Feed(number), Call::NewPort(channel)) {
        Outcome::Answered(answer) => {
            let Reply::Made(port) = answer.into_reply() else {
                unreachable!()
            };
            Ok(port)
        }
        Outcome::WouldWait(_) => unreachable!(),
        Outcome::Refused(refusal, _) => Err(refusal),
    }
}
