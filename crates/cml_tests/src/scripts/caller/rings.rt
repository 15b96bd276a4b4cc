//! A floor of one caller, and the ends of its rings that threads would have.
ghost use Rattle.std.specs.Prelude.{◌≡◌, ◌^◌, ◌<◌, ◌≤◌, true, [], length, OnOk, OnErr, IfOk, IfSome};
ghost use Rattle.cml_tests.specs.{asked, with_call, with_feed, IsUnasked};
ghost use Rattle.cml_threads.specs.{suits};
ghost use Rattle.cml_grammar.specs.{IsCapacity};

use cml_board::{Answer, Board, BoardLog, Call, Name, Outcome, Refusal, Text};
use cml_lanes::{Feed, Floor, Lane, LaneFull};
use std::alloc::{AllocError, Global};
use std::marker::Model;

/// A lane that is open, and the object that it goes to.
#[derive(Drop)]
struct OpenLane {
    target: Name,
    lane: Lane<Text>,
}

/// A floor, the lanes that are open on it, and its feeds, by their numbers. No other caller is there: a call that would wait
/// is stalled.
#[derive(Drop)]
pub struct Rings {
    floor: Floor<Text, BoardLog<Text>>,
    lanes: Vec<OpenLane>,
    feeds: Vec<Feed<Text>>,
}

impl Model for Rings {
    ghost use Rattle.cml_tests.specs.Rings.{RingsShown, asked};

    ghost Value = { RingsShown };

    ghost use Rattle.std.specs.Prelude.{◌≡◌, length};

    ghost view = { λ r. record { asked = asked r.floor.board.history; lanes = length r.lanes.items; feeds = length r.feeds.items } };

    ghost invariant = { λ r. length r.floor.feeds ≡ length r.feeds.items };
}

impl Rings {
    /// A floor on which nothing was done.
    pub fn new(alloc: Global, limit: u64) -> Result<Rings, AllocError>
        requires least { 1 ≤ limit }
        requires most { limit ≤ 2 ^ 32 }
        ensures { IfOk result (λ rings. rings ≡ record { asked = []; lanes = 0; feeds = 0 }) }
    {
        let board = Board::new(alloc, limit)?;
        Ok(Rings {
            floor: Floor::new(alloc, board),
            lanes: Vec::new(alloc),
            feeds: Vec::new(alloc),
        })
    }

    pub fn board(&self) -> &Board<Text, BoardLog<Text>>
        ensures { asked result.now.history ≡ self.now.asked }
    {
        self.floor.board()
    }

    /// How many feeds were opened.
    pub fn feeds(&self) -> usize
        ensures { result ≡ self.now.feeds }
    {
        self.feeds.len()
    }

    /// Makes a call of a seat.
    pub fn apply(&mut self, seat: u64, call: Call<Text>) -> Result<Answer<Text>, Refusal>
        ensures made { IfOk result (λ answer. self.new ≡ with_call seat call answer.reply self.old) }
        ensures refused { OnErr result (self.new ≡ self.old) }
        ensures call { IfOk result (λ answer. answer.call ≡ call) }
        ensures reply { IfOk result (λ answer. suits call answer.reply ≡ true) }
    {
        match self.floor.apply(seat, call) {
            Outcome::Answered(answer) => Ok(answer),
            Outcome::WouldWait(call) => Err(give_up(call, Refusal::Stalled)),
            Outcome::Refused(refusal, call) => Err(give_up(call, refusal)),
        }
    }

    /// Opens a feed from a channel, and returns its port. Its number is how many were opened before.
    pub fn open_feed(&mut self, channel: Name, capacity: usize) -> Result<Name, Refusal>
        requires { IsCapacity capacity }
        ensures opened { IfOk result (λ port. self.new ≡ with_feed channel port self.old) }
        ensures refused { OnErr result (self.new ≡ self.old) }
    {
        if self.feeds.reserve(1).is_err() {
            return Err(Refusal::NoMemory);
        }
        let (feed, _) = self.floor.open_feed(channel, capacity)?;
        let port = feed.port();
        self.feeds.push_reserved(feed);
        Ok(port)
    }

    /// Sends a message by the lane to this object, and opens one if none is open. If the lane has no room, drains it. If it
    /// has no room then, closes it, and opens another.
    pub fn send(&mut self, target: Name, capacity: usize, message: Text) -> Result<(), Refusal>
        requires { IsCapacity capacity }
        ensures same { self.new ≡ record self.old { lanes = self.new.lanes } }
        ensures refused { OnErr result (self.new.lanes ≤ self.old.lanes) }
    {
        let unsent = match self.lanes.iter().position(|open| open.target == target) {
            Some(at) => self.send_on(at, message)?,
            None => Some(message),
        };
        match unsent {
            Some(message) => self.send_first(target, capacity, message),
            None => Ok(()),
        }
    }

    /// Sends a message on an open lane, or returns the message if the lane has no room for it. If it has none even after a
    /// drain, closes it.
    fn send_on(&mut self, at: usize, message: Text) -> Result<Option<Text>, Refusal>
        requires { at < self.old.lanes }
        ensures same { self.new ≡ record self.old { lanes = self.new.lanes } }
        ensures lanes { self.new.lanes ≤ self.old.lanes }
        ensures unsent { IfOk result (λ unsent. IfSome unsent (λ unsent. unsent ≡ message)) }
    {
        let Err(LaneFull(message)) = self.lanes[at].lane.send(message) else {
            return Ok(None);
        };
        drain(&mut self.floor, self.lanes[at].lane.number())?;
        let Err(LaneFull(message)) = self.lanes[at].lane.send(message) else {
            return Ok(None);
        };
        let full = self.lanes.swap_remove(at);
        close(&mut self.floor, full.lane)?;
        Ok(Some(message))
    }

    /// Opens a lane, and sends its first message.
    fn send_first(&mut self, target: Name, capacity: usize, message: Text) -> Result<(), Refusal>
        requires { IsCapacity capacity }
        ensures same { self.new ≡ record self.old { lanes = self.new.lanes } }
        ensures refused { OnErr result (self.new.lanes ≡ self.old.lanes) }
    {
        if self.lanes.reserve(1).is_err() {
            return Err(Refusal::NoMemory);
        }
        let (mut lane, _) = self.floor.open_lane(target, capacity)?;
        if lane.send(message).is_err() {
            unreachable!();
        }
        self.lanes.push_reserved(OpenLane { target, lane });
        Ok(())
    }

    /// Takes the next message of a feed. If its ring has none, pumps what the feed is owed once.
    pub fn poll(&mut self, feed: usize) -> Result<(), Refusal>
        ensures { self.new ≡ self.old }
    {
        if feed >= self.feeds.len() {
            return Err(Refusal::NoSuch);
        }
        if self.feeds[feed].recv().is_some() {
            return Ok(());
        }
        pump(&mut self.floor, self.feeds[feed].number())?;
        let _ = self.feeds[feed].recv();
        Ok(())
    }

    /// Closes all lanes. If one cannot be closed, the others stay open.
    pub fn close_lanes(&mut self) -> Result<(), Refusal>
        ensures closed { OnOk result (self.new.lanes ≡ 0) }
        ensures refused { OnErr result (self.new.lanes ≤ self.old.lanes) }
        ensures same { self.new ≡ record self.old { lanes = self.new.lanes } }
    {
        while let Some(open) = self.lanes.pop() {
            close(&mut self.floor, open.lane)?;
        }
        Ok(())
    }

    /// Abandons all lanes that are open: what they have in their rings is lost.
    pub fn abandon_lanes(&mut self)
        ensures { self.new ≡ record self.old { lanes = 0 } }
    {
        while let Some(open) = self.lanes.pop() {
            abandon(&mut self.floor, open.lane.number());
        }
    }
}

/// Drops a call that is not answered, and returns why.
fn give_up(_call: Call<Text>, refusal: Refusal) -> Refusal
    ensures { result ≡ refusal }
{
    refusal
}

/// Moves what is in a lane's ring.
fn drain(floor: &mut Floor<Text, BoardLog<Text>>, lane: u64) -> Result<usize, Refusal>
    ensures { IsUnasked floor.old floor.new }
{
    floor.drain(lane)
}

/// Pumps a feed.
fn pump(floor: &mut Floor<Text, BoardLog<Text>>, feed: u64) -> Result<usize, Refusal>
    ensures { IsUnasked floor.old floor.new }
{
    floor.pump(feed)
}

/// Closes a lane. If that fails, abandons it: the messages left in its ring are lost.
fn close(floor: &mut Floor<Text, BoardLog<Text>>, lane: Lane<Text>) -> Result<(), Refusal>
    ensures { IsUnasked floor.old floor.new }
{
    let number = lane.number();
    let told = finish(floor, lane);
    if told.is_err() {
        abandon(floor, number);
    }
    told
}

/// Finishes a lane, and closes it if all that was sent on it is moved.
fn finish(floor: &mut Floor<Text, BoardLog<Text>>, lane: Lane<Text>) -> Result<(), Refusal>
    ensures { IsUnasked floor.old floor.new }
{
    let Some(end) = lane.finish() else {
        return Err(Refusal::NoSuch);
    };
    match floor.close_counted(end) {
        Ok(()) => Ok(()),
        Err((_, refusal)) => Err(refusal),
    }
}

/// Closes a lane at once.
fn abandon(floor: &mut Floor<Text, BoardLog<Text>>, lane: u64)
    ensures { IsUnasked floor.old floor.new }
{
    let _ = floor.abandon_lane(lane);
}
