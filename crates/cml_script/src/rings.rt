//! The rings of one thread: its open lanes, and its feeds.
ghost use Rattle.std.specs.Prelude.{◌≤◌, ◌<◌, vec_len};

use cml_board::{BoardLog, Name, Refusal, Text};
use cml_lanes::{Feed, Lane, LaneFull};
use cml_report::Tally;
use cml_threads::Switchboard;
use std::alloc::{AllocError, Global};
use std::mem;
use std::sync::Wait;
use std::sync::ledger::Ledger;

/// As many messages as a feed's ring has room for at most.
const MOST: usize = 1_024;

/// The switchboard of a run, whose messages are texts.
pub type Texts<Led> = Switchboard<Text, BoardLog<Text>, Led>;

/// A lane that is open, and the object that it goes to.
#[derive(Drop)]
struct OpenLane {
    target: Name,
    lane: Lane<Text>,
}

/// A feed, and how many messages its thread took from it.
#[derive(Drop)]
pub struct Subscription {
    feed: Feed<Text>,
    taken: u64,
}

impl Subscription {
    /// Takes the next message of the ring: whether there was one.
    fn take(&mut self) -> bool {
        let is_there = self.feed.recv().is_some();
        self.taken = self.taken.saturating_add(u64::from(is_there));
        is_there
    }

    /// Takes what is left in the ring of a feed that has ended.
    fn take_rest(&mut self) {
        for _ in 0..MOST {
            if !self.take() {
                return;
            }
        }
    }
}

/// The lanes that a thread has open and the feeds that it has, the numbers of all lanes that it opened, and how many of its steps
/// went by them.
#[derive(Drop)]
pub struct Rings {
    lanes: Vec<OpenLane>,
    opened: Vec<u64>,
    feeds: Vec<Subscription>,
    performed: usize,
}

impl Rings {
    pub fn new(alloc: Global) -> Rings {
        Rings {
            lanes: Vec::new(alloc),
            opened: Vec::new(alloc),
            feeds: Vec::new(alloc),
            performed: 0,
        }
    }

    /// Opens a feed from a channel, and returns its port.
    pub fn open_feed<Led: Ledger, R: Wait>(
        &mut self,
        rt: &R,
        switchboard: &Texts<Led>,
        channel: Name,
        capacity: usize,
    ) -> Result<Name, Refusal>
        requires least { 1 ≤ capacity }
        requires most { capacity ≤ 1024 }
    {
        if self.feeds.reserve(1).is_err() {
            return Err(Refusal::NoMemory);
        }
        let (feed, _) = switchboard.open_feed(rt, channel, capacity)?;
        let port = feed.port();
        self.feeds.push_reserved(Subscription { feed, taken: 0 });
        Ok(port)
    }

    /// Sends a message by the lane to this object, and opens one if none is open. If the lane has no room, drains it. If it
    /// has no room then, closes it, and opens another.
    pub fn send<Led: Ledger, R: Wait>(
        &mut self,
        rt: &R,
        switchboard: &Texts<Led>,
        target: Name,
        capacity: usize,
        message: Text,
    ) -> Result<(), Refusal>
        requires least { 1 ≤ capacity }
        requires most { capacity ≤ 1024 }
    {
        let unsent = match self.lanes.iter().position(|open| open.target == target) {
            Some(at) => self.send_on(rt, switchboard, at, message)?,
            None => Some(message),
        };
        if let Some(message) = unsent {
            if self.lanes.reserve(1).is_err() || self.opened.reserve(1).is_err() {
                return Err(Refusal::NoMemory);
            }
            let (mut lane, _) = switchboard.open_lane(rt, target, capacity)?;
            if lane.send(message).is_err() {
                unreachable!();
            }
            self.opened.push_reserved(lane.number());
            self.lanes.push_reserved(OpenLane { target, lane });
        }
        self.performed = self.performed.saturating_add(1);
        Ok(())
    }

    /// Sends a message on an open lane, or returns the message if the lane has no room for it. If it has none even after a
    /// drain, closes it.
    fn send_on<Led: Ledger, R: Wait>(
        &mut self,
        rt: &R,
        switchboard: &Texts<Led>,
        at: usize,
        message: Text,
    ) -> Result<Option<Text>, Refusal>
        requires { at < vec_len self.old.lanes }
    {
        let Err(LaneFull(message)) = self.lanes[at].lane.send(message) else {
            return Ok(None);
        };
        switchboard.drain(rt, self.lanes[at].lane.number())?;
        let Err(LaneFull(message)) = self.lanes[at].lane.send(message) else {
            return Ok(None);
        };
        let full = self.lanes.swap_remove(at);
        close(rt, switchboard, full.lane)?;
        Ok(Some(message))
    }

    /// Polls a feed. If its ring has no message, pumps what the feed is owed once.
    pub fn poll<Led: Ledger, R: Wait>(
        &mut self,
        rt: &R,
        switchboard: &Texts<Led>,
        number: u64,
    ) -> Result<(), Refusal> {
        for subscription in self.feeds.iter_mut() {
            if subscription.feed.number() == number {
                if !subscription.take() {
                    switchboard.pump(rt, number)?;
                    subscription.take();
                }
                self.performed = self.performed.saturating_add(1);
                return Ok(());
            }
        }
        Err(Refusal::NoSuch)
    }

    /// Closes all lanes. If one cannot be closed, the others stay open.
    pub fn close_lanes<Led: Ledger, R: Wait>(
        &mut self,
        rt: &R,
        switchboard: &Texts<Led>,
    ) -> Result<(), Refusal> {
        while let Some(open) = self.lanes.pop() {
            close(rt, switchboard, open.lane)?;
        }
        Ok(())
    }

    /// Ends what is left at a thread's end: abandons open lanes, and ends feeds.
    pub fn end<Led: Ledger, R: Wait>(mut self, rt: &R, switchboard: &Texts<Led>) -> Rings {
        self.abandon_lanes(rt, switchboard);
        self.end_feeds(rt, switchboard);
        self
    }

    /// Abandons all lanes that are open: what they have in their rings is lost.
    fn abandon_lanes<Led: Ledger, R: Wait>(&mut self, rt: &R, switchboard: &Texts<Led>) {
        while let Some(open) = self.lanes.pop() {
            let _ = switchboard.abandon_lane(rt, open.lane.number());
        }
    }

    /// Ends all feeds, and takes what is left in their rings.
    fn end_feeds<Led: Ledger, R: Wait>(&mut self, rt: &R, switchboard: &Texts<Led>) {
        for subscription in self.feeds.iter_mut() {
            let _ = switchboard.end_feed(rt, subscription.feed.number());
            subscription.take_rest();
        }
    }

    /// Returns all feeds, in the order in which they were opened.
    pub fn hand_feeds(&mut self, alloc: Global) -> Vec<Subscription> {
        mem::replace(&mut self.feeds, Vec::new(alloc))
    }

    /// Takes a feed that another thread opened.
    pub fn take_feed(&mut self, feed: Subscription) -> Result<(), AllocError> {
        self.feeds.push(feed)?;
        Ok(())
    }

    /// How many lanes the thread opened.
    pub fn opened(&self) -> usize {
        self.opened.len()
    }

    /// Adds what went by them to a tally, and which lanes the thread with this seat opened.
    pub fn tell(&self, seat: u64, tally: &mut Tally) {
        tally.add_steps(self.performed);
        for lane in &self.opened {
            tally.set_lane(*lane, seat);
        }
        self.tell_feeds(tally);
    }

    /// Adds what was taken from the feeds to a tally.
    fn tell_feeds(&self, tally: &mut Tally) {
        for subscription in &self.feeds {
            tally.set_taken(subscription.feed.number(), subscription.taken);
        }
    }
}

/// Closes a lane. If that fails, abandons it: the messages left in its ring are lost.
fn close<Led: Ledger, R: Wait>(
    rt: &R,
    switchboard: &Texts<Led>,
    lane: Lane<Text>,
) -> Result<(), Refusal> {
    let number = lane.number();
    let told = finish(rt, switchboard, lane);
    if told.is_err() {
        let _ = switchboard.abandon_lane(rt, number);
    }
    told
}

/// Finishes a lane, and closes it.
fn finish<Led: Ledger, R: Wait>(
    rt: &R,
    switchboard: &Texts<Led>,
    lane: Lane<Text>,
) -> Result<(), Refusal> {
    let number = lane.number();
    let Some(end) = lane.finish() else {
        return drop_lane(rt, switchboard, number);
    };
    match switchboard.close_lane(rt, end) {
        Ok(()) => Ok(()),
        Err((_, Refusal::Unseen)) => drop_lane(rt, switchboard, number),
        Err((_, refusal)) => Err(refusal),
    }
}

/// Closes a lane without its end. Each turn except the last moves what it can.
fn drop_lane<Led: Ledger, R: Wait>(
    rt: &R,
    switchboard: &Texts<Led>,
    number: u64,
) -> Result<(), Refusal> {
    for _ in rt.forever() {
        let (_, is_closed) = switchboard.drop_lane(rt, number)?;
        if is_closed {
            return Ok(());
        }
    }
    unreachable!()
}
