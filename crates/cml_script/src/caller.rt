//! The callers that make a thread's calls.
ghost use Rattle.std.specs.Prelude.{◌≡◌, Bool, true, Option, Some, None, IfOk, IfErr, OnOk};
ghost use Rattle.std.specs.Option.{option_map};
ghost use Rattle.cml_threads.specs.{suits};
ghost use Rattle.cml_grammar.specs.{IsCapacity};
ghost use Rattle.cml_script.specs.Apart.{by_lane, by_feed};
ghost use Rattle.cml_script.specs.Working.{Made, MayCall, with_call, with_feed, with_apart, with_closed, with_refused};

use crate::rings::{Rings, Subscription};
use cml_board::{Answer, BoardLog, Call, Name, Refusal, Text};
use cml_threads::{Left, Seat, Switchboard};
use std::alloc::{AllocError, Global};
use std::sync::Wait;
use std::sync::ledger::Ledger;

/// A caller makes the calls of one thread. Once a call fails, it makes no more.
pub trait Caller {
    /// What it says of itself, if it does: its seat, its entries in the journal and what went by its lanes and feeds, both
    /// newest first, whether a lane may be open, and the refusal of a failed call. Its entries are without those of rings.
    ghost made: { Self → Option Made };

    /// Whether no call has failed.
    ghost goes_on: { Self → Bool };

    /// Makes a call of its seat.
    fn call(&mut self, call: Call<Text>) -> Result<Answer<Text>, Refusal>
        requires goes_on { goes_on self.old ≡ true }
        requires closed { MayCall call (made self.old) }
        ensures goes_on { IfOk result (λ _. goes_on self.new ≡ true) }
        ensures call { IfOk result (λ answer. answer.call ≡ call) }
        ensures reply { IfOk result (λ answer. suits call answer.reply ≡ true) }
        ensures made { IfOk result (λ answer. made self.new ≡ option_map (with_call call answer.reply) (made self.old)) }
        ensures refused { IfErr result (λ refusal. made self.new ≡ option_map (with_refused refusal) (made self.old)) };

    /// Opens a feed from a channel, and returns its port.
    fn open_feed(&mut self, channel: Name, capacity: usize) -> Result<Name, Refusal>
        requires goes_on { goes_on self.old ≡ true }
        requires capacity { IsCapacity capacity }
        ensures goes_on { IfOk result (λ _. goes_on self.new ≡ true) }
        ensures made { IfOk result (λ port. made self.new ≡ option_map (with_feed channel capacity port) (made self.old)) }
        ensures refused { IfErr result (λ refusal. made self.new ≡ option_map (with_refused refusal) (made self.old)) };

    /// Sends a message by a lane to this object, which has room for `capacity` messages.
    fn send_apart(&mut self, target: Name, capacity: usize, message: Text) -> Result<(), Refusal>
        requires goes_on { goes_on self.old ≡ true }
        requires capacity { IsCapacity capacity }
        ensures goes_on { OnOk result (goes_on self.new ≡ true) }
        ensures made { OnOk result (made self.new ≡ option_map (with_apart (by_lane target capacity message)) (made self.old)) }
        ensures refused { IfErr result (λ refusal. made self.new ≡ option_map (with_refused refusal) (made self.old)) };

    /// Polls its feed of this number.
    fn poll_apart(&mut self, feed: usize) -> Result<(), Refusal>
        requires { goes_on self.old ≡ true }
        ensures goes_on { OnOk result (goes_on self.new ≡ true) }
        ensures made { OnOk result (made self.new ≡ option_map (with_apart (by_feed feed)) (made self.old)) }
        ensures refused { IfErr result (λ refusal. made self.new ≡ option_map (with_refused refusal) (made self.old)) };

    /// Records that there was no memory for its next call, as if the call had been made and had failed.
    fn lack_memory(&mut self) -> Refusal
        requires { goes_on self.old ≡ true }
        ensures refusal { result ≡ Refusal.NoMemory }
        ensures made { made self.new ≡ option_map (with_refused Refusal.NoMemory) (made self.old) };

    /// Closes all lanes that it has open.
    fn close_lanes(&mut self) -> Result<(), Refusal>
        requires { goes_on self.old ≡ true }
        ensures goes_on { OnOk result (goes_on self.new ≡ true) }
        ensures made { OnOk result (made self.new ≡ option_map with_closed (made self.old)) }
        ensures refused { IfErr result (λ refusal. made self.new ≡ option_map (with_refused refusal) (made self.old)) };
}

/// A thread of a switchboard, with its lanes and feeds. Only the journal keeps the answers that it got.
#[derive(Drop)]
pub struct Seated<'a, Led: Ledger, R: Wait> {
    rt: &'a R,
    switchboard: &'a Switchboard<Text, BoardLog<Text>, Led>,
    seat: Seat<Led>,
    rings: Rings,
}

impl<'a, Led: Ledger, R: Wait> Seated<'a, Led, R> {
    /// Makes a caller of this seat, with no lane and no feed yet.
    pub fn new(
        alloc: Global,
        rt: &'a R,
        switchboard: &'a Switchboard<Text, BoardLog<Text>, Led>,
        seat: Seat<Led>,
    ) -> Seated<'a, Led, R> {
        Seated {
            rt,
            switchboard,
            seat,
            rings: Rings::new(alloc),
        }
    }

    /// Leaves the seat, so that no thread waits for it. Before that it abandons its open lanes, ends its feeds, and takes what
    /// is left in the feeds' rings.
    pub fn leave(self) -> (Left<Led>, Rings)
        ensures { result.0 ≡ self.entry.seat }
    {
        let Seated {
            rt,
            switchboard,
            seat,
            rings,
        } = self;
        let rings = rings.end(rt, switchboard);
        (switchboard.leave(rt, seat), rings)
    }

    /// Returns the feeds that it opened, in the order in which it did.
    pub(crate) fn hand_feeds(&mut self, alloc: Global) -> Vec<Subscription> {
        self.rings.hand_feeds(alloc)
    }

    /// Takes a feed that another caller opened.
    pub(crate) fn take_feed(&mut self, feed: Subscription) -> Result<(), AllocError> {
        self.rings.take_feed(feed)
    }
}

impl<'a, Led: Ledger, R: Wait> Caller for Seated<'a, Led, R> {
    ghost made = { λ _. None };

    ghost goes_on = { λ _. true };

    fn call(&mut self, call: Call<Text>) -> Result<Answer<Text>, Refusal> {
        match self.switchboard.call(self.rt, &mut self.seat, call) {
            Ok(answer) => Ok(answer),
            Err((refusal, _)) => Err(refusal),
        }
    }

    fn open_feed(&mut self, channel: Name, capacity: usize) -> Result<Name, Refusal> {
        self.rings
            .open_feed(self.rt, self.switchboard, channel, capacity)
    }

    fn send_apart(&mut self, target: Name, capacity: usize, message: Text) -> Result<(), Refusal> {
        self.rings
            .send(self.rt, self.switchboard, target, capacity, message)
    }

    fn poll_apart(&mut self, feed: usize) -> Result<(), Refusal> {
        self.rings.poll(self.rt, self.switchboard, feed as u64)
    }

    fn lack_memory(&mut self) -> Refusal {
        Refusal::NoMemory
    }

    fn close_lanes(&mut self) -> Result<(), Refusal> {
        self.rings.close_lanes(self.rt, self.switchboard)
    }
}
