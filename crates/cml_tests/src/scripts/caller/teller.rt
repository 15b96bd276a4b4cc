//! A caller alone on a floor.
ghost use Rattle.std.specs.Prelude.{◌≡◌, ◌≤◌, ◌^◌, true, Some, IfOk};
ghost use Rattle.cml_tests.specs.{asked, unmade, EndsWith};

use super::rings::Rings;
use cml_board::{Answer, Board, BoardLog, Call, Name, Refusal, Text};
use cml_script::Caller;
use std::alloc::{AllocError, Global};
use std::marker::Model;

/// What went by a lane or a feed.
#[derive(Drop)]
pub struct Went {
    // The message that was sent by a lane. A poll of a feed has none.
    sent: Option<Text>,
    // The object that the lane goes to.
    target: Name,
    // How many messages the lane has room for, or the number of the feed.
    number: usize,
}

impl Model for Went {
    ghost use Rattle.cml_script.specs.Apart.{Apart};
    ghost use Rattle.cml_tests.specs.Telling.{went_so};

    ghost Value = { Apart };

    ghost view = { λ went. went_so went.sent went.target went.number };
}

/// A caller that makes the calls of one seat after the other, alone on a floor. It says of the present seat which calls were
/// answered, which feeds it opened, and what it sent by lanes and polled of feeds. Since it is alone, those answers are the
/// journal's newest entries, without those of lanes and feeds. So it only counts them: copying an answer could fail after
/// the call is made.
#[derive(Drop)]
pub struct Teller {
    alloc: Global,
    rings: Rings,
    seat: u64,
    told: u64,
    opened: Vec<usize>,
    went: Vec<Went>,
    is_sending: bool,
    refused: Option<Refusal>,
}

impl Model for Teller {
    ghost use Rattle.cml_script.specs.Working.{Made};
    ghost use Rattle.cml_tests.specs.Telling.{made_by};

    ghost Value = { Made };

    ghost use Rattle.std.specs.Prelude.{◌≡◌, false, length, take};
    ghost use Rattle.cml_tests.specs.Telling.{feeds_told};

    ghost view = { λ t. made_by t.seat (take t.told t.rings.asked) t.opened.items t.went.items t.is_sending t.refused };

    // Where it tells that no lane is open none is; and it tells of a feed for each that it opened.
    ghost invariant = { λ t. (t.is_sending ≡ false → t.rings.lanes ≡ 0)
        × (feeds_told (take t.told t.rings.asked) ≡ length t.opened.items) };
}

impl Teller {
    /// The first seat of a floor on which nothing was done.
    pub fn new(alloc: Global, limit: u64) -> Result<Teller, AllocError>
        requires least { 1 ≤ limit }
        requires most { limit ≤ 2 ^ 32 }
        ensures { IfOk result (λ teller. teller ≡ unmade 0) }
    {
        let rings = Rings::new(alloc, limit)?;
        Ok(Teller::seated(alloc, rings, 0))
    }

    /// Goes on at another seat of the floor, when this one is done. What this one left in its lanes is lost.
    pub fn at_seat(self, seat: u64) -> Teller
        ensures { result ≡ unmade seat }
    {
        let mut rings = self.rings;
        rings.abandon_lanes();
        Teller::seated(self.alloc, rings, seat)
    }

    fn seated(alloc: Global, rings: Rings, seat: u64) -> Teller
        requires { rings.lanes ≡ 0 }
        ensures { result ≡ unmade seat }
    {
        Teller {
            alloc,
            rings,
            seat,
            told: 0,
            opened: Vec::new(alloc),
            went: Vec::new(alloc),
            is_sending: false,
            refused: None,
        }
    }

    /// The board. Without what lanes and feeds moved, its journal ends with what this seat made.
    pub fn board(&self) -> &Board<Text, BoardLog<Text>>
        ensures { EndsWith self.now.entries (asked result.now.history) }
    {
        self.rings.board()
    }

    /// Keeps the refusal of a call that failed.
    fn refuse(&mut self, refusal: Refusal) -> Refusal
        ensures refusal { result ≡ refusal }
        ensures told { self.new ≡ record self.old { refused = Some refusal } }
    {
        self.refused = Some(refusal);
        refusal
    }
}

impl Caller for Teller {
    ghost made = { λ teller. Some teller };

    ghost goes_on = { λ _. true };

    fn call(&mut self, call: Call<Text>) -> Result<Answer<Text>, Refusal> {
        // It makes no more calls than it can count.
        let Some(told) = self.told.checked_add(1) else {
            return Err(self.refuse(Refusal::JournalFull));
        };
        match self.rings.apply(self.seat, call) {
            Ok(answer) => {
                self.told = told;
                Ok(answer)
            }
            Err(refusal) => Err(self.refuse(refusal)),
        }
    }

    fn open_feed(&mut self, channel: Name, capacity: usize) -> Result<Name, Refusal> {
        // A seat tells a feed by how many it opened before, so none is opened after another seat's.
        if self.rings.feeds() != self.opened.len() {
            return Err(self.refuse(Refusal::Busy));
        }
        let Some(told) = self.told.checked_add(1) else {
            return Err(self.refuse(Refusal::JournalFull));
        };
        if self.opened.reserve(1).is_err() {
            return Err(self.refuse(Refusal::NoMemory));
        }
        match self.rings.open_feed(channel, capacity) {
            Ok(port) => {
                self.told = told;
                self.opened.push_reserved(capacity);
                Ok(port)
            }
            Err(refusal) => Err(self.refuse(refusal)),
        }
    }

    fn send_apart(&mut self, target: Name, capacity: usize, message: Text) -> Result<(), Refusal> {
        if self.went.reserve(1).is_err() {
            return Err(self.refuse(Refusal::NoMemory));
        }
        // The lane takes the message, and its copy is not to be refused once it was sent.
        let Ok(copy) = message.clone() else {
            return Err(self.refuse(Refusal::NoMemory));
        };
        match self.rings.send(target, capacity, message) {
            Ok(()) => {
                self.went.push_reserved(Went {
                    sent: Some(copy),
                    target,
                    number: capacity,
                });
                self.is_sending = true;
                Ok(())
            }
            Err(refusal) => Err(self.refuse(refusal)),
        }
    }

    fn poll_apart(&mut self, feed: usize) -> Result<(), Refusal> {
        if self.went.reserve(1).is_err() {
            return Err(self.refuse(Refusal::NoMemory));
        }
        match self.rings.poll(feed) {
            Ok(()) => {
                self.went.push_reserved(Went {
                    sent: None,
                    target: Name(0),
                    number: feed,
                });
                Ok(())
            }
            Err(refusal) => Err(self.refuse(refusal)),
        }
    }

    fn lack_memory(&mut self) -> Refusal {
        self.refuse(Refusal::NoMemory)
    }

    fn close_lanes(&mut self) -> Result<(), Refusal> {
        match self.rings.close_lanes() {
            Ok(()) => {
                self.is_sending = false;
                Ok(())
            }
            Err(refusal) => Err(self.refuse(refusal)),
        }
    }
}
