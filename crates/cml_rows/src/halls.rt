//! Tables of calls on a hall with its seats.
ghost use Rattle.std.specs.Prelude.{◌≡◌, ◌^◌};

use crate::cutting::{Journaled, Way};
use crate::ground::Ground;
use crate::ground_table::perform_on;
use crate::moving::Moves;
use crate::numbered::{Maker, Numbered};
use crate::outcome::Numbers;
use crate::told::Told;
use crate::words::limit_in;
use cml_board::{BoardLog, Call, Entry, Name, Outcome, Refusal};
use cml_lanes::{Feed, Lane, LaneEnd, MAX_CAPACITY};
use cml_threads::{Hall, PARTS, Seat};
use std::marker::Brand;
use std::sync::ledger::{Blank, Ledger};

/// Performs the lines of a case on a new hall, which has a new ledger.
pub fn perform<M: Numbered>(told: &mut Told, maker: &Maker<M>, lines: &[String], way: Option<Way>) {
    perform_by::<M, Brand>(told, maker, lines, way, Blank::new(PARTS));
}

fn perform_by<M: Numbered, Led: Ledger>(
    told: &mut Told,
    maker: &Maker<M>,
    lines: &[String],
    way: Option<Way>,
    blank: Blank,
)
    requires name { blank.name ≡ Led.name }
    requires parts { blank.parts ≡ Led.parts }
    requires enough { blank.parts ≡ 2 ^ 63 }
{
    match Hall::<M, BoardLog<M>, Led>::new(maker.alloc, limit_in(lines), blank) {
        Ok(hall) => {
            let seats = Vec::new(maker.alloc);
            perform_on(told, maker, Seated { hall, seats }, lines, way);
        }
        Err(_) => told.lack(),
    }
}

/// A hall, and the seats that it made, each at its number.
#[derive(Drop)]
struct Seated<M: Numbered, Led: Ledger> {
    hall: Hall<M, BoardLog<M>, Led>,
    seats: Vec<Seat<Led>>,
}

impl<M: Numbered, Led: Ledger> Journaled<M> for Seated<M, Led> {
    fn board(&self) -> &Numbers<M> {
        self.hall.board()
    }

    fn cut(&mut self) -> Result<(), Refusal> {
        self.hall.cut()
    }

    fn take_journal(&mut self) -> Result<Vec<Entry<M>>, Refusal> {
        self.hall.take_journal()
    }

    fn cut_open(&mut self) {
        self.hall.cut_open();
    }

    fn take_journal_open(&mut self) -> Vec<Entry<M>> {
        self.hall.take_journal_open()
    }
}

impl<M: Numbered, Led: Ledger> Ground<M> for Seated<M, Led> {
    fn open_rings(&self) -> (u64, u64) {
        (self.hall.open_lanes(), self.hall.open_feeds())
    }

    fn reserve(&mut self, entries: usize) -> Result<(), Refusal> {
        self.hall.reserve(entries)
    }

    fn new_seat(&mut self) -> Result<u64, Refusal> {
        if self.seats.reserve(1).is_err() {
            return Err(Refusal::NoMemory);
        }
        let seat = self.hall.new_seat()?;
        let number = seat.number();
        // There is room for it.
        self.seats.push(seat).is_ok();
        Ok(number)
    }

    fn leave(&mut self, seat: usize) -> Result<(), Refusal> {
        match self.seats.get(seat) {
            Some(seat) => self.hall.leave(seat),
            None => Err(Refusal::Gone),
        }
    }

    fn ask(&mut self, seat: usize, call: Call<M>) -> Outcome<M> {
        match self.seats.get_mut(seat) {
            Some(seat) => self.hall.ask(seat, call),
            None => Outcome::Refused(Refusal::Gone, call),
        }
    }

    fn ask_again(&mut self, seat: usize, call: Call<M>) -> Outcome<M> {
        match self.seats.get_mut(seat) {
            Some(seat) => self.hall.ask_again(seat, call),
            None => Outcome::Refused(Refusal::Gone, call),
        }
    }

    fn open_lane(&mut self, target: Name, capacity: usize) -> Result<(Lane<M>, u64), Refusal> {
        self.hall
            .open_lane(target, capacity.max(1).min(MAX_CAPACITY))
    }

    fn open_feed(&mut self, channel: Name, capacity: usize) -> Result<(Feed<M>, u64), Refusal> {
        self.hall
            .open_feed(channel, capacity.max(1).min(MAX_CAPACITY))
    }

    fn move_some(&mut self, moves: Moves, number: u64) -> Result<(usize, bool), Refusal> {
        match moves {
            Moves::Drain => self.hall.drain(number).map(|count| (count, count == 0)),
            Moves::Pump => self.hall.pump(number).map(|count| (count, count == 0)),
            Moves::Drop => self.hall.drop_lane(number),
        }
    }

    fn close_counted(&mut self, end: LaneEnd<M>) -> Result<(), (LaneEnd<M>, Refusal)> {
        self.hall.close_counted(end)
    }

    fn abandon_lane(&mut self, lane: u64) -> Result<(), Refusal> {
        self.hall.abandon_lane(lane)
    }

    fn end_feed(&mut self, feed: u64) -> Result<bool, Refusal> {
        Ok(self.hall.end_feed(feed)?.is_some())
    }
}
