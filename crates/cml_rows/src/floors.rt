//! Tables of calls on a floor.
use crate::cutting::{Journaled, Way};
use crate::ground::Ground;
use crate::ground_table::perform_on;
use crate::moving::Moves;
use crate::numbered::{Maker, Numbered};
use crate::outcome::Numbers;
use crate::told::Told;
use crate::words::limit_in;
use cml_board::{BoardLog, Call, Entry, Name, Outcome, Refusal};
use cml_lanes::{Feed, Floor, Lane, LaneEnd, MAX_CAPACITY};

/// Performs the lines of a case on a floor.
pub fn perform<M: Numbered>(told: &mut Told, maker: &Maker<M>, lines: &[String], way: Option<Way>) {
    match Numbers::<M>::new(maker.alloc, limit_in(lines)) {
        Ok(board) => perform_on(told, maker, Floor::new(maker.alloc, board), lines, way),
        Err(_) => told.lack(),
    }
}

impl<M: Numbered> Journaled<M> for Floor<M, BoardLog<M>> {
    fn board(&self) -> &Numbers<M> {
        Floor::board(self)
    }

    fn cut(&mut self) -> Result<(), Refusal> {
        Floor::cut(self)
    }

    fn take_journal(&mut self) -> Result<Vec<Entry<M>>, Refusal> {
        Floor::take_journal(self)
    }

    fn cut_open(&mut self) {
        Floor::cut_open(self);
    }

    fn take_journal_open(&mut self) -> Vec<Entry<M>> {
        Floor::take_journal_open(self)
    }
}

impl<M: Numbered> Ground<M> for Floor<M, BoardLog<M>> {
    fn open_rings(&self) -> (u64, u64) {
        (self.open_lanes(), self.open_feeds())
    }

    fn reserve(&mut self, entries: usize) -> Result<(), Refusal> {
        Floor::reserve(self, entries)
    }

    fn new_seat(&mut self) -> Result<u64, Refusal> {
        Err(Refusal::Gone)
    }

    fn leave(&mut self, _seat: usize) -> Result<(), Refusal> {
        Err(Refusal::Gone)
    }

    fn ask(&mut self, seat: usize, call: Call<M>) -> Outcome<M> {
        self.apply(seat as u64, call)
    }

    fn ask_again(&mut self, _seat: usize, call: Call<M>) -> Outcome<M> {
        Outcome::Refused(Refusal::Gone, call)
    }

    fn open_lane(&mut self, target: Name, capacity: usize) -> Result<(Lane<M>, u64), Refusal> {
        Floor::open_lane(self, target, capacity.max(1).min(MAX_CAPACITY))
    }

    fn open_feed(&mut self, channel: Name, capacity: usize) -> Result<(Feed<M>, u64), Refusal> {
        Floor::open_feed(self, channel, capacity.max(1).min(MAX_CAPACITY))
    }

    fn move_some(&mut self, moves: Moves, number: u64) -> Result<(usize, bool), Refusal> {
        match moves {
            Moves::Drain => self.drain(number).map(|count| (count, count == 0)),
            Moves::Pump => self.pump(number).map(|count| (count, count == 0)),
            Moves::Drop => self.drop_lane(number),
        }
    }

    fn close_counted(&mut self, end: LaneEnd<M>) -> Result<(), (LaneEnd<M>, Refusal)> {
        Floor::close_counted(self, end)
    }

    fn abandon_lane(&mut self, lane: u64) -> Result<(), Refusal> {
        Floor::abandon_lane(self, lane)
    }

    fn end_feed(&mut self, feed: u64) -> Result<bool, Refusal> {
        Ok(Floor::end_feed(self, feed)?.is_some())
    }
}
