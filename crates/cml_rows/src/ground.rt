use crate::cutting::Journaled;
use crate::moving::Moves;
use crate::numbered::Numbered;
use cml_board::{Call, Name, Outcome, Refusal};
use cml_lanes::{Feed, Lane, LaneEnd};

/// What a table's calls are made on other than a board: a floor, or a hall with its seats. On a floor a call that would
/// wait parks no seat.
pub trait Ground<M: Numbered>: Journaled<M> {
    /// How many lanes and how many feeds are open.
    fn open_rings(&self) -> (u64, u64);

    fn reserve(&mut self, entries: usize) -> Result<(), Refusal>;

    /// A new seat's number.
    fn new_seat(&mut self) -> Result<u64, Refusal>;

    fn leave(&mut self, seat: usize) -> Result<(), Refusal>;

    fn ask(&mut self, seat: usize, call: Call<M>) -> Outcome<M>;

    fn ask_again(&mut self, seat: usize, call: Call<M>) -> Outcome<M>;

    /// A capacity out of range is taken as the nearest that is in range.
    fn open_lane(&mut self, target: Name, capacity: usize) -> Result<(Lane<M>, u64), Refusal>;

    fn open_feed(&mut self, channel: Name, capacity: usize) -> Result<(Feed<M>, u64), Refusal>;

    /// Moves messages by a lane or a feed of this number. Returns how many, and whether that was all for now.
    fn move_some(&mut self, moves: Moves, number: u64) -> Result<(usize, bool), Refusal>;

    fn close_counted(&mut self, end: LaneEnd<M>) -> Result<(), (LaneEnd<M>, Refusal)>;

    fn abandon_lane(&mut self, lane: u64) -> Result<(), Refusal>;

    /// Ends a feed, and returns whether that gave an end.
    fn end_feed(&mut self, feed: u64) -> Result<bool, Refusal>;
}
