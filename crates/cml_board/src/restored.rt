//! A board whose history was read from a journal, and who made its entries.
ghost use Rattle.std.specs.Prelude.{◌≡◌, ◌+◌, ◌<◌, ◌^◌, max};
ghost use Rattle.cml_board.specs.{ring_by, AreMakers, behind_seat, behind_lane, behind_feed, capped};

use crate::board::Board;
use crate::entry::Who;
use cml_log::MessageLog;
use std::marker::Model;

/// Who made the entries of a history.
#[derive(Clone, Copy, Debug, PartialEq, Eq)]
pub struct Makers {
    /// One more than the highest number of a seat that made an entry; 0 if no seat did.
    pub seats: u64,
    /// One more than the highest number of a lane that made an entry; 0 if no lane did.
    pub lanes: u64,
    /// One more than the highest number of a feed that made an entry; 0 if no feed did.
    pub feeds: u64,
    /// How many entries lanes and feeds made.
    pub rings: u64,
}

impl Makers {
    /// Those of no entry.
    pub(crate) fn none() -> Makers
        ensures { result ≡ record { seats = 0; lanes = 0; feeds = 0; rings = 0 } }
    {
        Makers {
            seats: 0,
            lanes: 0,
            feeds: 0,
            rings: 0,
        }
    }

    /// Those with one entry more, which this one made.
    pub(crate) fn with(self, who: Who) -> Makers
        requires { self.rings + 1 < 2 ^ 64 }
        ensures seats { result.seats ≡ max self.seats (capped (behind_seat who)) }
        ensures lanes { result.lanes ≡ max self.lanes (capped (behind_lane who)) }
        ensures feeds { result.feeds ≡ max self.feeds (capped (behind_feed who)) }
        ensures rings { result.rings ≡ self.rings + ring_by who }
    {
        let mut makers = self;
        match who {
            Who::Seat(number) => makers.seats = self.seats.max(number.saturating_add(1)),
            Who::Lane(number) => {
                makers.lanes = self.lanes.max(number.saturating_add(1));
                makers.rings += 1;
            }
            Who::Feed(number) => {
                makers.feeds = self.feeds.max(number.saturating_add(1));
                makers.rings += 1;
            }
        }
        makers
    }
}

/// A board that begins with the history of another, as a journal gives it, and who made its entries. `Floor`, `Room`, `Hall`
/// and `Switchboard` go on from it: they number new seats, lanes and feeds after those of the journal.
#[derive(Drop)]
pub struct Restored<M, L: MessageLog<M>> {
    board: Board<M, L>,
    makers: Makers,
}

impl<M, L: MessageLog<M>> Model for Restored<M, L> {
    ghost use Rattle.cml_board.specs.Makers.{RestoredShown, AreMakers};

    ghost Value = { RestoredShown M };

    ghost view = { λ r. record { board = r.board; makers = r.makers } };

    ghost invariant = { λ r. AreMakers r.board.history r.makers };
}

impl<M, L: MessageLog<M>> Restored<M, L> {
    pub(crate) fn new(board: Board<M, L>, makers: Makers) -> Restored<M, L>
        requires { AreMakers board.history makers }
        ensures { result ≡ record { board = board; makers = makers } }
    {
        Restored { board, makers }
    }

    /// The board.
    pub fn board(&self) -> &Board<M, L>
        ensures { result.now ≡ self.now.board }
    {
        &self.board
    }

    pub fn makers(&self) -> Makers
        ensures same { result ≡ self.now.makers }
        ensures right { AreMakers self.now.board.history result }
    {
        self.makers
    }

    /// Returns the board and its makers.
    pub fn into_parts(self) -> (Board<M, L>, Makers)
        ensures board { result.0 ≡ self.board }
        ensures makers { result.1 ≡ self.makers }
        ensures right { AreMakers result.0.history result.1 }
    {
        (self.board, self.makers)
    }

    /// Returns the board and drops the makers.
    pub fn into_board(self) -> Board<M, L>
        ensures board { result ≡ self.board }
        ensures makers { AreMakers self.board.history self.makers }
    {
        self.board
    }
}
