ghost use Rattle.std.specs.Prelude.{◌≡◌, ◌+◌};
ghost use Rattle.cml_board.specs.{entries_in, rings_in, IsSound};
ghost use Rattle.cml_threads.specs.{Final};

use cml_board::{Board, Message};
use cml_log::MessageLog;
use std::marker::Model;

/// The rest of a switchboard or a hall that all seats have left: its board, and the counts of its entries.
#[derive(Drop)]
pub struct Settled<M, L: MessageLog<M>> {
    board: Board<M, L>,
    seats: u64,
    rings: u64,
}

/// The counts of entries: the answers counted for seats, the entries of lanes and feeds, and all entries since the board was
/// made. The last is the sum of the other two.
#[derive(Clone, Copy, Debug, PartialEq, Eq)]
pub struct Count {
    pub seats: u64,
    pub rings: u64,
    pub total: u64,
}

impl<M, L: MessageLog<M>> Model for Settled<M, L> {
    ghost use Rattle.cml_threads.specs.Settling.{Final, IsSettled};

    ghost Value = { Final M };

    ghost view = { λ s. record { board = s.board; seats = s.seats; rings = s.rings } };

    ghost invariant = { λ s. IsSettled s.board s.seats s.rings };
}

impl<M: Message, L: MessageLog<M>> Settled<M, L> {
    pub(crate) fn new(board: Board<M, L>, seats: u64, rings: u64) -> Settled<M, L>
        requires total { seats + rings ≡ entries_in board.history }
        requires own { rings ≡ rings_in board.history }
        ensures board { result.board ≡ board }
        ensures seats { result.seats ≡ seats }
        ensures rings { result.rings ≡ rings_in board.history }
        ensures total { result.seats + result.rings ≡ entries_in board.history }
    {
        Settled {
            board,
            seats,
            rings,
        }
    }

    /// Lends the board, with all that always holds of one. Its `confirm` says yes to an answer that a seat got since the last
    /// cut, and no to one from before that.
    pub fn board(&self) -> &Board<M, L>
        ensures board { result.now ≡ self.now.board }
        ensures sound { IsSound L.CHUNK self.now.board }
    {
        self.board.facts();
        &self.board
    }

    /// Returns how many entries the seats and the rings made.
    pub fn count(&self) -> Count
        ensures seats { result.seats ≡ self.now.seats }
        ensures rings { result.rings ≡ rings_in self.now.board.history }
        ensures total { result.total ≡ entries_in self.now.board.history }
        ensures sum { result.total ≡ result.seats + result.rings }
    {
        Count {
            seats: self.seats,
            rings: self.rings,
            total: self.board.entries(),
        }
    }
}
