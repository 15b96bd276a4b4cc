//! The calls on the journal. They make no seat due.
ghost use Rattle.std.specs.Prelude.{◌≡◌, ◌≤◌, ◌++◌, IfOk, MatchResult, reverse};
ghost use Rattle.cml_lanes.specs.{KeepsRings, CutsAFloor, CutsFloor, CutsOpenFloor, NotCut, Reserves};
ghost use Rattle.cml_room.specs.{floor_of, KeepsSeats};

use super::Room;
use cml_board::{Entry, Message, Refusal};
use cml_log::MessageLog;

impl<M: Message, L: MessageLog<M>> Room<M, L> {
    /// Reserves memory for `n` more entries, as `Floor::reserve` does.
    pub fn reserve(&mut self, n: usize) -> Result<(), Refusal>
        ensures reserves { Reserves (floor_of self.old) (floor_of self.new) n result }
        ensures rings { KeepsRings (floor_of self.old) (floor_of self.new) }
        ensures kept { KeepsSeats self.old self.new }
    {
        self.floor.reserve(n)
    }

    /// Cuts the board's journal, as `Floor::cut` does.
    pub fn cut(&mut self) -> Result<(), Refusal>
        ensures cut { CutsAFloor (floor_of self.old) (floor_of self.new) result }
        ensures reserved { self.old.board.reserved ≤ self.new.board.reserved }
        ensures rings { KeepsRings (floor_of self.old) (floor_of self.new) }
        ensures kept { KeepsSeats self.old self.new }
    {
        // The contract of `journal` says that it is a part of all entries: so a cut makes room.
        let _journal = self.floor.board().journal();
        self.floor.cut()
    }

    /// Cuts the journal and returns the entries that it had, as `Floor::take_journal` does.
    pub fn take_journal(&mut self) -> Result<Vec<Entry<M>>, Refusal>
        ensures taken { IfOk result (λ taken. reverse taken.items ++ self.old.board.past ≡ self.old.board.history) }
        ensures cut { MatchResult result (λ _. CutsFloor (floor_of self.old) (floor_of self.new))
            (NotCut (floor_of self.old) (floor_of self.new)) }
        ensures rings { KeepsRings (floor_of self.old) (floor_of self.new) }
        ensures kept { KeepsSeats self.old self.new }
    {
        self.floor.take_journal()
    }

    /// Cuts the journal while lanes and feeds are open, as `Floor::cut_open` does.
    pub fn cut_open(&mut self)
        ensures cut { CutsOpenFloor (floor_of self.old) (floor_of self.new) }
        ensures reserved { self.old.board.reserved ≤ self.new.board.reserved }
        ensures rings { KeepsRings (floor_of self.old) (floor_of self.new) }
        ensures kept { KeepsSeats self.old self.new }
    {
        // As for `cut`: the journal is a part of all entries.
        let _journal = self.floor.board().journal();
        self.floor.cut_open();
    }

    /// Cuts the journal as `cut_open` does, and returns the entries that it had, as `Floor::take_journal_open` does.
    pub fn take_journal_open(&mut self) -> Vec<Entry<M>>
        ensures taken { reverse result.items ++ self.old.board.past ≡ self.old.board.history }
        ensures cut { CutsOpenFloor (floor_of self.old) (floor_of self.new) }
        ensures rings { KeepsRings (floor_of self.old) (floor_of self.new) }
        ensures kept { KeepsSeats self.old self.new }
    {
        self.floor.take_journal_open()
    }
}
