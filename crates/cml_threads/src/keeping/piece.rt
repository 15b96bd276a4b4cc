//! The entries of one cut, on their way to a sink.
ghost use Rattle.std.specs.Prelude.{◌≡◌, [], ◌++◌};
ghost use Rattle.cml_threads.specs.{all_of};

use super::pending::PendingJournal;
use super::sink::Sink;
use crate::switchboard::Switchboard;
use cml_board::{Entry, Message};
use cml_log::MessageLog;
use std::sync::Wait;
use std::sync::ledger::Ledger;

/// The entries that one cut took from a journal. It can't be dropped: only `hand_over_to` takes it. So the compiler refuses code that
/// makes a `Piece` and hands it to nobody. It doesn't refuse a `cut` that drops the entries and makes a `Piece` of none, since no
/// clause of `take_journal_open` names them.
pub struct Piece<M> {
    entries: Vec<Entry<M>>,
}

impl<M: Message> Piece<M> {
    /// Cuts the journal, while lanes and feeds may be open.
    pub fn cut<L: MessageLog<M>, Led: Ledger, R: Wait>(
        rt: &R,
        board: &Switchboard<M, L, Led>,
    ) -> Piece<M> {
        Piece {
            entries: board.take_journal_open(rt),
        }
    }

    /// Hands the entries to a pending journal that has none.
    pub fn hand_over_to<S: Sink<M>>(
        self,
        journal: &mut PendingJournal<M, S>,
    ) -> Result<(), S::Error>
        requires { journal.old.pending ≡ [] }
        ensures { all_of journal.new ≡ all_of journal.old ++ self.entries.items }
    {
        let Piece { entries } = self;
        journal.hand_over(entries)
    }
}
