ghost use Rattle.std.specs.Prelude.{◌≡◌, [], ◌++◌, OnOk};
ghost use Rattle.cml_threads.specs.{all_of};

use super::sink::Sink;
use cml_board::{Entry, Message};
use std::alloc::Global;
use std::marker::Model;

/// A sink, and the entries that it has still to take. None is lost: the entries that the sink took, followed by those that are
/// pending, are all that it was given, in order.
#[derive(Drop)]
pub struct PendingJournal<M, S: Sink<M>> {
    sink: S,
    pending: Vec<Entry<M>>,
}

impl<M, S: Sink<M>> Model for PendingJournal<M, S> {
    ghost use Rattle.cml_threads.specs.Growing.{PendingView};

    ghost Value = { PendingView M };

    ghost view = { λ k. record { taken = S.taken k.sink; pending = k.pending.items } };
}

impl<M: Message, S: Sink<M>> PendingJournal<M, S> {
    /// Makes one with no pending entries.
    pub fn new(alloc: Global, sink: S) -> PendingJournal<M, S>
        ensures taken { result.taken ≡ S.taken sink }
        ensures pending { result.pending ≡ [] }
    {
        PendingJournal {
            sink,
            pending: Vec::new(alloc),
        }
    }

    /// Returns the entries that the sink has still to take, oldest first.
    pub fn pending(&self) -> &[Entry<M>]
        ensures { result.now ≡ self.now.pending }
    {
        &self.pending
    }

    /// Lends the sink.
    pub fn sink(&self) -> &S
        ensures { S.taken result.now ≡ self.now.taken }
    {
        &self.sink
    }

    /// Hands the pending entries to the sink. If it fails, those that it didn't take stay pending.
    pub fn hand_over_pending(&mut self) -> Result<(), S::Error>
        ensures all { all_of self.new ≡ all_of self.old }
        ensures none { OnOk result (self.new.pending ≡ []) }
    {
        if self.pending.is_empty() {
            return Ok(());
        }
        self.sink.take(&mut self.pending)
    }

    /// Hands entries to the sink. If it fails, those that it didn't take are pending. Hand the pending ones over first: so no
    /// more than one journal's entries ever wait, and they stay in order.
    pub fn hand_over(&mut self, entries: Vec<Entry<M>>) -> Result<(), S::Error>
        requires { self.old.pending ≡ [] }
        ensures all { all_of self.new ≡ all_of self.old ++ entries.items }
        ensures none { OnOk result (self.new.pending ≡ []) }
    {
        self.pending = entries;
        self.hand_over_pending()
    }

    /// Returns the sink and the entries that it has still to take, oldest first.
    pub fn into_parts(self) -> (S, Vec<Entry<M>>)
        ensures taken { S.taken result.0 ≡ self.taken }
        ensures pending { result.1.items ≡ self.pending }
    {
        let PendingJournal { sink, pending } = self;
        (sink, pending)
    }
}
