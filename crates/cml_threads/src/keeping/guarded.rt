//! A pending journal under its lock.
ghost use Rattle.std.specs.Prelude.{◌≡◌};
ghost use Rattle.cml_threads.specs.{BeginsWith};

use super::pending::PendingJournal;
use super::sink::Sink;
use super::start::Start;
use cml_board::Message;
use std::marker::PhantomData;

/// The pending journal of a `Keeping`. Whenever its lock is free, the sink and the pending entries begin with all that they had when
/// the `Keeping` was made.
#[derive(Drop)]
pub struct GuardedJournal<M, Led: Start<M>, S: Sink<M>> {
    pub journal: PendingJournal<M, S>,
    of: PhantomData<Led>,
    ghost none_lost: { BeginsWith Led.start journal },
}

impl<M: Message, Led: Start<M>, S: Sink<M>> GuardedJournal<M, Led, S> {
    pub fn of(journal: PendingJournal<M, S>) -> GuardedJournal<M, Led, S>
        requires { BeginsWith Led.start journal }
        ensures { result.journal ≡ journal }
    {
        GuardedJournal {
            journal,
            of: PhantomData,
        }
    }

    pub fn into_journal(self) -> PendingJournal<M, S>
        ensures same { result ≡ self.journal }
        ensures none_lost { BeginsWith Led.start result }
    {
        let GuardedJournal { journal, of: _ } = self;
        journal
    }
}
