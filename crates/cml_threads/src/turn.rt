//! A hall while a thread has the lock.
ghost use Rattle.std.specs.Prelude.{◌≡◌};
ghost use Rattle.std.specs.Sync.Mutex.{mutex_guard_value};
ghost use Rattle.crossbeam_utils.specs.Padded.{padded_value};
ghost use Rattle.cml_threads.specs.{UnparksNext};

use crate::hall::Hall;
use crate::parker::Due;
use crate::roused::rouse;
use cml_board::Message;
use cml_log::MessageLog;
use crossbeam_utils::CachePadded;
use std::marker::Model;
use std::sync::MutexGuard;
use std::sync::ledger::Ledger;

/// The hall, while this thread has the lock. It can't be dropped: only `end_turn` takes it. So the compiler refuses a call that
/// unlocks the hall and takes no seat that is due.
pub struct Turn<'a, M, L: MessageLog<M>, Led: Ledger> {
    hall: MutexGuard<'a, CachePadded<Hall<M, L, Led>>>,
}

impl<'a, M, L: MessageLog<M>, Led: Ledger> Model for Turn<'a, M, L, Led> {
    ghost use Rattle.std.specs.Sync.Mutex.{mutex_guard_value};
    ghost use Rattle.crossbeam_utils.specs.Padded.{padded_value};
    ghost use Rattle.cml_threads.specs.Hosting.{Hosted};

    ghost Value = { Hosted M };

    ghost view = { λ t. padded_value (mutex_guard_value t.hall) };
}

impl<'a, M: Message, L: MessageLog<M>, Led: Ledger> Turn<'a, M, L, Led> {
    /// The hall of a lock that this thread has just taken.
    pub fn of(hall: MutexGuard<'a, CachePadded<Hall<M, L, Led>>>) -> Turn<'a, M, L, Led>
        ensures { result ≡ padded_value (mutex_guard_value hall.entry) }
    {
        Turn { hall }
    }

    /// The hall. What a call does to it is in the contract of `Hall`'s call.
    pub fn hall(&mut self) -> &mut Hall<M, L, Led>
        ensures { result.now ≡ self.old }
    {
        &mut self.hall
    }
}

/// Takes the seat that is due next, and unlocks the hall.
pub fn end_turn<M: Message, L: MessageLog<M>, Led: Ledger>(turn: Turn<'_, M, L, Led>) -> Option<Due>
    ensures { UnparksNext turn.entry result }
{
    let Turn { hall } = turn;
    let (roused, due) = rouse(hall);
    drop(roused);
    due
}
