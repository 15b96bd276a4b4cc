//! A hall on its way back into the lock.
ghost use Rattle.std.specs.Sync.Mutex.{mutex_guard_value};
ghost use Rattle.crossbeam_utils.specs.Padded.{padded_value};
ghost use Rattle.cml_room.specs.{GivesNext};
ghost use Rattle.cml_threads.specs.{room_of};

use crate::hall::Hall;
use crate::parker::Due;
use cml_board::Message;
use cml_log::MessageLog;
use crossbeam_utils::CachePadded;
use std::marker::Model;
use std::sync::MutexGuard;
use std::sync::ledger::Ledger;

/// A locked hall after its one `next_due`. No code can change it or take it apart, so that the lock has it as it is then. A drop
/// frees the lock.
#[derive(Drop)]
pub struct Roused<'a, M, L: MessageLog<M>, Led: Ledger> {
    hall: MutexGuard<'a, CachePadded<Hall<M, L, Led>>>,
}

impl<'a, M, L: MessageLog<M>, Led: Ledger> Model for Roused<'a, M, L, Led> {
    ghost use Rattle.std.specs.Sync.Mutex.{mutex_guard_value};
    ghost use Rattle.crossbeam_utils.specs.Padded.{padded_value};
    ghost use Rattle.cml_threads.specs.Hosting.{Hosted};

    ghost Value = { Hosted M };

    ghost view = { λ r. padded_value (mutex_guard_value r.hall) };
}

/// Takes the seat that is due next out of a locked hall.
pub fn rouse<'a, M: Message, L: MessageLog<M>, Led: Ledger>(
    hall: MutexGuard<'a, CachePadded<Hall<M, L, Led>>>,
) -> (Roused<'a, M, L, Led>, Option<Due>)
    ensures { GivesNext result.1 (room_of (padded_value (mutex_guard_value hall.entry))) (room_of result.0) }
{
    let mut hall = hall;
    let due = hall.next_due();
    (Roused { hall }, due)
}
