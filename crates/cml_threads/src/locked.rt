//! A hall under its lock. A thread that has locked it can release it only by `unlock` and `unlock_after`: they take the seat
//! that is due next, unlock the hall, and unpark that seat's thread.
ghost use Rattle.cml_threads.specs.{UnparksNext};

use crate::backoff::{LOCK_LOOKS, pause_for_lock};
use crate::hall::Hall;
use crate::parker::{Parkers, Unparked};
use crate::turn::{Turn, end_turn};
use crate::yields::Yields;
use cml_board::Message;
use cml_log::MessageLog;
use crossbeam_utils::CachePadded;
use std::alloc::{AllocError, Global};
use std::rt::Clock;
use std::sync::ledger::Ledger;
use std::sync::{Mutex, Wait};
use std::thread::Threads;

/// A hall under its lock, and the parkers of its seats.
#[derive(Drop)]
pub struct Locked<M, L: MessageLog<M>, Led: Ledger> {
    // Apart from the lock's word, at which threads that wait for the lock look while its holder writes.
    hall: Mutex<CachePadded<Hall<M, L, Led>>>,
    parkers: Parkers,
    yields: Yields,
}

impl<M: Message, L: MessageLog<M>, Led: Ledger> Locked<M, L, Led> {
    /// A hall whose seats have all left, so that none of them needs a parker.
    pub fn new(alloc: Global, hall: Hall<M, L, Led>) -> Result<Locked<M, L, Led>, AllocError> {
        let parkers = Parkers::new(alloc, hall.seats())?;
        Ok(Locked::of_parts(hall, parkers))
    }

    /// Measures whether threads may yield before they sleep, and before they wait for the lock.
    pub fn measure_yields<R: Clock + Threads>(&self, rt: &R) {
        self.yields.measure(rt);
    }

    /// Blocks until this thread has the lock. Where yields are short, it looks for a while whether the lock is free.
    pub fn lock<R: Wait>(&self, rt: &R) -> Turn<'_, M, L, Led> {
        if self.yields.are_short() {
            for look in 0..LOCK_LOOKS {
                if let Some(hall) = self.hall.try_lock() {
                    return Turn::of(hall);
                }
                pause_for_lock(look);
            }
        }
        Turn::of(self.hall.lock(rt))
    }

    /// Adds the parker of the next seat, where this many were made. The thread has the lock.
    pub fn add_parker<R: Wait>(&self, rt: &R, seats: usize) -> Result<(), AllocError> {
        self.parkers.add(rt, seats)
    }

    /// Waits until the seat was unparked, once for each wait.
    pub fn park<R: Wait>(&self, rt: &R, seat: u64) {
        self.parkers.park(rt, seat, &self.yields);
    }

    /// Takes the seat that is due next, if there is one that was not woken, and unlocks the hall. Then it unparks that seat's thread.
    /// That thread locks the hall next, makes its call, and then does the same.
    pub fn unlock(&self, turn: Turn<'_, M, L, Led>) -> Option<Unparked>
        ensures { UnparksNext turn.entry result }
    {
        let due = end_turn(turn)?;
        // `by` is the seat itself, so its parker never takes this wake for an answer.
        let seat = due.seat();
        Some(self.parkers.unpark(due, seat))
    }

    /// Does what `unlock` does, after a seat's call whose thread waits next, maybe for what the woken one does.
    pub fn unlock_after(&self, turn: Turn<'_, M, L, Led>, seat: u64) -> Option<Unparked>
        ensures { UnparksNext turn.entry result }
    {
        let due = end_turn(turn)?;
        let unparked = self.parkers.unpark(due, seat);
        self.parkers.note_unparked(seat, &unparked);
        Some(unparked)
    }

    /// The hall, once no thread uses it any more.
    pub fn into_hall(self) -> Hall<M, L, Led> {
        self.into_parts().0
    }

    /// The hall and its parkers, once no thread uses them any more.
    pub fn into_parts(self) -> (Hall<M, L, Led>, Parkers) {
        let Locked {
            hall,
            parkers,
            yields: _,
        } = self;
        (hall.into_inner().into_inner(), parkers)
    }

    /// A hall and its parkers.
    pub fn of_parts(hall: Hall<M, L, Led>, parkers: Parkers) -> Locked<M, L, Led> {
        Locked {
            hall: Mutex::new(CachePadded::new(hall)),
            parkers,
            yields: Yields::unknown(),
        }
    }
}
