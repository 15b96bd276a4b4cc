//! What a thread that waits looks at, and sleeps on.
ghost use Rattle.std.specs.Prelude.{◌≡◌};

use crate::backoff::Backoff;
use crate::yields::Yields;
use boxcar::Vec as Table;
use crossbeam_utils::CachePadded;
use std::alloc::{AllocError, Global};
use std::marker::Model;
use std::sync::Wait;
use std::sync::atomic::{AtomicU64, Ordering};

// What the word of a parker is.
const EMPTY: u64 = 0;

const PARKED: u64 = 1;

const NOTIFIED: u64 = 2;

/// The parker of a seat. One thread parks at it, and any other unparks it. That is kept until the thread has taken note of it,
/// so it may come before the thread parks.
#[derive(Drop)]
struct Parker {
    word: AtomicU64,
    // The seat whose call unparked it last.
    unparked_by: AtomicU64,
    // The other three are for the seat's thread alone. Whether an answer to its last call may be near. It may be if the call woke
    // a thread that slept, or the one that had woken this one: that thread may answer as soon as it runs. To wake it takes longer
    // than the short backoff. So two threads that answer each other don't sleep at each turn.
    is_answer_near: AtomicU64,
    short: Backoff,
    long: Backoff,
}

impl Parker {
    fn new() -> Parker {
        Parker {
            word: AtomicU64::new(EMPTY),
            unparked_by: AtomicU64::new(0),
            is_answer_near: AtomicU64::new(0),
            short: Backoff::short(),
            long: Backoff::long(),
        }
    }

    /// Whether the thread slept, and was woken.
    fn unpark(&self, by: u64) -> bool {
        self.unparked_by.store(by, Ordering::Relaxed);
        if self.word.swap(NOTIFIED, Ordering::AcqRel) != PARKED {
            return false;
        }
        self.word.wake_one();
        true
    }

    /// Looks for a while, if it isn't unparked yet, and then sleeps until it is.
    fn park<R: Wait>(&self, rt: &R, yields: &Yields) {
        if self.is_soon_unparked(yields) {
            self.word.store(EMPTY, Ordering::Release);
            return;
        }
        for _ in rt.forever() {
            if self.sleep_or_go_on() {
                return;
            }
            self.word.park(rt, PARKED as u32);
        }
    }

    fn is_soon_unparked(&self, yields: &Yields) -> bool {
        let is_near = self.is_answer_near.load(Ordering::Relaxed) != 0;
        if is_near {
            self.is_answer_near.store(0, Ordering::Relaxed);
        }
        if is_near && self.long.is_due() {
            return self.long.look_until(&self.word, NOTIFIED, yields);
        }
        self.short.is_due() && self.short.look_until(&self.word, NOTIFIED, yields)
    }

    /// Whether it was unparked; then it is empty again. If not, the next that unparks it finds the thread asleep.
    fn sleep_or_go_on(&self) -> bool {
        let seen = self
            .word
            .compare_exchange(EMPTY, PARKED, Ordering::AcqRel, Ordering::Acquire);
        let is_notified = seen == Err(NOTIFIED);
        if is_notified {
            self.word.store(EMPTY, Ordering::Release);
        }
        is_notified
    }
}

/// A seat that `Hall::next_due` has returned, and whose thread is not unparked yet. It can't be dropped: only `Parkers::unpark` takes
/// it. So the compiler refuses code that takes a due seat and hands it to no `unpark`.
pub struct Due {
    seat: u64,
}

impl Model for Due {
    ghost use Rattle.std.specs.Prelude.{ℕ};

    ghost Value = { ℕ };

    ghost view = { λ d. d.seat };
}

impl Due {
    /// The seat, which counts as woken from now on.
    pub fn of(seat: u64) -> Due
        ensures { result ≡ seat }
    {
        Due { seat }
    }

    /// Returns its number.
    pub fn seat(&self) -> u64
        ensures { result ≡ self.now }
    {
        self.seat
    }
}

/// The seat whose thread was unparked, and whether it slept. Only `Parkers::unpark` makes one.
#[derive(Drop)]
pub struct Unparked {
    seat: u64,
    slept: bool,
}

impl Model for Unparked {
    ghost use Rattle.std.specs.Prelude.{ℕ};

    ghost Value = { ℕ };

    ghost view = { λ u. u.seat };
}

/// The parkers of all seats from one on, by number. They are read without the lock.
#[derive(Drop)]
pub struct Parkers {
    // The seats before this one have left, and need no parker.
    first: usize,
    // Apart from each other, so that a thread which spins doesn't slow another's down.
    parkers: Table<CachePadded<Parker>>,
}

impl Parkers {
    /// The parkers of seats from the number `first` on.
    pub fn new(alloc: Global, first: usize) -> Result<Parkers, AllocError> {
        Ok(Parkers {
            first,
            parkers: Table::new(alloc)?,
        })
    }

    /// Sees that the seat of the next number has a parker, where this many seats were made. One thread at a time may call it.
    pub fn add<R: Wait>(&self, rt: &R, seats: usize) -> Result<(), AllocError> {
        if self.parkers.count() > seats.saturating_sub(self.first) {
            return Ok(());
        }
        match self.parkers.push(rt, CachePadded::new(Parker::new())) {
            Ok(_) => Ok(()),
            Err(_) => Err(AllocError),
        }
    }

    /// Wakes the seat's thread, for a call of another seat. If it doesn't sleep yet, it won't.
    pub fn unpark(&self, due: Due, by: u64) -> Unparked
        ensures { result ≡ due }
    {
        let Due { seat } = due;
        let slept = match self.parker(seat) {
            Some(parker) => parker.unpark(by),
            None => false,
        };
        Unparked { seat, slept }
    }

    /// The seat has just made a call and unparked another one. If that one slept, or had unparked this seat, it may answer soon: so
    /// in its next wait this seat's thread may spin for longer.
    pub fn note_unparked(&self, seat: u64, other: &Unparked) {
        if let Some(parker) = self.parker(seat)
            && (other.slept || parker.unparked_by.load(Ordering::Relaxed) == other.seat)
        {
            parker.is_answer_near.store(1, Ordering::Relaxed);
        }
    }

    /// Waits until the seat was unparked, once for each wait.
    pub fn park<R: Wait>(&self, rt: &R, seat: u64, yields: &Yields) {
        if let Some(parker) = self.parker(seat) {
            parker.park(rt, yields);
        }
    }

    fn parker(&self, seat: u64) -> Option<&CachePadded<Parker>> {
        self.parkers.get((seat as usize).checked_sub(self.first)?)
    }
}
