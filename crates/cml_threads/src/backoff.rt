//! How long a thread looks before it sleeps. Where yields are short, it spins for a moment and then yields a few times. Else it spins
//! for longer.

use crate::yields::Yields;
use std::sync::atomic::{AtomicU64, Ordering};
use std::{hint, thread};

/// How often a thread looks if it knows nothing of an answer: eight looks take less time than to wake a thread. More would cost
/// where all are in vain, as in a token round many threads.
const SHORT_LOOKS: u32 = 8;
/// In how many waits it does not look then, at the most: few, since one such look in vain costs little.
const SHORT_PAUSE: u64 = 16;
/// How often it looks if an answer may be near: that takes longer than to wake a thread, which may then answer at once.
const LONG_LOOKS: u32 = 50;
/// In how many waits it takes no such look, at the most: many, since one in vain spins some twenty times as long as a short one.
const LONG_PAUSE: u64 = 512;
/// In how many looks crossbeam's backoff snoozes: it spins for twice as long in each of seven, and yields in the eighth.
const SNOOZES: u32 = 8;

/// In how many looks a thread spins if it yields in the others: for one pause, and then each time for twice as many.
const SPINS: u32 = 5;
/// In how many it yields if it knows nothing of an answer, and if an answer may be near. With as few as seven, two threads that
/// answer each other slept at each turn.
const SHORT_YIELDS: u32 = 7;

const LONG_YIELDS: u32 = 30;

/// How often a thread looks at a lock that is held: in the first looks it spins, and in the others it yields.
pub const LOCK_LOOKS: u32 = 8;

const LOCK_SPINS: u32 = 4;
/// For how many pauses it spins after its first look at a lock. After each other it spins for twice as many. Shorter ones made four
/// threads that send slower: they all looked at one line of memory.
const LOCK_PAUSES: u32 = 64;

/// How often a thread looks at a word, for that thread alone. Once it has looked in vain, it does not look in its next wait, and
/// then in twice as many waits each time.
#[derive(Drop)]
pub struct Backoff {
    looks: u32,
    yields: u32,
    longest_pause: u64,
    pause: AtomicU64,
    left: AtomicU64,
}

impl Backoff {
    /// For a wait of which nothing is known.
    pub fn short() -> Backoff {
        Backoff::new(SHORT_LOOKS, SHORT_YIELDS, SHORT_PAUSE)
    }

    /// For a wait whose answer may be near.
    pub fn long() -> Backoff {
        Backoff::new(LONG_LOOKS, LONG_YIELDS, LONG_PAUSE)
    }

    fn new(looks: u32, yields: u32, longest_pause: u64) -> Backoff {
        Backoff {
            looks,
            yields,
            longest_pause,
            pause: AtomicU64::new(0),
            left: AtomicU64::new(0),
        }
    }

    /// Whether the thread looks in this wait. If not, it counts the wait.
    pub fn is_due(&self) -> bool {
        let left = self.left.load(Ordering::Relaxed);
        if left != 0 {
            self.left.store(left - 1, Ordering::Relaxed);
        }
        left == 0
    }

    /// Looks until the word is this. Says whether it was before the last look.
    pub fn look_until(&self, word: &AtomicU64, this: u64, yields: &Yields) -> bool {
        let (is_this, longest_pause) = if yields.are_short() {
            (yield_until(word, this, self.yields), SHORT_PAUSE)
        } else {
            (spin_until(word, this, self.looks), self.longest_pause)
        };
        let pause = if is_this {
            0
        } else {
            self.longer_pause(longest_pause)
        };
        self.pause.store(pause, Ordering::Relaxed);
        self.left.store(pause, Ordering::Relaxed);
        is_this
    }

    fn longer_pause(&self, longest: u64) -> u64 {
        let pause = self.pause.load(Ordering::Relaxed);
        pause.saturating_add(pause).max(1).min(longest)
    }
}

/// Spins between two looks: in the first seven each time twice as long, then for as long as in the seventh. After the eighth look it
/// lets another thread run. It does so only once, since on a busy machine that gives up the whole time slice.
fn spin_until(word: &AtomicU64, this: u64, looks: u32) -> bool {
    let spinner = crossbeam_utils::Backoff::new();
    for look in 0..looks {
        if word.load(Ordering::Acquire) == this {
            return true;
        }
        if look < SNOOZES {
            spinner.snooze();
        } else {
            spinner.spin();
        }
    }
    false
}

/// Spins for a moment between two looks, and then yields so often.
fn yield_until(word: &AtomicU64, this: u64, yields: u32) -> bool {
    for look in 0..SPINS.saturating_add(yields) {
        if word.load(Ordering::Acquire) == this {
            return true;
        }
        pause(look, SPINS, 1);
    }
    false
}

/// Spins or yields after this look at a lock.
pub fn pause_for_lock(look: u32) {
    pause(look, LOCK_SPINS, LOCK_PAUSES);
}

/// After each of this many looks a thread spins: for these pauses, and each time for twice as many. After each later one it yields.
fn pause(look: u32, spins: u32, pauses: u32) {
    if look >= spins {
        return thread::yield_now();
    }
    for _ in 0..pauses.saturating_mul(1u32.checked_shl(look).unwrap_or(u32::MAX)) {
        hint::spin_loop();
    }
}
