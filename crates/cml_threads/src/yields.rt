//! Whether threads yield before they sleep, and before they wait for the lock.

use std::rt::Clock;
use std::sync::atomic::{AtomicBool, Ordering};
use std::thread;
use std::thread::Threads;
use std::time::Instant;

/// A yield that takes more microseconds has let another program compute for a whole time slice. Among threads that only call and
/// wait a yield takes less, even if many take their turns.
const LONG: u128 = 1_000;
/// How many yields are measured at most.
const TRIALS: u32 = 8;

/// Whether yields are short on this machine. They are not known to be until they are measured.
#[derive(Drop)]
pub struct Yields {
    are_short: AtomicBool,
}

impl Yields {
    pub fn unknown() -> Yields {
        Yields {
            are_short: AtomicBool::new(false),
        }
    }

    pub fn are_short(&self) -> bool {
        self.are_short.load(Ordering::Relaxed)
    }

    /// Measures some yields. With one processor they count as long: they never help there.
    pub fn measure<R: Clock + Threads>(&self, rt: &R) {
        let mut are_short = has_processors(rt);
        for _ in 0..TRIALS {
            are_short = are_short && is_short(rt);
        }
        self.are_short.store(are_short, Ordering::Relaxed);
    }
}

/// Whether there is more than one processor for the threads.
fn has_processors<R: Threads>(rt: &R) -> bool {
    match thread::available_parallelism(rt) {
        Ok(count) => count.get() > 1,
        Err(_) => false,
    }
}

/// Whether a yield takes no whole time slice now.
fn is_short<R: Clock>(rt: &R) -> bool {
    let Ok(start) = Instant::now(rt) else {
        return false;
    };
    thread::yield_now();
    match start.elapsed(rt) {
        Ok(time) => time.as_micros() <= LONG,
        Err(_) => false,
    }
}
