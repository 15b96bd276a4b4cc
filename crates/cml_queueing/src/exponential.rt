//! Exponential times by von Neumann's method, which compares random numbers and needs no logarithm.
use rand_core::Rng;

/// The bits of a time after its whole multiples of the mean.
const PART_BITS: u32 = 32;

/// A time is below this many means. One of more has a probability below 10^-27.
const MOST_MEANS: u64 = 64;

/// No run of falling numbers is longer. A longer one has a probability below 10^-35.
const LONGEST_RUN: u64 = 34;

/// Draws an exponential time, in units of 2^-32 of its mean.
///
/// A uniform number x is taken with the probability e^-x, and is then the part after the whole means. Each number that is not
/// taken adds one whole mean.
pub(crate) fn exponential<R: Rng>(random: &mut R) -> u64 {
    for means in 0..MOST_MEANS {
        let first = random.next_u64();
        if is_run_odd(random, first) {
            return (means << PART_BITS) | (first >> PART_BITS);
        }
    }
    MOST_MEANS << PART_BITS
}

/// Draws numbers while each is less than the one before, and says whether an odd count of them fell, the first included. Its
/// probability is e^-x for a first number of x * 2^64.
fn is_run_odd<R: Rng>(random: &mut R, first: u64) -> bool {
    let mut last = first;
    for length in 1..LONGEST_RUN {
        let next = random.next_u64();
        if next >= last {
            return length % 2 == 1;
        }
        last = next;
    }
    false
}
