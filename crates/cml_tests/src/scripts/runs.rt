//! Scripts that threads perform in the order that a gate leaves.
ghost use Rattle.std.specs.Prelude.{false};

use cml_script::{Ending, Gate, run};
use std::alloc::Global;
use std::process::Abort;
use std::sync::Wait;
use std::sync::atomic::{AtomicBool, Ordering};
use std::thread::Threads;

const LIMIT: u64 = 65_536;

/// A script that is run so often while a thread is held, how it ends, and its report.
struct Run {
    script: &'static str,
    held: usize,
    rounds: usize,
    ending: Ending,
    report: &'static str,
}

const TWO_SEND: &str = "cml 1\nmailbox m\nthread A\nthread B\nA send m 5\nB send m 6\n";

const RUNS: &[Run] = &[
    Run {
        script: TWO_SEND,
        held: 0,
        rounds: 20,
        ending: Ending::Done,
        report: "B send m 6: done\nA send m 5: done\nmailbox m: sent 2 got 0 waits 2\nend: done 2\n",
    },
    Run {
        script: TWO_SEND,
        held: 1,
        rounds: 20,
        ending: Ending::Done,
        report: "A send m 5: done\nB send m 6: done\nmailbox m: sent 2 got 0 waits 2\nend: done 2\n",
    },
    // The other thread waits for the step that is held.
    Run {
        script: "cml 1\nmailbox m\nthread A\nthread B\nA send m 5\nB recv m\n",
        held: 0,
        rounds: 1,
        ending: Ending::Held,
        report: "mailbox m: sent 0 got 0 waits 0\nend: held 0 left 2\n",
    },
];

/// How often a thread that is held looks whether it may go on, before it gives up.
const LOOKS: usize = 100_000_000;

/// Holds one thread until a step of another was answered.
#[derive(Drop)]
struct Hold {
    held: usize,
    is_answered: AtomicBool,
}

impl Hold {
    fn new(held: usize) -> Hold {
        Hold {
            held,
            is_answered: AtomicBool::new(false),
        }
    }
}

impl Gate for Hold {
    ghost opens = { λ _. false };

    fn before(&self, thread: usize, _step: usize) -> bool {
        if self.held != thread {
            return true;
        }
        for _ in 0..LOOKS {
            if self.is_answered.load(Ordering::SeqCst) {
                return true;
            }
        }
        false
    }

    fn after(&self, thread: usize, _step: usize) {
        if self.held != thread {
            self.is_answered.store(true, Ordering::SeqCst);
        }
    }
}

/// Whether it ends so, with that report.
fn is_as_told<R: Threads + Wait + Sync>(rt: &R, alloc: Global, told: &Run) -> bool {
    let mut bytes = told.script.as_bytes();
    let mut written = Vec::new(alloc);
    let gate = Hold::new(told.held);
    let ending = run(rt, alloc, &mut bytes, &mut written, LIMIT, &gate);
    ending == told.ending && written.as_slice() == told.report.as_bytes()
}

/// How many of the rounds are as told before one that is otherwise.
fn count_as_told<R: Threads + Wait + Sync>(rt: &R, alloc: Global, told: &Run) -> usize {
    for round in 0..told.rounds {
        if !is_as_told(rt, alloc, told) {
            return round;
        }
    }
    told.rounds
}

fn all_as_told<R: Threads + Wait + Sync + Abort + AllocGlobal>(rt: &R, told: &Run) {
    assert_eq!(rt;
        count_as_told(rt, rt.alloc(), told),
        told.rounds,
        "{}",
        told.report
    );
}

#[test]
fn runs_in_the_order_that_a_gate_leaves(rt: HostRuntime) {
    for told in RUNS.iter() {
        all_as_told(&rt, told);
    }
}
