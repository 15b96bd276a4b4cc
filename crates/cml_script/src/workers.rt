//! The threads of a script.
ghost use Rattle.std.specs.Prelude.{◌≡◌, ◌≢◌, ◌+◌, ◌<◌, ◌≤◌, true, length, vec_len, vec_capacity, IfOk};
ghost use Rattle.cml_script.specs.Working.{IsUnheld};

use crate::caller::Seated;
use crate::declaring::declare;
use crate::gate::{Gate, Passage};
use crate::rings::{Rings, Subscription};
use crate::worker::{first_of, stop_of, work};
use cml_board::{BoardLog, Text};
use cml_grammar::{Makes, Script};
use cml_report::{Plan, Stop, THREADS, Tally, count_feeds};
use cml_threads::{Left, Switchboard};
use std::alloc::{AllocError, Global};
use std::marker::{Brand, PhantomData};
use std::sync::Wait;
use std::sync::atomic::{AtomicBool, Ordering};
use std::sync::ledger::Ledger;
use std::thread;
use std::thread::{JoinHandle, Threads};

/// What is left of the threads of a script: the lefts for `settle`, what went by their lanes and feeds, and how they ended.
#[derive(Drop)]
pub struct Ended<Led: Ledger> {
    /// Of the seat that made the declared objects, and of each thread's.
    pub lefts: Vec<Left<Led>>,
    pub tally: Tally,
    pub stop: Stop,
}

/// What is left of one thread.
#[derive(Drop)]
struct EndedThread<Led: Ledger, P: Passage> {
    left: Left<Led>,
    rings: Rings,
    stop: Result<Stop, AllocError>,
    passage: PhantomData<P>,
    ghost unheld: { P.opens ≡ true → IsUnheld stop },
}

/// Performs a script on a switchboard that has no objects and no seats, with an operating-system thread and a seat for each
/// of the script's threads. Joins them all. If threads end differently, the first of no memory, full, held, stalled, done
/// counts. A thread that cannot be started counts as want of memory, and no thread waits for it.
pub fn perform_in_threads<Led: Ledger + Send + Sync, R: Threads + Wait + Sync, G: Gate + Sync>(
    rt: &R,
    alloc: Global,
    script: &Script,
    switchboard: &Switchboard<Text, BoardLog<Text>, Led>,
    gate: &G,
) -> Result<Ended<Led>, AllocError>
    ensures { IfOk result (λ ended. G.opens gate.now ≡ true → ended.stop ≢ Stop.Held) }
{
    perform_by::<Brand, Led, R, G>(rt, alloc, script, switchboard, gate)
}

/// Performs a script by a gate that is this passage.
fn perform_by<
    P: Passage + Send,
    Led: Ledger + Send + Sync,
    R: Threads + Wait + Sync,
    G: Gate + Sync,
>(
    rt: &R,
    alloc: Global,
    script: &Script,
    switchboard: &Switchboard<Text, BoardLog<Text>, Led>,
    gate: &G,
) -> Result<Ended<Led>, AllocError>
    requires { P.opens ≡ G.opens gate.now }
    ensures { IfOk result (λ ended. P.opens ≡ true → ended.stop ≢ Stop.Held) }
{
    let plan = Plan::new(alloc, script)?;
    let mut maker = take_seat(rt, alloc, switchboard)?;
    let mut callers = take_seats(rt, alloc, switchboard, count_threads(script))?;
    let declared = declare(&plan, &mut maker);
    let feeds = maker.hand_feeds(alloc);
    deal(script, feeds, &mut callers)?;
    let (first, _) = maker.leave();
    match declared {
        Ok(()) => {
            let ended = start::<P, Led, R, G>(rt, alloc, &plan, gate, callers)?;
            gather(alloc, script, first, Ok(Stop::Done), ended)
        }
        Err(refusal) => {
            let ended = leave_all::<P, Led, R>(alloc, callers)?;
            gather(alloc, script, first, stop_of(refusal), ended)
        }
    }
}

fn take_seat<'a, Led: Ledger, R: Wait>(
    rt: &'a R,
    alloc: Global,
    switchboard: &'a Switchboard<Text, BoardLog<Text>, Led>,
) -> Result<Seated<'a, Led, R>, AllocError> {
    match switchboard.seat(rt) {
        Ok(seat) => Ok(Seated::new(alloc, rt, switchboard, seat)),
        Err(_) => Err(AllocError),
    }
}

/// A seat for each thread, in their order.
fn take_seats<'a, Led: Ledger, R: Wait>(
    rt: &'a R,
    alloc: Global,
    switchboard: &'a Switchboard<Text, BoardLog<Text>, Led>,
    threads: usize,
) -> Result<Vec<Seated<'a, Led, R>>, AllocError>
    requires { threads ≤ 64 }
    ensures { IfOk result (λ callers. vec_len callers ≤ 64) }
{
    let mut callers = Vec::with_capacity(alloc, threads)?;
    for _ in 0..threads {
        callers.push_reserved(take_seat(rt, alloc, switchboard)?);
    }
    Ok(callers)
}

/// How many threads a script has.
fn count_threads(script: &Script) -> usize
    ensures { result ≤ 64 }
{
    let mut threads = 0;
    for declaration in script.declarations() {
        threads += usize::from(matches!(declaration.makes, Makes::Thread));
    }
    // No script has more.
    threads.min(THREADS)
}

/// Hands each thread its feeds, which were opened in text order.
fn deal<Led: Ledger, R: Wait>(
    script: &Script,
    feeds: Vec<Subscription>,
    callers: &mut [Seated<'_, Led, R>],
) -> Result<(), AllocError> {
    let mut feeds = feeds.into_iter();
    for declaration in script.declarations() {
        if let Makes::Feed(making) = declaration.makes {
            let Some(feed) = feeds.next() else {
                return Ok(());
            };
            if let Some(caller) = callers.get_mut((making.seat as usize).saturating_sub(1)) {
                caller.take_feed(feed)?;
            }
        }
    }
    Ok(())
}

/// Starts a thread for each seat, and joins them all. What is needed for them is reserved before the first is started, so
/// that none is lost.
fn start<P: Passage + Send, Led: Ledger + Send + Sync, R: Threads + Wait + Sync, G: Gate + Sync>(
    rt: &R,
    alloc: Global,
    plan: &Plan<'_>,
    gate: &G,
    callers: Vec<Seated<'_, Led, R>>,
) -> Result<Vec<EndedThread<Led, P>>, AllocError>
    requires few { vec_len callers ≤ 64 }
    requires passage { P.opens ≡ G.opens gate.now }
{
    let started = flags(alloc, callers.len())?;
    let running = Vec::with_capacity(alloc, callers.len())?;
    let ended = Vec::with_capacity(alloc, callers.len())?;
    let flags = started.as_slice();
    Ok(thread::scope(
        thread::scope_env(),
        rt,
        move |scope| -> Vec<EndedThread<Led, P>>
            requires passage { P.opens ≡ G.opens gate.now }
            requires all { (vec_len callers ≤ 64) × (vec_len callers ≡ length flags.now) }
            requires none { (vec_len running ≡ 0) × (vec_len ended ≡ 0) }
            requires room { (vec_len callers ≤ vec_capacity running) × (vec_len callers ≤ vec_capacity ended) }
        {
            let (mut callers, mut running, mut ended) = (callers, running, ended);
            while let Some(caller) = callers.pop() {
                let thread = callers.len();
                let flag = &flags[thread];
                match scope.spawn(move || work_seated::<P, Led, R, G>(
                    alloc, plan, gate, thread, caller, flag,
                )) {
                    Ok(handle) => running.push_reserved(handle),
                    Err(refused) => {
                        flag.store(false, Ordering::SeqCst);
                        ended.push_reserved((refused.value)());
                    }
                }
            }
            join_all(rt, running, ended)
        },
    ))
}

/// This many flags, each of which says that a thread was started.
fn flags(alloc: Global, count: usize) -> Result<Vec<AtomicBool>, AllocError>
    ensures { IfOk result (λ flags. vec_len flags ≡ count) }
{
    let mut flags = Vec::with_capacity(alloc, count)?;
    for _ in 0..count {
        flags.push_reserved(AtomicBool::new(true));
    }
    Ok(flags)
}

/// Joins all that run, beside those that ended.
fn join_all<P: Passage, Led: Ledger, R: Threads>(
    rt: &R,
    running: Vec<JoinHandle<EndedThread<Led, P>>>,
    ended: Vec<EndedThread<Led, P>>,
) -> Vec<EndedThread<Led, P>>
    requires { vec_len ended + vec_len running ≤ vec_capacity ended }
{
    let (mut running, mut ended) = (running, ended);
    while let Some(handle) = running.pop() {
        ended.push_reserved(handle.join(rt));
    }
    ended
}

/// What a thread runs. It leaves its seat whatever stopped it. One that was not started makes no step.
fn work_seated<P: Passage, Led: Ledger, R: Wait, G: Gate>(
    alloc: Global,
    plan: &Plan<'_>,
    gate: &G,
    thread: usize,
    caller: Seated<'_, Led, R>,
    flag: &AtomicBool,
) -> EndedThread<Led, P>
    requires thread { thread < 64 }
    requires passage { P.opens ≡ G.opens gate.now }
{
    let mut caller = caller;
    let stop = if flag.load(Ordering::SeqCst) {
        work(alloc, plan, thread, gate, &mut caller)
    } else {
        Err(AllocError)
    };
    let (left, rings) = caller.leave();
    EndedThread {
        left,
        rings,
        stop,
        passage: PhantomData,
    }
}

/// All seats leave at once, since the declared objects could not be made.
fn leave_all<P: Passage, Led: Ledger, R: Wait>(
    alloc: Global,
    callers: Vec<Seated<'_, Led, R>>,
) -> Result<Vec<EndedThread<Led, P>>, AllocError> {
    let mut ended = Vec::with_capacity(alloc, callers.len())?;
    let mut callers = callers;
    while let Some(caller) = callers.pop() {
        let (left, rings) = caller.leave();
        ended.push_reserved(EndedThread {
            left,
            rings,
            stop: Ok(Stop::Done),
            passage: PhantomData,
        });
    }
    Ok(ended)
}

/// The lefts of all, what went by lanes and feeds, and how they ended.
fn gather<P: Passage, Led: Ledger>(
    alloc: Global,
    script: &Script,
    first: Left<Led>,
    stopped: Result<Stop, AllocError>,
    ended: Vec<EndedThread<Led, P>>,
) -> Result<Ended<Led>, AllocError>
    requires { P.opens ≡ true → IsUnheld stopped }
    ensures { IfOk result (λ ended. P.opens ≡ true → ended.stop ≢ Stop.Held) }
{
    let mut tally = Tally::new(alloc, count_feeds(script), count_lanes(&ended))?;
    let mut lefts = Vec::new(alloc);
    lefts.push(first)?;
    let mut stop = stopped;
    for one in ended {
        one.rings.tell(one.left.seat(), &mut tally);
        lefts.push(one.left)?;
        stop = first_of(stop, one.stop);
    }
    Ok(Ended {
        lefts,
        tally,
        stop: stop?,
    })
}

/// How many lanes the threads opened.
fn count_lanes<P: Passage, Led: Ledger>(ended: &[EndedThread<Led, P>]) -> usize {
    let mut lanes = 0usize;
    for one in ended {
        lanes = lanes.saturating_add(one.rings.opened());
    }
    lanes
}
