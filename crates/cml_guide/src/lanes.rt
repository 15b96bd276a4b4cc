//! A lane: a sensor sends without a lock, and another thread moves the messages into the journal and receives them.
ghost use Rattle.std.specs.Prelude.{◌≡◌, ◌+◌, IfOk};

use crate::calls::Trouble;
use crate::examples::collect;
use crate::threads::{Came, Shared, got, made, with_one};
use cml_board::{BoardLog, Name};
use cml_lanes::{Lane, LaneEnd};
use cml_log::MessageLog;
use cml_threads::{Count, Left, PARTS, Seat};
use std::alloc::Global;
use std::marker::Brand;
use std::sync::Wait;
use std::sync::atomic::{AtomicBool, Ordering};
use std::sync::ledger::{Blank, Ledger};
use std::thread;
use std::thread::Threads;

/// How many readings the sensor sends: 1, 2 and so on.
const READINGS: usize = 10;

/// The number of readings for which the lane has room: all of them, in case no thread can be made to collect them meanwhile.
const ROOM: usize = 16;

/// The sum of all readings, and how many entries there are at the end.
pub fn collected<R: Threads + Wait + Sync>(rt: &R, alloc: Global) -> Result<(u64, Count), Trouble>
    ensures { IfOk result (λ found. found.1.total ≡ found.1.seats + found.1.rings) }
{
    collect::<BoardLog<u64>, Brand, R>(rt, alloc, Blank::new(PARTS))
}

/// What was collected, and the collector's seat. The sensor has no seat: it only needs the lane.
pub fn send_and_collect<
    L: MessageLog<u64> + Send,
    Led: Ledger + Send + Sync,
    R: Threads + Wait + Sync,
>(rt: &R, alloc: Global, board: &Shared<L, Led>) -> Came<u64, Led> {
    let mut collector = board.seat(rt)?;
    let readings = made(board.mailbox(rt, &mut collector))?;
    let (lane, number) = board.open_lane(rt, readings, ROOM)?;
    let stopped = AtomicBool::new(false);
    let has_stopped = &stopped;
    let ((sum, left), end) = thread::join(
        rt,
        move || receive_and_leave(rt, board, collector, readings, number, has_stopped),
        move || send_all(rt, lane, has_stopped),
    );
    let closed = close(rt, board, number, end);
    with_one(alloc, closed.and(sum), left)
}

/// Sends all readings, or as many as there is room for once their collector has stopped, and finishes.
fn send_all<R: Wait>(
    rt: &R,
    mut lane: Lane<u64>,
    has_stopped: &AtomicBool,
) -> Option<LaneEnd<u64>> {
    for reading in 1..=READINGS as u64 {
        if !send(rt, &mut lane, reading, has_stopped) {
            break;
        }
    }
    lane.finish()
}

/// Sends a message, again and again while there is no room for it and its collector goes on. Says whether it was sent.
fn send<R: Wait>(rt: &R, lane: &mut Lane<u64>, message: u64, has_stopped: &AtomicBool) -> bool {
    for _ in rt.forever() {
        // Asked before the lane is tried: a collector that has stopped makes no more room.
        let last = has_stopped.load(Ordering::SeqCst);
        if lane.send(message).is_ok() {
            return true;
        }
        if last {
            return false;
        }
        thread::yield_now();
    }
    unreachable!()
}

/// Collects all readings, notes that it has stopped, and leaves even if that fails.
fn receive_and_leave<L: MessageLog<u64>, Led: Ledger, R: Wait>(
    rt: &R,
    board: &Shared<L, Led>,
    mut collector: Seat<Led>,
    readings: Name,
    lane: u64,
    has_stopped: &AtomicBool,
) -> (Result<u64, Trouble>, Left<Led>) {
    let sum = receive_all(rt, board, &mut collector, readings, lane);
    has_stopped.store(true, Ordering::SeqCst);
    (sum, board.leave(rt, collector))
}

/// Moves what was sent into the journal, and receives it, until all readings have come. Returns their sum.
fn receive_all<L: MessageLog<u64>, Led: Ledger, R: Wait>(
    rt: &R,
    board: &Shared<L, Led>,
    collector: &mut Seat<Led>,
    readings: Name,
    lane: u64,
) -> Result<u64, Trouble> {
    let mut come = 0usize;
    let mut sum = 0u64;
    for _ in rt.forever() {
        if come >= READINGS {
            return Ok(sum);
        }
        let moved = board.drain(rt, lane)?;
        come = come.saturating_add(moved);
        sum = sum.wrapping_add(receive(rt, board, collector, readings, moved)?);
        thread::yield_now();
    }
    unreachable!()
}

/// Receives `count` readings, and returns their sum.
fn receive<L: MessageLog<u64>, Led: Ledger, R: Wait>(
    rt: &R,
    board: &Shared<L, Led>,
    collector: &mut Seat<Led>,
    readings: Name,
    count: usize,
) -> Result<u64, Trouble> {
    let mut sum = 0u64;
    for _ in 0..count {
        sum = sum.wrapping_add(got(board.recv(rt, collector, readings))?);
    }
    Ok(sum)
}

/// Closes the lane. If that fails, abandons it: no call fails with `Stalled` while it is open.
fn close<L: MessageLog<u64>, Led: Ledger, R: Wait>(
    rt: &R,
    board: &Shared<L, Led>,
    lane: u64,
    end: Option<LaneEnd<u64>>,
) -> Result<(), Trouble> {
    let closed = close_by(rt, board, lane, end);
    if closed.is_err() {
        board.abandon_lane(rt, lane)?;
    }
    closed
}

/// Closes the lane by its end, or without one by `drop_lane`.
fn close_by<L: MessageLog<u64>, Led: Ledger, R: Wait>(
    rt: &R,
    board: &Shared<L, Led>,
    lane: u64,
    end: Option<LaneEnd<u64>>,
) -> Result<(), Trouble> {
    let Some(end) = end else {
        let (_moved, is_closed) = board.drop_lane(rt, lane)?;
        if !is_closed {
            return Err(Trouble::Unclosed);
        }
        return Ok(());
    };
    board.close_lane(rt, end)?;
    Ok(())
}
