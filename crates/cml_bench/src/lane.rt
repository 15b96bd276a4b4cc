//! A lane to a mailbox, which one thread fills and drains in turn. Beside it a bare ring, and the same sends on a board.
use crate::board::OnBoard;
use crate::roles::Done;
use crate::{LIMIT, Run, Runtime, Timed};
use cml_board::{Board, BoardLog, Call, Name};
use cml_lanes::{Floor, Lane};
use rtrb::{Consumer, Producer, RingBuffer};
use std::io;
use std::io::ErrorKind::OutOfMemory;
use std::time::{Duration, Instant};

/// The number of messages for which a ring has room. It is filled, and then emptied.
const CAPACITY: usize = 1_024;

/// A lane to a mailbox on a floor, the two ends of a bare ring, and a board.
#[derive(Drop)]
struct Ways {
    floor: Floor<u64, BoardLog<u64>>,
    lane: Lane<u64>,
    ring: (Producer<u64>, Consumer<u64>),
    board: OnBoard<u64>,
}

/// N messages and the rest of a ring. How many passed the lane counts as the sum.
pub fn time<R: Runtime>(run: &Run<R>) -> io::Result<()> {
    let mut floor = Floor::new(run.alloc, Board::new(run.alloc, LIMIT)?);
    floor.apply(0, Call::NewMailbox);
    let (lane, _) = floor.open_lane(Name(0), CAPACITY).ok().ok_or(OutOfMemory)?;
    let mut ways = Ways {
        floor,
        lane,
        ring: RingBuffer::new(run.alloc, CAPACITY)?,
        board: OnBoard::new(run)?,
    };
    ways.time(run)
}

impl Ways {
    fn time<R: Runtime>(&mut self, run: &Run<R>) -> io::Result<()> {
        let rounds = run.count / CAPACITY as u64 + 1;
        let calls = rounds.saturating_mul(CAPACITY as u64);
        let mut timed = [
            Timed("seryugo_lane_send", Duration::ZERO, calls),
            Timed("seryugo_lane_drain", Duration::ZERO, calls),
            Timed("rtrb_push_pop", Duration::ZERO, calls),
            Timed("seryugo_board", Duration::ZERO, calls),
        ];
        for round in 0..rounds {
            self.add_round(run.rt, round, &mut timed)?;
        }
        // The making of the mailbox is an entry too.
        run.tell(self.floor.board().entries().saturating_sub(1), &timed)
    }

    fn add_round<R: Runtime>(&mut self, rt: &R, round: u64, timed: &mut [Timed]) -> io::Result<()> {
        for (place, timed) in timed.iter_mut().enumerate() {
            let start = Instant::now(rt)?;
            self.pass(place, round).ok_or(OutOfMemory)?;
            timed.1 = timed.1.saturating_add(start.elapsed(rt)?);
        }
        Ok(())
    }

    /// Passes as many messages as a ring has room for, in the way at this place.
    fn pass(&mut self, place: usize, first: u64) -> Done {
        match place {
            0 => self.send(first),
            1 => drop(self.floor.drain(self.lane.number()).ok()?),
            2 => self.push_and_pop(first),
            _ => self.board.perform(0, CAPACITY as u64)?,
        }
        Some(())
    }

    fn send(&mut self, first: u64) {
        for place in 0..CAPACITY as u64 {
            self.lane.send(first.wrapping_add(place)).is_ok();
        }
    }

    fn push_and_pop(&mut self, first: u64) {
        for place in 0..CAPACITY as u64 {
            let _ = self.ring.0.push(first.wrapping_add(place));
        }
        for _ in 0..CAPACITY {
            let _ = self.ring.1.pop();
        }
    }
}
