//! Workloads of one thread on a board.
use crate::messages::{Numbered, Supply};
use crate::roles::{Caller, Crews, Done, Verb, make_objects};
use crate::workloads::{Ground, Messages};
use crate::{LIMIT, Run, Runtime, Timed};
use cml_board::{Board, BoardLog, Name, Reply, Response, Who, check};
use std::io;
use std::io::ErrorKind::{InvalidData, OutOfMemory};
use std::time::{Duration, Instant};

/// A board with its objects, and a sum over the messages that were received, which their order changes.
#[derive(Drop)]
pub struct OnBoard<M: Numbered> {
    supply: Supply,
    board: Board<M, BoardLog<M>>,
    crews: Crews,
    sum: u64,
}

impl<M: Numbered> Caller for OnBoard<M> {
    fn make(&mut self, verb: Verb, name: Name, number: u64) -> Option<u64> {
        let call = verb.call(&self.supply, name, number)?;
        let Response::Reply(reply) = self.board.call(Who::Seat(0), call) else {
            return None;
        };
        if let Reply::Got(message) = reply {
            self.sum = message.added_to(self.sum);
        }
        Some(number)
    }
}

pub fn time<M: Numbered, R: Runtime>(run: &Run<R>) -> io::Result<()> {
    let mut on = OnBoard::<M>::new(run)?;
    match run.workload.1 {
        Ground::CutBoard => on.time_with_cuts(run),
        Ground::Journal => on.time_check(run),
        _ => on.time(run),
    }
}

impl<M: Numbered> OnBoard<M> {
    pub fn new<R>(run: &Run<R>) -> io::Result<OnBoard<M>> {
        let mut on = OnBoard {
            supply: Supply::new(run.alloc, run.workload.2)?,
            board: Board::new(run.alloc, LIMIT)?,
            crews: run.workload.3,
            sum: 0,
        };
        make_objects(on.crews, &mut on).ok_or(OutOfMemory)?;
        Ok(on)
    }

    /// Makes the turns of each role with `count` messages, the first of which has the number `first`.
    pub fn perform(&mut self, first: u64, count: u64) -> Done {
        for (_, role) in self.crews.iter() {
            let part = role.part(0, 1, count);
            part.perform(self, first, first.saturating_add(count))?;
        }
        Some(())
    }

    fn timed<R: Runtime>(&mut self, rt: &R, first: u64, count: u64) -> io::Result<Duration> {
        let start = Instant::now(rt)?;
        self.perform(first, count).ok_or(OutOfMemory)?;
        Ok(start.elapsed(rt)?)
    }

    fn time<R: Runtime>(&mut self, run: &Run<R>) -> io::Result<()> {
        let (first, count) = match run.workload.2 {
            Messages::One => (1, 1),
            Messages::LongTexts => (10_000_000_000_000_000_000, run.count),
            _ => (0, run.count),
        };
        let made = self.board.entries();
        let time = self.timed(run.rt, first, count)?;
        let calls = self.board.entries().saturating_sub(made);
        run.tell(self.sum, &[Timed("seryugo_board", time, calls)])
    }

    /// A cut follows each piece. The times of the first and the last piece are without their cuts.
    fn time_with_cuts<R: Runtime>(&mut self, run: &Run<R>) -> io::Result<()> {
        let piece = run.count.min(if run.is_timed { 50_000 } else { 10 });
        let (start, mut first, mut last) = (Instant::now(run.rt)?, None, Duration::ZERO);
        for place in 0..run.count.checked_div(piece).unwrap_or(1) {
            last = self.timed(run.rt, place.saturating_mul(piece), piece)?;
            first = first.or(Some(last));
            self.board.cut();
        }
        let (entries, calls) = (self.board.entries(), piece.saturating_mul(2));
        let timed = [
            Timed("seryugo_board", start.elapsed(run.rt)?, entries),
            Timed("seryugo_board_first", first.unwrap_or(last), calls),
            Timed("seryugo_board_last", last, calls),
        ];
        run.tell(self.sum, &timed)
    }

    /// The time of a check of the whole journal. How many entries it has counts as the sum.
    fn time_check<R: Runtime>(&mut self, run: &Run<R>) -> io::Result<()> {
        self.perform(0, run.count).ok_or(OutOfMemory)?;
        let entries = self.board.journal();
        let calls = entries.len() as u64;
        let start = Instant::now(run.rt)?;
        if calls > LIMIT || check(run.alloc, entries)?.is_err() {
            return Err(InvalidData.into());
        }
        let time = start.elapsed(run.rt)?;
        run.tell(calls, &[Timed("seryugo_board", time, calls)])
    }
}
