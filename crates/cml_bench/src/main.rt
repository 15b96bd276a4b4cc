//! `cml_bench [N [NAME]]`: with a number it prints how long calls take, each workload done N times, or those of this name.
//! Without a number it prints the sum of each workload, done a few times.
#![tactic(auto)]

mod board;
mod hall;
mod lane;
mod logs;
mod messages;
mod roles;
mod workloads;

use cml_board::{Bytes, Text};
use cml_log::{ChunkLog, PlainLog};
use messages::Numbered;
use std::alloc::Global;
use std::process::ExitCode;
use std::rt::Clock;
use std::sync::Wait;
use std::thread::Threads;
use std::time::Duration;
use std::{env, io};
use workloads::{Ground, Messages, WORKLOADS, Workload};

/// How many multicasts, each with its receives, are within a journal's limit.
const MOST: u64 = 400_000_000;

const LIMIT: u64 = 4_294_967_296;

/// The runtime of a program with threads.
pub trait Runtime: Print + Clock + Threads + Wait + Sync {}

impl<R: Print + Clock + Threads + Wait + Sync> Runtime for R {}

/// A workload that is done N times, and whether times are printed.
#[derive(Drop)]
pub struct Run<'a, R> {
    rt: &'a R,
    alloc: Global,
    workload: Workload,
    count: u64,
    is_timed: bool,
}

/// What took a time, the time, and how many calls, hops or requests took it.
#[derive(Clone, Copy)]
pub struct Timed(pub &'static str, pub Duration, pub u64);

fn main(rt: HostRuntime) -> io::Result<ExitCode> {
    let words = env::args(&rt)?.collect::<Vec<String>>(rt.alloc())?;
    let Some((times, name)) = asked_by(&words) else {
        eprintln!(rt; "usage: cml_bench [N [NAME]], N from 1 to {MOST}, NAME of a workload")?;
        return Ok(ExitCode::from(2));
    };
    for workload in WORKLOADS.iter() {
        if workload.is_wanted(times, name) {
            Run {
                rt: &rt,
                alloc: rt.alloc(),
                workload: *workload,
                count: workload.turns(times.unwrap_or(100)),
                is_timed: times.is_some(),
            }
            .perform()?;
        }
    }
    Ok(ExitCode::SUCCESS)
}

/// How often each workload is timed, if not its sum is asked for, and the name of those that are done.
fn asked_by(words: &[String]) -> Option<(Option<u64>, Option<&str>)> {
    let times = match words.get(1) {
        Some(times) => Some(times.parse().ok().filter(|it| (1..=MOST).contains(it))?),
        None => None,
    };
    let name = words.get(2).map(String::as_str);
    let is_wanted = |workload: &Workload| workload.is_wanted(times, name);
    let is_understood = words.len() <= 3 && WORKLOADS.iter().any(is_wanted);
    is_understood.then_some((times, name))
}

impl<R: Runtime> Run<'_, R> {
    fn perform(&self) -> io::Result<()> {
        match self.workload.2 {
            Messages::Numbers | Messages::One => self.perform_with::<u64>(),
            Messages::Texts | Messages::LongTexts => self.perform_with::<Text>(),
            Messages::Bytes(_) => self.perform_with::<Bytes>(),
        }
    }

    fn perform_with<M: Numbered + Send + Sync>(&self) -> io::Result<()> {
        match self.workload.1 {
            Ground::Board | Ground::CutBoard | Ground::Journal => board::time::<M, R>(self),
            Ground::Deque => logs::time::<PlainLog<u64, 4>, R>(self, "seryugo_log_deque"),
            Ground::Chunks => logs::time::<ChunkLog<u64, 4>, R>(self, "seryugo_log_chunks"),
            Ground::Lane => lane::time(self),
            Ground::Hall => hall::time::<M, R>(self),
        }
    }

    /// Prints the sum and how many calls were made, or how many nanoseconds each took, with one digit after the point.
    fn tell(&self, sum: u64, timed: &[Timed]) -> io::Result<()> {
        let (rt, name) = (self.rt, self.workload.0);
        for Timed(subject, time, calls) in timed.iter() {
            if !self.is_timed {
                return println!(rt; "{name} {subject} {sum} {calls}");
            }
            let tenths = time.as_nanos().saturating_mul(10);
            let tenths = tenths.checked_div(*calls as u128).unwrap_or(0);
            println!(rt; "{name} {subject} {}.{}", tenths / 10, tenths % 10)?;
        }
        Ok(())
    }
}
