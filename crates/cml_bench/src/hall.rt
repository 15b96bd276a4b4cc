//! Workloads on a switchboard. The clock runs from before the objects are made until all threads have left.
ghost use Rattle.std.specs.Prelude.{◌≡◌, ◌^◌};

use crate::messages::{Numbered, Supply};
use crate::roles::{Caller, Done, Part, Role, Verb, make_objects};
use crate::{LIMIT, Run, Runtime, Timed};
use cml_board::{Ask, BoardLog, Give, Name, Reply};
use cml_lanes::{Feed, Lane};
use cml_threads::{Left, PARTS, Seat, Switchboard};
use std::io::ErrorKind::{InvalidData, OutOfMemory};
use std::marker::Brand;
use std::sync::ledger::{Blank, Ledger};
use std::time::{Duration, Instant};
use std::{io, thread};

/// The number of messages for which a lane or a feed has room.
const ROOM: usize = 1_024;

/// How many messages a sender sends before it waits until all were received.
const WINDOW: u64 = 1_000;

/// After how many windows the journal is taken. Each adds at least two entries a message.
const WINDOWS: u64 = 50;

/// After how many entries of lanes and feeds the journal is cut while they are open.
const PIECE: u64 = 100_000;

/// How many messages are multicast before each feed is pumped.
const BATCH: u64 = 256;

/// How long a thread lets the others work if its ring is full or empty, in microseconds.
const PAUSE: u64 = 20;

/// What the threads share.
#[derive(Drop)]
struct Hall<'a, M: Numbered, Led: Ledger, R> {
    run: &'a Run<'a, R>,
    supply: Supply,
    board: Switchboard<M, BoardLog<M>, Led>,
}

/// By what a thread reaches the switchboard: its seat, or what is left of it, a lane, or a feed.
#[derive(Drop)]
enum By<S, M: Numbered> {
    Seat(S),
    Lane(Lane<M>),
    Feed(Feed<M>),
}

type Job<M, Led> = (By<Seat<Led>, M>, Part);

/// The lanes that are drained, or the feeds that are pumped: those of the numbers below this one.
#[derive(Clone, Copy)]
enum Rings {
    Lanes(u64),
    Feeds(u64),
}

/// A thread's seat, what it does, and a sum over what it received.
#[derive(Drop)]
struct Seated<'a, M: Numbered, Led: Ledger, R> {
    hall: &'a Hall<'a, M, Led, R>,
    seat: Seat<Led>,
    part: Part,
    sum: u64,
}

/// What a thread hands over if nothing failed, with a sum over what it received.
type Handed<M, Led> = Option<(By<Left<Led>, M>, u64)>;

pub fn time<M: Numbered + Send + Sync, R: Runtime>(run: &Run<R>) -> io::Result<()> {
    performed::<M, Brand, R>(run, Blank::new(PARTS))
}

fn performed<M: Numbered + Send + Sync, Led: Ledger + Send + Sync, R: Runtime>(
    run: &Run<R>,
    blank: Blank,
) -> io::Result<()>
    requires name { blank.name ≡ Led.name }
    requires parts { blank.parts ≡ Led.parts }
    requires enough { blank.parts ≡ 2 ^ 63 }
{
    let supply = Supply::new(run.alloc, run.workload.2)?;
    let board = Switchboard::<M, BoardLog<M>, Led>::new(run.alloc, LIMIT, blank)?;
    board.tune(run.rt);
    let mut lefts = Vec::new(run.alloc);
    let hall = Hall { run, supply, board };
    let (sum, time) = hall.work(&mut lefts)?;
    let settled = hall.board.settle(lefts).ok().ok_or(InvalidData)?;
    // A turn with a token or a request counts for one, with all calls that it takes.
    let calls = match run.workload.3.first() {
        Some((_, Role::Passer | Role::Worker)) => run.count,
        _ => settled.count().total,
    };
    run.tell(sum, &[Timed("seryugo_switchboard", time, calls)])
}

impl<M: Numbered + Send + Sync, Led: Ledger + Send + Sync, R: Runtime> Hall<'_, M, Led, R> {
    /// The sum over all that was received, and the time.
    fn work(&self, lefts: &mut Vec<Left<Led>>) -> io::Result<(u64, Duration)> {
        let (rt, mut sum) = (self.run.rt, 0u64);
        let start = Instant::now(rt)?;
        let maker = self.job(Role::Maker.part(0, 1, 0)).ok_or(OutOfMemory)?;
        self.finish(self.perform(maker), lefts).ok_or(InvalidData)?;
        let mut jobs = Vec::new(self.run.alloc);
        self.fill(&mut jobs)?;
        // This thread does the last job. If no thread can be made, it does all jobs, the last first.
        for handed in thread::map_vec(rt, jobs, &|job: Job<M, Led>| { self.perform(job) })? {
            sum = sum.wrapping_add(self.finish(handed, lefts).ok_or(InvalidData)?);
        }
        Ok((sum, start.elapsed(rt)?))
    }

    /// Adds a job for each thread.
    fn fill(&self, jobs: &mut Vec<Job<M, Led>>) -> io::Result<()> {
        let run = self.run;
        for (threads, role) in run.workload.3.iter() {
            for place in 0..*threads {
                let part = role.part(place, *threads, run.count);
                jobs.push(self.job(part).ok_or(OutOfMemory)?)?;
            }
        }
        Ok(())
    }

    /// A job with a new seat, lane or feed.
    fn job(&self, part: Part) -> Option<Job<M, Led>> {
        let (rt, board, first) = (self.run.rt, &self.board, Name(0));
        let by = match part.role {
            Role::Filler => By::Lane(board.open_lane(rt, first, ROOM).ok()?.0),
            Role::FeedReader => By::Feed(board.open_feed(rt, first, ROOM).ok()?.0),
            _ => By::Seat(board.seat(rt).ok()?),
        };
        Some((by, part))
    }

    fn perform(&self, job: Job<M, Led>) -> Handed<M, Led> {
        let (by, part) = job;
        match by {
            By::Seat(seat) => self.perform_by(seat, part),
            By::Lane(lane) => Some((By::Lane(self.send_on(lane, part)?), 0)),
            By::Feed(feed) => Some(self.take_from(feed)),
        }
    }

    /// Closes a thread's lane or its feed, and returns the sum over what it received.
    fn finish(&self, handed: Handed<M, Led>, lefts: &mut Vec<Left<Led>>) -> Option<u64> {
        let (rt, board, (by, sum)) = (self.run.rt, &self.board, handed?);
        match by {
            By::Seat(left) => lefts.push(left).ok()?,
            By::Lane(lane) => board.close_lane(rt, lane.finish()?).ok()?,
            By::Feed(feed) => drop(board.end_feed(rt, feed.number()).ok()?),
        }
        Some(sum)
    }
}

impl<M: Numbered, Led: Ledger, R: Runtime> Hall<'_, M, Led, R> {
    /// Leaves when all calls were made, or when one failed.
    fn perform_by(&self, seat: Seat<Led>, part: Part) -> Handed<M, Led> {
        let mut seated = Seated {
            hall: self,
            seat,
            part,
            sum: 0,
        };
        let done = seated.perform();
        let left = self.board.leave(self.run.rt, seated.seat);
        done?;
        Some((By::Seat(left), seated.sum))
    }

    /// Sends each message of a part, again and again until there is room for it.
    fn send_on(&self, lane: Lane<M>, part: Part) -> Option<Lane<M>> {
        let (rt, mut lane, mut next) = (self.run.rt, lane, part.start);
        for _ in rt.forever() {
            if next >= part.end {
                break;
            }
            match lane.send(M::of_number(&self.supply, next)?) {
                Ok(()) => next = next.saturating_add(1),
                Err(_) => thread::sleep(rt, Duration::from_micros(PAUSE)),
            }
        }
        Some(lane)
    }

    /// Takes all messages from a feed, and returns their sum too.
    fn take_from(&self, feed: Feed<M>) -> (By<Left<Led>, M>, u64) {
        let (run, mut feed, mut taken, mut sum) = (self.run, feed, 0u64, 0u64);
        for _ in run.rt.forever() {
            if taken >= run.count {
                break;
            }
            match feed.recv() {
                Some(message) => {
                    taken = taken.saturating_add(1);
                    sum = sum.wrapping_add(message.added_to(0));
                }
                None => thread::sleep(run.rt, Duration::from_micros(PAUSE)),
            }
        }
        (By::Feed(feed), sum)
    }
}

impl<M: Numbered, Led: Ledger, R: Runtime> Caller for Seated<'_, M, Led, R> {
    fn make(&mut self, verb: Verb, name: Name, number: u64) -> Option<u64> {
        let hall = self.hall;
        let call = verb.call(&hall.supply, name, number)?;
        let reply = hall.board.reply(hall.run.rt, &mut self.seat, call).ok()?;
        let Reply::Got(message) = reply else {
            return Some(number);
        };
        let received = message.added_to(0);
        self.sum = self.part.role.add(self.sum, received);
        Some(received)
    }
}

impl<M: Numbered, Led: Ledger, R: Runtime> Seated<'_, M, Led, R> {
    fn perform(&mut self) -> Done {
        let (part, run) = (self.part, self.hall.run);
        match part.role {
            Role::Maker => make_objects(run.workload.3, self),
            Role::Pacer => self.perform_windows(Verb::Ask(Ask::Recv)),
            Role::Cutter => self.perform_windows(Verb::Give(Give::Send)),
            Role::Drainer(lanes) => self.move_all(Rings::Lanes(lanes), part.end),
            Role::Pumper(feeds) => {
                self.move_all(Rings::Feeds(feeds), part.end.saturating_mul(feeds))
            }
            Role::Soaker(lanes, feeds) => self.soak(lanes, feeds),
            _ => part.perform(self, part.start, part.end),
        }
    }

    /// Makes a call after each window, by which a sender waits until it may go on.
    fn perform_windows(&mut self, after: Verb) -> Done {
        let (part, hall) = (self.part, self.hall);
        for window in 0..part.end.div_ceil(WINDOW) {
            let start = window.saturating_mul(WINDOW);
            part.perform(self, start, start.saturating_add(WINDOW).min(part.end))?;
            if matches!(part.role, Role::Cutter) && window % WINDOWS == WINDOWS - 1 {
                // The entries are dropped here, without the lock.
                drop(hall.board.take_journal(hall.run.rt));
            }
            self.make(after, Name(1), window)?;
        }
        Some(())
    }

    /// Drains the lanes and receives what came, or multicasts a batch and pumps the feeds, until this many messages have moved.
    fn move_all(&mut self, rings: Rings, all: u64) -> Done {
        let (part, mut next, mut moved) = (self.part, 0u64, 0u64);
        for _ in self.hall.run.rt.forever() {
            let end = match part.role {
                Role::Drainer(_) => moved,
                _ => part.end.min(next.saturating_add(BATCH)),
            };
            part.perform(self, next, end)?;
            next = end;
            if next >= part.end && moved >= all {
                break;
            }
            moved = moved.saturating_add(self.move_each(rings));
        }
        Some(())
    }

    /// Drains the lanes once each feed's port has received all that came before, until all messages went through. Cuts the
    /// journal again and again, while the lanes and feeds are open. So the channel keeps few messages, and the journal few entries.
    fn soak(&mut self, lanes: u64, feeds: u64) -> Done {
        let (hall, mut left, mut owed, mut entries) = (self.hall, self.part.end, 0u64, 0u64);
        for _ in hall.run.rt.forever() {
            if left == 0 && owed == 0 {
                break;
            }
            if owed == 0 {
                let sent = self.move_each(Rings::Lanes(lanes));
                left = left.saturating_sub(sent);
                owed = sent.saturating_mul(feeds);
                entries = entries.saturating_add(sent);
            }
            let received = self.move_each(Rings::Feeds(feeds));
            owed = owed.saturating_sub(received);
            entries = entries.saturating_add(received);
            if entries >= PIECE {
                hall.board.cut_open(hall.run.rt);
                entries = 0;
            }
        }
        Some(())
    }

    /// Drains each lane or pumps each feed once, and returns how many messages moved. If none did, it lets the others work.
    fn move_each(&self, rings: Rings) -> u64 {
        let (rt, board, mut sum) = (self.hall.run.rt, &self.hall.board, 0u64);
        let (Rings::Lanes(count) | Rings::Feeds(count)) = rings;
        for ring in 0..count {
            let moved = match rings {
                Rings::Lanes(_) => board.drain(rt, ring),
                Rings::Feeds(_) => board.pump(rt, ring),
            };
            sum = sum.saturating_add(moved.unwrap_or(0) as u64);
        }
        if sum == 0 {
            thread::yield_now();
        }
        sum
    }
}
