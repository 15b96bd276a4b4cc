//! A switchboard that goes on from a journal: its new seats are numbered after the old ones, and their threads wake each other.
ghost use Rattle.std.specs.Prelude.{◌≡◌, ◌^◌};

use super::scene::{Numbers, alone, tell};
use cml_board::{Answer, Board, BoardLog, Call, Checker, Name, Restored, Who};
use cml_threads::{Left, PARTS, Seat, Settled};
use std::alloc::Global;
use std::marker::Brand;
use std::sync::Wait;
use std::sync::ledger::{Blank, Ledger};
use std::thread::{self, Threads};

/// The journal has three entries of seats, the last of which has number 4, and one of a lane. Two new seats make 400 calls each. Each
/// line has a left: the number of its seat, for how many seats it is, and how many answers these had. In the end all answers
/// of the new seats are confirmed.
pub const TOLD: &str = "(0, 5, 3)
(5, 1, 400)
(6, 1, 400)
Count { seats: 803, rings: 1, total: 804 }
confirmed 800
";

const ROUNDS: u64 = 200;

const TO: Name = Name(0);

const FRO: Name = Name(1);

pub fn told<R: Threads + Wait + Sync>(rt: &R, alloc: Global) -> String {
    let mut text = String::new(alloc);
    go_on::<Brand, R>(rt, alloc, &mut text, Blank::new(PARTS));
    text
}

fn go_on<Led: Ledger + Send + Sync, R: Threads + Wait + Sync>(
    rt: &R,
    alloc: Global,
    text: &mut String,
    blank: Blank,
)
    requires name { blank.name ≡ Led.name }
    requires parts { blank.parts ≡ Led.parts }
    requires enough { blank.parts ≡ 2 ^ 63 }
{
    let Some(restored) = board_of_journal(alloc) else {
        return;
    };
    if let Ok((board, left)) = Numbers::<Led>::restore(alloc, restored, blank) {
        let mut lefts = alone(alloc, left);
        let answers = add_new(rt, alloc, &board, &mut lefts);
        tell_lefts(text, &lefts);
        if let Ok(settled) = board.settle(lefts) {
            tell(text, &settled.count());
            let confirmed = confirmed(&settled, &answers);
            write!(text, "confirmed {confirmed}\n").is_ok();
        }
    }
}

/// What a checker restores from a journal.
fn board_of_journal(alloc: Global) -> Option<Restored<u64, BoardLog<u64>>> {
    let mut board: Board<u64, BoardLog<u64>> = Board::new(alloc, 10).ok()?;
    board.apply(Who::Seat(2), Call::NewMailbox);
    board.apply(Who::Seat(4), Call::NewMailbox);
    board.apply(Who::Seat(4), Call::Send(TO, 7));
    board.apply(Who::Lane(1), Call::Send(TO, 8));
    let entries = board.take_journal();
    let mut checker: Checker<u64> = Checker::new(alloc).ok()?;
    checker.feed(entries.as_slice()).ok()?.ok()?;
    checker.restore(1_000)
}

/// What a thread returns: what its seat left, and its answers.
type Called<Led> = (Left<Led>, Vec<Answer<u64>>);

/// Two new seats call until each has made all its calls, and leave. Returns all answers.
fn add_new<Led: Ledger + Send + Sync, R: Threads + Wait + Sync>(
    rt: &R,
    alloc: Global,
    board: &Numbers<Led>,
    lefts: &mut Vec<Left<Led>>,
) -> Vec<Answer<u64>> {
    let mut seats = Vec::new(alloc);
    for _ in 0..2 {
        if let Ok(seat) = board.seat(rt) {
            seats.push(seat).is_ok();
        }
    }
    let mut all = Vec::new(alloc);
    if let Ok(done) = thread::map_vec(
        rt,
        seats,
        &|seat: Seat<Led>| { call_all(rt, alloc, board, seat) },
    ) {
        add_all(done, lefts, &mut all);
    }
    all
}

fn add_all<Led: Ledger>(
    done: Vec<Called<Led>>,
    lefts: &mut Vec<Left<Led>>,
    all: &mut Vec<Answer<u64>>,
) {
    for (left, answers) in done {
        lefts.push(left).is_ok();
        add_answers(answers, all);
    }
}

fn add_answers(answers: Vec<Answer<u64>>, all: &mut Vec<Answer<u64>>) {
    for answer in answers {
        all.push(answer).is_ok();
    }
}

/// Each needs what the other sends.
fn call_all<Led: Ledger, R: Wait>(
    rt: &R,
    alloc: Global,
    board: &Numbers<Led>,
    seat: Seat<Led>,
) -> Called<Led> {
    let mut seat = seat;
    let mut answers = Vec::new(alloc);
    for round in 0..2 * ROUNDS {
        let call = call_of(seat.number(), round);
        if let Ok(answer) = board.call(rt, &mut seat, call) {
            answers.push(answer).is_ok();
        }
    }
    (board.leave(rt, seat), answers)
}

fn call_of(seat: u64, round: u64) -> Call<u64> {
    match (seat == 5, round % 2 == 0) {
        (true, true) => Call::Send(TO, round),
        (true, false) => Call::Recv(FRO),
        (false, true) => Call::Recv(TO),
        (false, false) => Call::Send(FRO, round),
    }
}

/// How many of these answers the journal confirms.
fn confirmed(settled: &Settled<u64, BoardLog<u64>>, answers: &[Answer<u64>]) -> usize {
    let mut count = 0usize;
    for answer in answers.iter() {
        if settled.board().confirm(answer) {
            count = count.saturating_add(1);
        }
    }
    count
}

fn tell_lefts<Led: Ledger>(text: &mut String, lefts: &Vec<Left<Led>>) {
    for left in lefts {
        tell(text, &(left.seat(), left.seats(), left.answers()));
    }
}
