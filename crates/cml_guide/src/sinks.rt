//! A journal that is cut by itself: the call that finds it full hands its entries to a sink, and is then made.
ghost use Rattle.std.specs.Prelude.{◌≡◌, []};

use crate::calls::{Trouble, message_of, name_of, nothing_of};
use crate::examples::count_in_pieces;
use crate::threads::{Came, Ended, gathered, settle};
use cml_board::{BoardLog, Call, Entry, GhostEntries, Name};
use cml_log::MessageLog;
use cml_threads::{Count, Failure, Keeping, Left, PARTS, Seat, Sink, Start};
use std::alloc::Global;
use std::marker::Brand;
use std::sync::Wait;
use std::sync::ledger::{Blank, Ledger};
use std::thread;
use std::thread::Threads;

/// How many entries the journal takes before it is cut.
pub const PIECE: u64 = 64;

/// How many threads raise the counter, and how often each does.
const THREADS: usize = 4;

const ROUNDS: u64 = 125;

/// A sink that counts the entries that it takes, and drops them.
#[derive(Drop)]
pub struct Counting {
    pieces: u64,
    entries: u64,
    dropped: GhostEntries<Entry<u64>>,
}

impl Counting {
    pub fn new() -> Counting
        ensures { result.dropped.items ≡ [] }
    {
        Counting {
            pieces: 0,
            entries: 0,
            dropped: GhostEntries::none(),
        }
    }
}

impl Sink<u64> for Counting {
    type Error = Trouble;

    ghost taken = { λ sink. sink.dropped.items };

    fn take(&mut self, entries: &mut Vec<Entry<u64>>) -> Result<(), Trouble> {
        self.pieces = self.pieces.wrapping_add(1);
        self.entries = self.entries.wrapping_add(entries.len() as u64);
        self.dropped.add_all(entries);
        entries.clear();
        Ok(())
    }
}

/// A switchboard whose journal goes to this sink.
pub type Counted<L, Led> = Keeping<u64, L, Led, Counting>;

/// The result: the counter's value, what the sink took, and how many entries there are at the end.
#[derive(Clone, Copy, Debug)]
pub struct Pieces {
    counter: u64,
    pieces: u64,
    entries: u64,
    count: Count,
}

impl From<(Failure<Trouble>, Call<u64>)> for Trouble {
    fn from(back: (Failure<Trouble>, Call<u64>)) -> Trouble {
        match back.0 {
            Failure::Refused(refusal) => Trouble::Refused(refusal),
            Failure::NotKept(trouble) => trouble,
        }
    }
}

/// Four threads raise a counter, with more calls than the journal takes.
pub fn counted_by_four<R: Threads + Wait + Sync>(rt: &R, alloc: Global) -> Result<Pieces, Trouble> {
    count_in_pieces::<BoardLog<u64>, Brand, R>(rt, alloc, Blank::new(PARTS))
}

/// Lets the threads raise a counter. Returns its name and their seats.
pub fn raise_by_four<
    L: MessageLog<u64> + Send,
    Led: Start<u64> + Send + Sync,
    R: Threads + Wait + Sync,
>(rt: &R, alloc: Global, board: &Counted<L, Led>) -> Came<Name, Led> {
    let (seats, counter) = begin(rt, alloc, board)?;
    let raised = thread::map_vec(rt, seats, &|seat| raise(rt, board, seat, counter))?;
    let (_, lefts) = gathered(alloc, raised)?;
    Ok((counter, lefts))
}

/// The threads' seats, and the counter.
fn begin<L: MessageLog<u64>, Led: Start<u64>, R: Wait>(
    rt: &R,
    alloc: Global,
    board: &Counted<L, Led>,
) -> Result<(Vec<Seat<Led>>, Name), Trouble> {
    let mut first = board.seat(rt)?;
    let counter = name_of(board.reply(rt, &mut first, Call::MVarInit(0))?)?;
    let mut seats = Vec::new(alloc);
    seats.push(first)?;
    for _ in 1..THREADS {
        seats.push(board.seat(rt)?)?;
    }
    Ok((seats, counter))
}

/// Raises the counter, and leaves.
fn raise<L: MessageLog<u64>, Led: Start<u64>, R: Wait>(
    rt: &R,
    board: &Counted<L, Led>,
    mut seat: Seat<Led>,
    counter: Name,
) -> (Result<(), Trouble>, Left<Led>) {
    let raised = raise_each(rt, board, &mut seat, counter);
    (raised, board.leave(rt, seat))
}

/// Raises the counter by one in each round.
fn raise_each<L: MessageLog<u64>, Led: Start<u64>, R: Wait>(
    rt: &R,
    board: &Counted<L, Led>,
    seat: &mut Seat<Led>,
    counter: Name,
) -> Result<(), Trouble> {
    for _ in 0..ROUNDS {
        let taken = message_of(board.reply(rt, seat, Call::Take(counter))?)?;
        nothing_of(board.reply(rt, seat, Call::Put(counter, taken.wrapping_add(1)))?)?;
    }
    Ok(())
}

/// Hands over what the journal has since the last cut, and settles the switchboard.
pub fn settle_pieces<L: MessageLog<u64>, Led: Start<u64>, R: Wait>(
    rt: &R,
    board: Counted<L, Led>,
    raised: Came<Name, Led>,
) -> Result<Pieces, Trouble> {
    let (counter, lefts) = raised?;
    board.make_room(rt)?;
    let (board, keeper) = board.into_parts();
    let ended = settle(board, lefts)?;
    sum_up(&ended, counter, keeper.sink())
}

/// The counter's value, and what the sink took.
fn sum_up<L: MessageLog<u64>>(
    ended: &Ended<L>,
    counter: Name,
    sink: &Counting,
) -> Result<Pieces, Trouble> {
    match ended.board().held(counter) {
        Some(Some(counter)) => Ok(Pieces {
            counter: *counter,
            pieces: sink.pieces,
            entries: sink.entries,
            count: ended.count(),
        }),
        _ => Err(Trouble::OtherReply),
    }
}
