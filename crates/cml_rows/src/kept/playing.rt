//! The calls of one seat, each told once it has returned.
ghost use Rattle.std.specs.Prelude.{◌≡◌, ◌^◌};

use super::moving::{move_by_feed, move_by_lane};
use super::sharing::share;
use cml_board::{Answer, BoardLog, Call, Message, Name};
use cml_file::{Failed, KeptSwitchboard, Recovered};
use cml_journal::{Written, read_entry};
use cml_threads::Seat;
use std::fmt::Debug;
use std::io::{self, ErrorKind};
use std::sync::Wait;
use std::sync::ledger::{Blank, Ledger};
use std::thread::Threads;

pub type Kept<M, Led> = KeptSwitchboard<M, BoardLog<M>, Led>;

/// Performs the lines of standard input, and closes the file if the last of them says so.
pub fn play<
    M: Message + Written + Debug + Send + Sync,
    Led: Ledger + Send + Sync,
    R: Input + Print + AllocGlobal + Threads + Wait + Sync,
>(rt: &R, recovered: Recovered<M, BoardLog<M>>, blank: Blank) -> io::Result<()>
    requires name { blank.name ≡ Led.name }
    requires parts { blank.parts ≡ Led.parts }
    requires enough { blank.parts ≡ 2 ^ 63 }
{
    let board = Kept::<M, Led>::of(rt.alloc(), recovered, blank)?;
    let Ok(seat) = board.seat(rt) else {
        return Err(io::Error::from(ErrorKind::OutOfMemory));
    };
    if perform_all(rt, &board, seat)? {
        return close(rt, board);
    }
    Ok(())
}

fn close<M: Message + Written, Led: Ledger, R: Print + Wait>(
    rt: &R,
    board: Kept<M, Led>,
) -> io::Result<()> {
    match board.close(rt) {
        Ok(()) => println!(rt; "closed"),
        Err((_, fault)) => println!(rt; "not closed: {fault}"),
    }
}

/// Performs each line up to one that says `close`, and returns whether there is one.
fn perform_all<
    M: Message + Written + Debug + Send + Sync,
    Led: Ledger + Send + Sync,
    R: Input + Print + AllocGlobal + Threads + Wait + Sync,
>(rt: &R, board: &Kept<M, Led>, seat: Seat<Led>) -> io::Result<bool> {
    let mut seat = seat;
    for line in rt.lines(rt.alloc()) {
        let line = line?;
        if line.as_str() == "close" {
            board.leave(rt, seat);
            return Ok(true);
        }
        perform(rt, board, &mut seat, line.as_str())?;
    }
    Ok(false)
}

fn perform<
    M: Message + Written + Debug + Send + Sync,
    Led: Ledger + Send + Sync,
    R: Print + AllocGlobal + Threads + Wait + Sync,
>(rt: &R, board: &Kept<M, Led>, seat: &mut Seat<Led>, line: &str) -> io::Result<()> {
    match read_entry::<M>(rt.alloc(), line) {
        Ok(entry) => tell(rt, board.call(rt, seat, entry.call)),
        Err(_) => order(rt, board, line),
    }
}

/// Does what a line says that is no entry.
fn order<
    M: Message + Written + Debug + Send + Sync,
    Led: Ledger + Send + Sync,
    R: Print + AllocGlobal + Threads + Wait + Sync,
>(rt: &R, board: &Kept<M, Led>, line: &str) -> io::Result<()> {
    match line.strip_prefix("share ") {
        Some(count) => {
            let counts = share(rt, rt.alloc(), board, count.parse::<u64>().unwrap_or(0));
            println!(rt; "shared {counts:?}")
        }
        None => move_or_sync(rt, board, line),
    }
}

fn move_or_sync<M: Message + Written + Debug, Led: Ledger, R: Print + AllocGlobal + Wait>(
    rt: &R,
    board: &Kept<M, Led>,
    line: &str,
) -> io::Result<()> {
    if let Some(word) = line.strip_prefix("lane ") {
        if let Some(message) = M::read(rt.alloc(), word)? {
            println!(rt; "{:?}", move_by_lane(rt, board, Name(0), message))?;
        }
        return Ok(());
    }
    if let Some(word) = line.strip_prefix("feed ") {
        if let Some(message) = M::read(rt.alloc(), word)? {
            println!(rt; "{:?}", move_by_feed(rt, board, Name(0), message))?;
        }
        return Ok(());
    }
    let synced = board.sync(rt).is_ok();
    println!(rt; "synced {synced}")
}

/// Tells the position and the reply of a call, or why it failed.
fn tell<M: Message + Debug, R: Print>(
    rt: &R,
    told: Result<Answer<M>, Failed<Call<M>, Answer<M>>>,
) -> io::Result<()> {
    match told {
        Ok(answer) => {
            let at = answer.at();
            println!(rt; "stored {at}: {:?}", answer.reply())
        }
        Err(Failed::Refused(refusal, _)) => println!(rt; "refused: {refusal:?}"),
        Err(Failed::Unmade(fault, _)) => println!(rt; "unmade: {fault}"),
        Err(Failed::Unstored(fault, _)) => println!(rt; "unstored: {fault}"),
    }
}
