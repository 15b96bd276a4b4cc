//! Two threads share a switchboard in a file, and each needs what the other sends.
use super::playing::Kept;
use cml_board::{Call, Message, Name};
use cml_journal::Written;
use cml_threads::Seat;
use std::alloc::Global;
use std::sync::Wait;
use std::sync::ledger::Ledger;
use std::thread::{self, Threads};

/// Has two threads call. Returns how many calls of each were stored.
pub fn share<
    M: Message + Written + Send + Sync,
    Led: Ledger + Send + Sync,
    R: Threads + Wait + Sync,
>(rt: &R, alloc: Global, board: &Kept<M, Led>, rounds: u64) -> Option<Vec<u64>> {
    let mut seats = Vec::new(alloc);
    for _ in 0..2 {
        if let Ok(seat) = board.seat(rt) {
            seats.push(seat).is_ok();
        }
    }
    thread::map_vec(
        rt,
        seats,
        &|seat: Seat<Led>| { call_all(rt, alloc, board, seat, rounds) },
    )
    .ok()
}

/// Sends to the other thread and receives from it in turn. Returns how many calls were stored.
fn call_all<M: Message + Written, Led: Ledger, R: Wait>(
    rt: &R,
    alloc: Global,
    board: &Kept<M, Led>,
    seat: Seat<Led>,
    rounds: u64,
) -> u64 {
    let mut seat = seat;
    let mine = Name(seat.number() % 2);
    let others = Name(1 - seat.number() % 2);
    let mut stored: u64 = 0;
    for _ in 0..rounds {
        if let Ok(Some(message)) = M::read(alloc, "5") {
            stored = stored.saturating_add(call(rt, board, &mut seat, Call::Send(others, message)));
        }
        stored = stored.saturating_add(call(rt, board, &mut seat, Call::Recv(mine)));
    }
    board.leave(rt, seat);
    stored
}

fn call<M: Message + Written, Led: Ledger, R: Wait>(
    rt: &R,
    board: &Kept<M, Led>,
    seat: &mut Seat<Led>,
    call: Call<M>,
) -> u64 {
    match board.reply(rt, seat, call) {
        Ok(_) => 1,
        Err(_) => 0,
    }
}
