//! The clients of a server, each in its own thread. A request names the mailbox to which the answer goes.
use crate::calls::Trouble;
use crate::threads::{Shared, done, got};
use cml_board::Name;
use cml_log::MessageLog;
use cml_threads::{Left, Seat};
use std::sync::Wait;
use std::sync::atomic::{AtomicBool, Ordering};
use std::sync::ledger::Ledger;

/// How many tickets a client asks for.
const ASKED: usize = 150;

#[derive(Drop)]
pub struct Client<Led: Ledger> {
    pub seat: Seat<Led>,
    pub requests: Name,
    pub answers: Name,
}

/// The result of a client's thread: the sum of its tickets, and its seat.
#[derive(Drop)]
pub struct Visit<Led: Ledger> {
    pub tickets: Result<u64, Trouble>,
    pub left: Left<Led>,
}

/// The code of a client's thread. It leaves even if its requests fail, and at once if the server is shut.
pub fn ask_and_leave<L: MessageLog<u64>, Led: Ledger, R: Wait>(
    rt: &R,
    board: &Shared<L, Led>,
    mut client: Client<Led>,
    is_shut: &AtomicBool,
) -> Visit<Led> {
    let tickets = if is_shut.load(Ordering::SeqCst) {
        Err(Trouble::NoMemory)
    } else {
        client.ask(rt, board)
    };
    Visit {
        tickets,
        left: board.leave(rt, client.seat),
    }
}

impl<Led: Ledger> Client<Led> {
    /// Sends a request, and the next once the first was answered.
    fn ask<L: MessageLog<u64>, R: Wait>(
        &mut self,
        rt: &R,
        board: &Shared<L, Led>,
    ) -> Result<u64, Trouble> {
        let mut sum = 0u64;
        for _ in 0..ASKED {
            done(board.send(rt, &mut self.seat, self.requests, self.answers.0))?;
            sum = sum.wrapping_add(got(board.recv(rt, &mut self.seat, self.answers))?);
        }
        Ok(sum)
    }
}
