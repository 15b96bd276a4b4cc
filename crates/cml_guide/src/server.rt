//! A server that hands out tickets until all its clients have left.
ghost use Rattle.std.specs.Prelude.{◌≡◌, ◌+◌, IfOk};

use crate::calls::Trouble;
use crate::clients::{Client, Visit, ask_and_leave};
use crate::examples::run_on;
use crate::threads::{Came, Shared, done, join_all, made};
use cml_board::{BoardLog, Name, Refusal, Reply};
use cml_log::MessageLog;
use cml_threads::{Count, Left, PARTS, Seat};
use std::alloc::Global;
use std::marker::Brand;
use std::sync::Wait;
use std::sync::atomic::{AtomicBool, Ordering};
use std::sync::ledger::{Blank, Ledger};
use std::thread;
use std::thread::{JoinHandle, Threads};

/// How many clients there are.
const CLIENTS: usize = 3;

/// How many entries the journal takes: more than come.
pub const LIMIT: u64 = 100_000;

/// The server with its mailbox.
#[derive(Drop)]
struct Shop<Led: Ledger> {
    seat: Seat<Led>,
    requests: Name,
}

/// What is left of the server once no client asks any more.
#[derive(Drop)]
struct Shift<Led: Ledger> {
    served: Result<(), Trouble>,
    left: Left<Led>,
}

/// Runs the server until all its clients have left. Returns the sum of all tickets, and how many entries there are at the end.
pub fn ran_on<R: Threads + Wait + Sync>(rt: &R, alloc: Global) -> Result<(u64, Count), Trouble>
    ensures { IfOk result (λ found. found.1.total ≡ found.1.seats + found.1.rings) }
{
    run_on::<Brand, R>(rt, alloc, Blank::new(PARTS))
}

/// Makes all seats, lets the clients in, and serves them until the last has left.
pub fn open_and_close<Led: Ledger + Send + Sync, R: Threads + Wait + Sync>(
    rt: &R,
    alloc: Global,
    board: &Shared<BoardLog<u64>, Led>,
) -> Came<u64, Led> {
    let mut shop = open(rt, board)?;
    let clients = make_clients(rt, alloc, board, &mut shop)?;
    // A thread that runs must be joined, so there is room for all of them before the first starts.
    let running = Vec::with_capacity(alloc, CLIENTS)?;
    let (visits, shift) = let_in(rt, alloc, board, clients, running, shop);
    sum_up_day(alloc, visits?, shift)
}

fn open<L: MessageLog<u64>, Led: Ledger, R: Wait>(
    rt: &R,
    board: &Shared<L, Led>,
) -> Result<Shop<Led>, Trouble> {
    let mut seat = board.seat(rt)?;
    let requests = made(board.mailbox(rt, &mut seat))?;
    Ok(Shop { seat, requests })
}

/// All clients, each with a seat and a mailbox for its answers.
fn make_clients<L: MessageLog<u64>, Led: Ledger, R: Wait>(
    rt: &R,
    alloc: Global,
    board: &Shared<L, Led>,
    shop: &mut Shop<Led>,
) -> Result<Vec<Client<Led>>, Trouble> {
    let mut clients = Vec::new(alloc);
    for _ in 0..CLIENTS {
        let answers = made(board.mailbox(rt, &mut shop.seat))?;
        clients.push(Client {
            seat: board.seat(rt)?,
            requests: shop.requests,
            answers,
        })?;
    }
    Ok(clients)
}

/// Starts a thread for each client, serves them here, and joins them all. If a thread cannot be made, all are sent home.
fn let_in<Led: Ledger + Send + Sync, R: Threads + Wait + Sync>(
    rt: &R,
    alloc: Global,
    board: &Shared<BoardLog<u64>, Led>,
    clients: Vec<Client<Led>>,
    running: Vec<JoinHandle<Visit<Led>>>,
    shop: Shop<Led>,
) -> (Result<Vec<Visit<Led>>, Trouble>, Shift<Led>) {
    let shut = AtomicBool::new(false);
    let is_shut = &shut;
    thread::scope(thread::scope_env(), rt, move |scope| {
        let mut running = running;
        let mut visits = Vec::new(alloc);
        for client in clients {
            match scope.spawn(move || ask_and_leave(rt, board, client, is_shut)) {
                Ok(handle) => running.push(handle).is_ok(),
                Err(refused) => {
                    is_shut.store(true, Ordering::SeqCst);
                    visits.push((refused.value)()).is_ok()
                }
            };
        }
        let shift = serve_and_leave(rt, board, shop);
        (join_all(rt, running, visits), shift)
    })
}

/// Serves, and leaves even if that fails, so that a call that still waits fails with `Stalled`.
fn serve_and_leave<L: MessageLog<u64>, Led: Ledger, R: Wait>(
    rt: &R,
    board: &Shared<L, Led>,
    shop: Shop<Led>,
) -> Shift<Led> {
    let mut shop = shop;
    let served = serve(rt, board, &mut shop);
    Shift {
        served,
        left: board.leave(rt, shop.seat),
    }
}

/// Answers one request after another, until all clients have left.
fn serve<L: MessageLog<u64>, Led: Ledger, R: Wait>(
    rt: &R,
    board: &Shared<L, Led>,
    shop: &mut Shop<Led>,
) -> Result<(), Trouble> {
    for ticket in 1..u64::MAX {
        let Some(answers) = next_request(rt, board, shop)? else {
            return Ok(());
        };
        done(board.send(rt, &mut shop.seat, answers, ticket))?;
    }
    Ok(())
}

/// The mailbox for the next answer, or `None` once no client is left that could ask.
fn next_request<L: MessageLog<u64>, Led: Ledger, R: Wait>(
    rt: &R,
    board: &Shared<L, Led>,
    shop: &mut Shop<Led>,
) -> Result<Option<Name>, Trouble> {
    match board.recv(rt, &mut shop.seat, shop.requests) {
        Ok(Reply::Got(answers)) => Ok(Some(Name(answers))),
        Ok(_) => Err(Trouble::OtherReply),
        Err((Refusal::Stalled, _)) => Ok(None),
        Err((refusal, _)) => Err(Trouble::Refused(refusal)),
    }
}

/// The sum of all clients' tickets, if all have theirs, and all seats.
fn sum_up_day<Led: Ledger>(
    alloc: Global,
    visits: Vec<Visit<Led>>,
    shift: Shift<Led>,
) -> Came<u64, Led> {
    shift.served?;
    let mut lefts = Vec::new(alloc);
    lefts.push(shift.left)?;
    let tickets = sum_tickets(visits, &mut lefts)?;
    Ok((tickets, lefts))
}

/// The sum of all clients' tickets, if all have theirs. Their seats go into the list.
fn sum_tickets<Led: Ledger>(
    visits: Vec<Visit<Led>>,
    lefts: &mut Vec<Left<Led>>,
) -> Result<u64, Trouble> {
    let mut tickets = 0u64;
    for visit in visits {
        tickets = tickets.wrapping_add(visit.tickets?);
        lefts.push(visit.left)?;
    }
    // One is missing only if there was no memory to note it.
    if lefts.len() <= CLIENTS {
        return Err(Trouble::NoMemory);
    }
    Ok(tickets)
}
