//! Two threads: one sends a message, and the other waits for it.
ghost use Rattle.std.specs.Prelude.{◌≡◌, ◌+◌, ◌^◌, IfOk, OnOk};
ghost use Rattle.cml_threads.specs.{answers_in};

use crate::calls::Trouble;
use crate::threads::{Came, done, got, made, settle, with_both};
use cml_board::{BoardLog, Message, Name};
use cml_log::MessageLog;
use cml_threads::{Count, Left, PARTS, Seat, Switchboard};
use std::alloc::Global;
use std::marker::Brand;
use std::sync::Wait;
use std::sync::ledger::{Blank, Ledger};
use std::thread;
use std::thread::Threads;

/// What was received, and how many entries there are at the end.
pub fn passed_on<R: Threads + Wait + Sync>(rt: &R, alloc: Global) -> Result<(u64, Count), Trouble>
    ensures counted { IfOk result (λ found. found.1.seats ≡ 3) }
    ensures total { IfOk result (λ found. found.1.total ≡ found.1.seats + found.1.rings) }
{
    pass_on::<u64, BoardLog<u64>, Brand, R>(rt, alloc, 5, Blank::new(PARTS))
}

/// Makes a switchboard, lets one thread send the message and another receive it, and settles the switchboard.
pub fn pass_on<
    M: Message + Send,
    L: MessageLog<M> + Send,
    Led: Ledger + Send + Sync,
    R: Threads + Wait + Sync,
>(rt: &R, alloc: Global, message: M, blank: Blank) -> Result<(M, Count), Trouble>
    requires name { blank.name ≡ Led.name }
    requires parts { blank.parts ≡ Led.parts }
    requires enough { blank.parts ≡ 2 ^ 63 }
    ensures counted { IfOk result (λ found. found.1.seats ≡ 3) }
    ensures total { IfOk result (λ found. found.1.total ≡ found.1.seats + found.1.rings) }
{
    let shared = Switchboard::<M, L, Led>::new(alloc, 100, blank)?;
    let (received, lefts) = send_and_receive(rt, alloc, &shared, message)?;
    Ok((received, settle(shared, lefts)?.count()))
}

/// What was received, and the seats of both threads.
fn send_and_receive<
    M: Message + Send,
    L: MessageLog<M> + Send,
    Led: Ledger + Send + Sync,
    R: Threads + Wait + Sync,
>(rt: &R, alloc: Global, board: &Switchboard<M, L, Led>, message: M) -> Came<M, Led>
    ensures { IfOk result (λ found. answers_in found.1.items ≡ 3) }
{
    let mut sender = board.seat(rt)?;
    let letters = made(board.mailbox(rt, &mut sender))?;
    let receiver = board.seat(rt)?;
    let ((received, receiver), (sent, sender)) = thread::join(
        rt,
        move || receive_and_leave(rt, board, receiver, letters),
        move || send_and_leave(rt, board, sender, letters, message),
    );
    with_both(alloc, sent.and(received), receiver, sender)
}

/// Receives a message, and leaves even if that fails.
fn receive_and_leave<M: Message, L: MessageLog<M>, Led: Ledger, R: Wait>(
    rt: &R,
    board: &Switchboard<M, L, Led>,
    mut receiver: Seat<Led>,
    letters: Name,
) -> (Result<M, Trouble>, Left<Led>)
    ensures { OnOk result.0 (result.1.share ≡ receiver.share + 1) }
{
    let received = got(board.recv(rt, &mut receiver, letters));
    (received, board.leave(rt, receiver))
}

/// Sends a message, and leaves even if that fails.
fn send_and_leave<M: Message, L: MessageLog<M>, Led: Ledger, R: Wait>(
    rt: &R,
    board: &Switchboard<M, L, Led>,
    mut sender: Seat<Led>,
    letters: Name,
    message: M,
) -> (Result<(), Trouble>, Left<Led>)
    ensures { OnOk result.0 (result.1.share ≡ sender.share + 1) }
{
    let sent = done(board.send(rt, &mut sender, letters, message));
    (sent, board.leave(rt, sender))
}
