//! A board: messages wait in a mailbox, and each is received once; an m-variable is emptied and filled again.
ghost use Rattle.std.specs.Prelude.{◌≡◌, ◌+◌, ◌%◌, ◌^◌, IfOk, option_map};
ghost use Rattle.cml_board.specs.{held};

use crate::calls::{Numbers, SEAT, Trouble, fetch, make, perform};
use cml_board::{Call, Name, Outcome};
use std::alloc::Global;

/// Messages are received in the order in which they were sent.
pub fn in_order(alloc: Global) -> Result<(u64, u64), Trouble>
    ensures first { IfOk result (λ found. found.0 ≡ 5) }
    ensures second { IfOk result (λ found. found.1 ≡ 7) }
{
    let mut board = Numbers::new(alloc, 100)?;
    let letters = make(&mut board, Call::NewMailbox)?;
    perform(&mut board, Call::Send(letters, 5))?;
    perform(&mut board, Call::Send(letters, 7))?;
    let first = fetch(&mut board, Call::Recv(letters))?;
    let second = fetch(&mut board, Call::Recv(letters))?;
    Ok((first, second))
}

/// A receive that would wait is returned, and can be made again once there is a message.
pub fn received_later(alloc: Global) -> Result<u64, Trouble>
    ensures { IfOk result (λ message. message ≡ 5) }
{
    let mut board = Numbers::new(alloc, 100)?;
    let letters = make(&mut board, Call::NewMailbox)?;
    match board.apply(SEAT, Call::Recv(letters)) {
        Outcome::WouldWait(receive) => {
            perform(&mut board, Call::Send(letters, 5))?;
            fetch(&mut board, receive)
        }
        Outcome::Answered(_) => Err(Trouble::OtherReply),
        Outcome::Refused(refusal, _) => Err(Trouble::Refused(refusal)),
    }
}

/// Adds to the number in an m-variable. A thread that takes the number has the variable alone until it puts one back.
/// If the put fails, for example because the journal is full, the variable stays empty.
pub fn add_to(board: &mut Numbers, count: Name, more: u64) -> Result<(), Trouble>
    ensures { IfOk result (λ _. held board.new.history count.0
        ≡ option_map (λ old. (old + more) % 2 ^ 64) (held board.old.history count.0)) }
{
    let old = fetch(board, Call::Take(count))?;
    perform(board, Call::Put(count, old.wrapping_add(more)))
}

/// A number that is added to twice.
pub fn counted(alloc: Global) -> Result<u64, Trouble>
    ensures { IfOk result (λ count. count ≡ 22) }
{
    let mut board = Numbers::new(alloc, 100)?;
    let count = make(&mut board, Call::MVarInit(10))?;
    add_to(&mut board, count, 5)?;
    add_to(&mut board, count, 7)?;
    fetch(&mut board, Call::Get(count))
}
