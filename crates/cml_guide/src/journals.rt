//! A journal that is cut, checked piece by piece, and gone on from by another board.
use crate::calls::{Numbers, Trouble, fetch, make, perform};
use cml_board::{Call, Checker, Entry};
use std::alloc::Global;

/// A new board goes on where the journal of an old one ends, whose first entries were taken before. It returns the message that
/// waited there, and has three entries.
pub fn restored(alloc: Global) -> Result<(u64, u64), Trouble> {
    let mut old = Numbers::new(alloc, 100)?;
    let letters = make(&mut old, Call::NewMailbox)?;
    let taken = old.take_journal();
    perform(&mut old, Call::Send(letters, 5))?;
    let mut new = board_of(alloc, &taken, old.journal())?;
    let received = fetch(&mut new, Call::Recv(letters))?;
    Ok((received, new.entries()))
}

/// The board that the calls of two pieces make.
fn board_of(
    alloc: Global,
    first: &[Entry<u64>],
    second: &[Entry<u64>],
) -> Result<Numbers, Trouble> {
    let mut checker = Checker::new(alloc)?;
    feed(&mut checker, first)?;
    feed(&mut checker, second)?;
    match checker.restore(100) {
        Some(restored) => Ok(restored.into_board()),
        None => Err(Trouble::OtherReply),
    }
}

/// Says whether all that the checker was fed is lawful with these entries after it.
fn feed(checker: &mut Checker<u64>, entries: &[Entry<u64>]) -> Result<bool, Trouble> {
    // No board has that many, but the prover needs the test.
    if u64::MAX - checker.entries() < entries.len() as u64 {
        return Err(Trouble::OtherReply);
    }
    Ok(checker.feed(entries)?.is_ok())
}
