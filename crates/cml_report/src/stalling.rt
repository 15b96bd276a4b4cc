//! Whether no thread could go on when a run ends.
ghost use Rattle.std.specs.Prelude.{◌≡◌, ◌↔◌, reverse, IsTrue, IfOk};
ghost use Rattle.cml_board.specs.{no_entries};
ghost use Rattle.cml_report.specs.{IsAllMoved, NobodyGoesOn, history_of};

use crate::follower::Follower;
use crate::ran::Ran;
use crate::snapshot::count_moved;
use crate::tally::Tally;
use crate::whole::journal;
use cml_board::{Board, BoardLog, Entry, Text};
use cml_grammar::Script;
use std::alloc::{AllocError, Global};

/// Says whether no thread could go on after a journal that was never cut, and its tally. It takes time and memory in
/// proportion to the script and the journal.
pub(crate) fn nobody_goes_on(alloc: Global, ran: &Ran<'_, '_>) -> Result<bool, AllocError>
    requires { ran.now.board.now.past ≡ no_entries }
    ensures { IfOk result (λ stuck. IsTrue stuck
        ↔ NobodyGoesOn ran.now.plan.now ran.now.board.now.limit ran.now.board.now.history ran.now.tally.now) }
{
    let board = ran.board;
    let follower = follow_all(alloc, ran.plan.script(), journal(board))?;
    if board.entries() >= board.limit() {
        return Ok(false);
    }
    if !follower.has_begun() {
        return Ok(false);
    }
    if !is_all_moved(&follower, board, ran.tally) {
        return Ok(false);
    }
    Ok(follower.all_wait(board))
}

/// Whether what goes by lanes and feeds is done as far as threads have come.
fn is_all_moved(follower: &Follower<'_>, board: &Board<Text, BoardLog<Text>>, tally: &Tally) -> bool
    requires whole { board.now.past ≡ no_entries }
    requires followed { board.now.history ≡ history_of follower.now }
    ensures { IsTrue result ↔ IsAllMoved follower.now.script (history_of follower.now) tally.now }
{
    tally.apart == follower.passed_apart() && count_moved(journal(board)) == follower.passed_laid()
}

/// A follower that has followed a journal to its end.
fn follow_all<'a>(
    alloc: Global,
    script: &'a Script,
    journal: &'a [Entry<Text>],
) -> Result<Follower<'a>, AllocError>
    ensures script { IfOk result (λ follower. follower.script ≡ script.now) }
    ensures followed { IfOk result (λ follower. history_of follower ≡ reverse journal.now) }
{
    let mut follower = Follower::new(alloc, script, journal)?;
    for _ in 0..journal.len() {
        follower.follow();
    }
    Ok(follower)
}
