//! What a run told, before it is reported.
ghost use Rattle.std.specs.Prelude.{◌≡◌, ◌↔◌, ◌<◌, ℕ, length, IsTrue, IfOk, IfErr, string_bytes};
ghost use Rattle.cml_board.specs.{no_entries};
ghost use Rattle.cml_report.specs.{IsOfScript, HasLeft, IsAllDone, IsRefusedRan, IsTextOfRan, RanLeaves, RanMayEnd, IsReportOf, IsRefused};
ghost use Rattle.cml_report.specs.{IsTakenAt};

use crate::auditing::audit;
use crate::ending::Ending;
use crate::form::Form;
use crate::lanes::are_sent_in_order;
use crate::plan::{Plan, count_feeds};
use crate::played::Played;
use crate::ran::Ran;
use crate::snapshot::{count_moved, unperformed};
use crate::stalling::nobody_goes_on;
use crate::stop::Stop;
use crate::tally::Tally;
use crate::verdict::Verdict;
use crate::whole::journal;
use crate::writing::text_as;
use cml_board::{Board, BoardLog, Text};
use cml_grammar::Script;
use std::alloc::{AllocError, Global};

/// Audits a script's journal that was never cut, and reports it if it may end like this with this tally.
pub fn conclude(
    alloc: Global,
    script: &Script,
    board: &Board<Text, BoardLog<Text>>,
    tally: &Tally,
    stop: Stop,
) -> Result<Played, Ending>
    requires { board.now.past ≡ no_entries }
    ensures stop { IfOk result (λ played. played.stop ≡ stop) }
    ensures report { IfOk result
        (λ played. IsReportOf script.now board.now.limit board.now.history tally.now stop (string_bytes played.report)) }
    ensures refused { IfErr result (λ ending. IsRefused script.now board.now.limit board.now.history tally.now stop ending) }
{
    let plan = Plan::new(alloc, script)?;
    let ran = Ran {
        plan: &plan,
        board,
        tally,
        stop,
    };
    conclude_as(alloc, Form::Report, &ran)
}

/// Does as [`conclude`], and writes the journal's text in this form.
pub fn conclude_as(alloc: Global, form: Form, ran: &Ran<'_, '_>) -> Result<Played, Ending>
    requires { ran.now.board.now.past ≡ no_entries }
    ensures stop { IfOk result (λ played. played.stop ≡ ran.now.stop) }
    ensures text { IfOk result (λ played. IsTextOfRan form ran.now (string_bytes played.report)) }
    ensures refused { IfErr result (λ ending. IsRefusedRan ran.now ending) }
{
    // That no journal has more entries than an audit takes is what the limit's reader tells.
    let _limit = ran.board.limit();
    match audit(alloc, ran.plan.script(), journal(ran.board))? {
        Verdict::Lawful => tell_own(alloc, form, ran),
        Verdict::Unlawful(k) | Verdict::Foreign(k) => Err(Ending::NotLawful(k)),
    }
}

/// The text in this form of a script's journal, if it may end like this.
fn tell_own(alloc: Global, form: Form, ran: &Ran<'_, '_>) -> Result<Played, Ending>
    requires own { IsOfScript ran.now.plan.now ran.now.board.now.history }
    requires whole { ran.now.board.now.past ≡ no_entries }
    ensures stop { IfOk result (λ played. played.stop ≡ ran.now.stop) }
    ensures text { IfOk result (λ played. IsTextOfRan form ran.now (string_bytes played.report)) }
    ensures refused { IfErr result (λ ending. IsRefusedRan ran.now ending) }
{
    // That the history is lawful and within the limit is what the journal's reader tells.
    let entries = journal(ran.board).len();
    if !may_end(alloc, ran)? {
        return Err(Ending::NotLawful(entries));
    }
    let report = text_as(alloc, form, ran)?;
    let stop = ran.stop;
    Ok(Played { report, stop })
}

/// Whether a run may end so with this journal and this tally.
fn may_end(alloc: Global, ran: &Ran<'_, '_>) -> Result<bool, AllocError>
    requires { ran.now.board.now.past ≡ no_entries }
    ensures { IfOk result (λ may. IsTrue may ↔ RanMayEnd ran.now) }
{
    let (plan, tally) = (ran.plan, ran.tally);
    Ok(
        leaves(alloc, ran)?
            && tally.apart <= plan.apart()
            && tally.taken.len() == count_feeds(plan.script())
            && takes_what_was_got(ran)
            && are_sent_in_order(plan, &tally.lanes, journal(ran.board)),
    )
}

/// Whether as much is left as after this stop. If it is stalled, no thread could go on.
fn leaves(alloc: Global, ran: &Ran<'_, '_>) -> Result<bool, AllocError>
    requires { ran.now.board.now.past ≡ no_entries }
    ensures { IfOk result (λ may. IsTrue may ↔ RanLeaves ran.now) }
{
    let board = ran.board;
    let left = unperformed(ran.plan.script(), board, ran.tally);
    match ran.stop {
        Stop::Done => Ok(is_all_done(ran)),
        Stop::Stalled => Ok(0 < left && nobody_goes_on(alloc, ran)?),
        Stop::Held => Ok(0 < left),
        Stop::Full => Ok(board.entries() == board.limit() && has_left(ran)),
    }
}

/// Whether each declared object was made, each step performed, and each message moved that was sent by a lane.
fn is_all_done(ran: &Ran<'_, '_>) -> bool
    requires { ran.now.board.now.past ≡ no_entries }
    ensures { IsTrue result ↔ IsAllDone ran.now.plan.now ran.now.board.now.history ran.now.tally.now }
{
    let (plan, board) = (ran.plan, ran.board);
    plan.declared() as u64 <= board.entries()
        && unperformed(plan.script(), board, ran.tally) == 0
        && count_moved(journal(board)) == plan.laid()
}

/// Whether a declared object was not made, a step was not performed, or a message sent by a lane was not moved.
fn has_left(ran: &Ran<'_, '_>) -> bool
    requires { ran.now.board.now.past ≡ no_entries }
    ensures { IsTrue result ↔ HasLeft ran.now.plan.now ran.now.board.now.history ran.now.tally.now }
{
    let (plan, board) = (ran.plan, ran.board);
    board.entries() < plan.declared() as u64
        || 0 < unperformed(plan.script(), board, ran.tally)
        || count_moved(journal(board)) < plan.laid()
}

/// Whether of each feed exactly what its port received was taken.
fn takes_what_was_got(ran: &Ran<'_, '_>) -> bool
    ensures { IsTrue result ↔ ((at : ℕ) → at < length ran.now.plan.now.declarations
        → IsTakenAt ran.now.plan.now ran.now.board.now.history ran.now.tally.now at) }
{
    for at in 0..ran.plan.script().declarations().len() {
        if !is_taken(ran, at) {
            return false;
        }
    }
    true
}

/// Whether of the feed with this name, if it is one that was opened, exactly what its port received was taken.
fn is_taken(ran: &Ran<'_, '_>, at: usize) -> bool
    requires { at < length ran.now.plan.now.declarations }
    ensures { IsTrue result ↔ IsTakenAt ran.now.plan.now ran.now.board.now.history ran.now.tally.now at }
{
    let (plan, board, tally) = (ran.plan, ran.board, ran.tally);
    let feed = plan.feed(at);
    if feed.is_none() {
        return true;
    }
    let Some(port) = plan.declared_object(at, board.entries()) else {
        return true;
    };
    tally.taken_from(feed) == board.got_count(port).unwrap_or(0)
}
