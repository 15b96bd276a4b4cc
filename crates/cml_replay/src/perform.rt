//! A whole script, performed and reported.
ghost use Rattle.std.specs.Prelude.{◌≡◌, ◌≤◌, ◌^◌, None, IfOk, string_bytes};
ghost use Rattle.cml_board.specs.{no_entries, entries_in};
ghost use Rattle.cml_grammar.specs.{first_ring};
ghost use Rattle.cml_report.specs.{declared_count, Ends};
ghost use Rattle.cml_replay.specs.{IsPlayed, IsPlayedAs};

use crate::execution::Execution;
use cml_grammar::Script;
use cml_report::{Form, Played, Ran, Stop, Tally, text_as};
use std::alloc::{AllocError, Global};

/// Performs a script without lanes and feeds, and reports it.
pub fn play(alloc: Global, script: &Script, limit: u64) -> Result<Played, AllocError>
    requires least { 1 ≤ limit }
    requires most { limit ≤ 2 ^ 32 }
    requires plain { first_ring script.now ≡ None }
    ensures { IfOk result (λ played. IsPlayed script.now limit played.stop (string_bytes played.report)) }
{
    play_as(alloc, script, limit, Form::Report)
}

/// Performs a script as [`play`] does, and writes its text in this form.
pub(crate) fn play_as(
    alloc: Global,
    script: &Script,
    limit: u64,
    form: Form,
) -> Result<Played, AllocError>
    requires least { 1 ≤ limit }
    requires most { limit ≤ 2 ^ 32 }
    requires plain { first_ring script.now ≡ None }
    ensures { IfOk result (λ played. IsPlayedAs form script.now limit played.stop (string_bytes played.report)) }
{
    let mut execution = Execution::new(alloc, script, limit)?;
    let stop = perform(&mut execution)?;
    let tally = Tally::no_rings(alloc);
    let ran = Ran {
        plan: execution.plan(),
        board: execution.board(),
        tally: &tally,
        stop,
    };
    let report = text_as(alloc, form, &ran)?;
    Ok(Played { report, stop })
}

/// Makes the declared objects, and then performs the steps.
fn perform(execution: &mut Execution<'_>) -> Result<Stop, AllocError>
    requires { execution.old.history ≡ no_entries }
    ensures script { execution.new.script ≡ execution.old.script }
    ensures limit { execution.new.limit ≡ execution.old.limit }
    ensures ends { IfOk result (Ends execution.new.script execution.new.limit execution.new.history) }
{
    if !execution.declare()? {
        return Ok(Stop::Full);
    }
    perform_all(execution)
}

/// Performs the steps of a script whose objects are made.
fn perform_all(execution: &mut Execution<'_>) -> Result<Stop, AllocError>
    requires { entries_in execution.old.history ≡ declared_count execution.old.script }
    ensures script { execution.new.script ≡ execution.old.script }
    ensures limit { execution.new.limit ≡ execution.old.limit }
    ensures ends { IfOk result (Ends execution.new.script execution.new.limit execution.new.history) }
{
    for _ in 0..execution.plan().script().steps().len() {
        if execution.is_full() {
            return Ok(Stop::Full);
        }
        let Some(i) = execution.least_ready() else {
            return Ok(Stop::Stalled);
        };
        execution.perform(i)?;
    }
    Ok(Stop::Done)
}
