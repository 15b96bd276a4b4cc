//! A script whose threads are real threads, from the reader's bytes to those of its report or its journal.
ghost use Rattle.std.specs.Prelude.{◌≡◌, ◌≢◌, ◌↔◌, ◌≤◌, ◌^◌, true, IsTrue, IfOk, IfErr, string_bytes};
ghost use Rattle.cml_report.specs.{AreAll, IsTextOf};
ghost use Rattle.cml_script.specs.{IsRunText, IsUnsettled, IsUntold, IsOfRun, EndsUntold, Runs, RunsAs, RunsJournal};

use crate::gate::Gate;
use crate::workers::perform_in_threads;
use cml_board::{Board, BoardLog, Text};
use cml_grammar::{Script, read_script};
use cml_report::{
    Ending, Form, Plan, Played, Ran, Stop, Tally, conclude_as, read_all, write_played,
};
use cml_threads::{PARTS, Settled, Switchboard};
use std::alloc::{AllocError, Global};
use std::io::{Read, Write};
use std::marker::Brand;
use std::sync::Wait;
use std::sync::ledger::{Blank, Ledger};
use std::thread::Threads;

/// Runs a script: it reads the whole script, and performs each of its threads on an operating-system thread, all on one
/// switchboard. Then it audits the journal and writes the report. The order of the threads differs from run to run.
pub fn run<I: Read, W: Write, R: Threads + Wait + Sync, G: Gate + Sync>(
    rt: &R,
    alloc: Global,
    reader: &mut I,
    writer: &mut W,
    limit: u64,
    gate: &G,
) -> Ending
    requires least { 1 ≤ limit }
    requires most { limit ≤ 2 ^ 32 }
    ensures runs { Runs limit (I.remaining reader.old) (I.remaining reader.new) (W.contents writer.old) (W.contents writer.new) result }
    ensures open { G.opens gate.now ≡ true → result ≢ Ending.Held }
{
    run_as(rt, alloc, reader, writer, limit, Form::Report, gate)
}

/// Runs a script, as [`run`] does, and writes its journal as text in the report's place. The journal has all entries, from
/// those of the declared objects on. It doesn't tell how the run ended, nor what was taken from feeds.
pub fn run_journal<I: Read, W: Write, R: Threads + Wait + Sync, G: Gate + Sync>(
    rt: &R,
    alloc: Global,
    reader: &mut I,
    writer: &mut W,
    limit: u64,
    gate: &G,
) -> Ending
    requires least { 1 ≤ limit }
    requires most { limit ≤ 2 ^ 32 }
    ensures runs { RunsJournal limit (I.remaining reader.old) (I.remaining reader.new)
        (W.contents writer.old) (W.contents writer.new) result }
    ensures open { G.opens gate.now ≡ true → result ≢ Ending.Held }
{
    run_as(rt, alloc, reader, writer, limit, Form::Journal, gate)
}

/// Runs a script, and writes its text in this form.
fn run_as<I: Read, W: Write, R: Threads + Wait + Sync, G: Gate + Sync>(
    rt: &R,
    alloc: Global,
    reader: &mut I,
    writer: &mut W,
    limit: u64,
    form: Form,
    gate: &G,
) -> Ending
    requires least { 1 ≤ limit }
    requires most { limit ≤ 2 ^ 32 }
    ensures runs { RunsAs form limit (I.remaining reader.old) (I.remaining reader.new)
        (W.contents writer.old) (W.contents writer.new) result }
    ensures open { G.opens gate.now ≡ true → result ≢ Ending.Held }
{
    match run_read(rt, alloc, reader, limit, form, gate) {
        Ok(played) => write_played(writer, &played),
        Err(ending) => ending,
    }
}

/// Reads a script, runs it, and returns its text in this form.
fn run_read<I: Read, R: Threads + Wait + Sync, G: Gate + Sync>(
    rt: &R,
    alloc: Global,
    reader: &mut I,
    limit: u64,
    form: Form,
    gate: &G,
) -> Result<Played, Ending>
    requires least { 1 ≤ limit }
    requires most { limit ≤ 2 ^ 32 }
    ensures told { IfOk result (λ played. AreAll (I.remaining reader.old) (I.remaining reader.new)
        (IsRunText form limit played.stop (string_bytes played.report))) }
    ensures untold { IfErr result (λ ending. EndsUntold (I.remaining reader.old) (I.remaining reader.new) ending) }
    ensures open { IfOk result (λ played. G.opens gate.now ≡ true → played.stop ≢ Stop.Held) }
{
    let text = read_all(alloc, reader)?;
    let script = read_script(alloc, &text)?;
    let blank = Blank::new(PARTS);
    match settle_script::<Brand, R, G>(rt, alloc, &script, limit, gate, blank) {
        Ok(left) => {
            let plan = Plan::new(alloc, &script)?;
            let ran = Ran {
                plan: &plan,
                board: left.settled.board(),
                tally: &left.tally,
                stop: left.stop,
            };
            conclude_settled(alloc, form, limit, &ran)
        }
        Err(ending) => Err(ending),
    }
}

/// Concludes what a settled switchboard leaves. Its board has this limit, and was never cut.
fn conclude_settled(
    alloc: Global,
    form: Form,
    limit: u64,
    ran: &Ran<'_, '_>,
) -> Result<Played, Ending>
    ensures stop { IfOk result (λ played. played.stop ≡ ran.now.stop) }
    ensures text { IfOk result (λ played. IsTextOf form ran.now.plan.now limit ran.now.board.now.history ran.now.tally.now ran.now.stop
        (string_bytes played.report)) }
    ensures untold { IfErr result (λ ending. IsUntold ran.now.plan.now limit ran.now.board.now ran.now.tally.now ran.now.stop ending) }
{
    if !is_of_run(limit, ran.board) {
        return Err(Ending::NotLawful(ran.board.journal().len()));
    }
    conclude_as(alloc, form, ran)
}

/// Whether the board has this limit, and was never cut.
fn is_of_run(limit: u64, board: &Board<Text, BoardLog<Text>>) -> bool
    ensures { IsTrue result ↔ IsOfRun limit board.now }
{
    board.limit() == limit && board.cut_at() == 0
}

/// What a run leaves.
#[derive(Drop)]
struct Remains {
    settled: Settled<Text, BoardLog<Text>>,
    tally: Tally,
    stop: Stop,
}

/// Performs a script on a new switchboard, and settles that.
fn settle_script<Led: Ledger + Send + Sync, R: Threads + Wait + Sync, G: Gate + Sync>(
    rt: &R,
    alloc: Global,
    script: &Script,
    limit: u64,
    gate: &G,
    blank: Blank,
) -> Result<Remains, Ending>
    requires least { 1 ≤ limit }
    requires most { limit ≤ 2 ^ 32 }
    requires name { blank.name ≡ Led.name }
    requires parts { blank.parts ≡ Led.parts }
    requires enough { blank.parts ≡ 2 ^ 63 }
    ensures unsettled { IfErr result (λ ending. IsUnsettled ending) }
    ensures open { IfOk result (λ left. G.opens gate.now ≡ true → left.stop ≢ Stop.Held) }
{
    let switchboard = Switchboard::<Text, BoardLog<Text>, Led>::new(alloc, limit, blank)?;
    let ended = perform_in_threads(rt, alloc, script, &switchboard, gate)?;
    match switchboard.settle(ended.lefts) {
        Ok(settled) => Ok(Remains {
            settled,
            tally: ended.tally,
            stop: ended.stop,
        }),
        Err((switchboard, _)) => Err(Ending::NotLawful(entries_of(switchboard))),
    }
}

/// How many entries there are if not all answers are accounted for: what is not lawful comes after them.
fn entries_of<Led: Ledger>(switchboard: Switchboard<Text, BoardLog<Text>, Led>) -> usize {
    switchboard.into_hall().board().journal().len()
}
