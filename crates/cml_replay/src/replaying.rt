//! A script, from the reader's bytes to those of its report or its journal.
ghost use Rattle.std.specs.Prelude.{◌≤◌, ◌^◌, IfOk, IfErr, string_bytes};
ghost use Rattle.cml_report.specs.{AreAll};
ghost use Rattle.cml_replay.specs.{IsPlayedText, IsPlayedTextAs, EndsUnplayed, EndsUnplayedText, Replays, ReplaysAs, ReplaysJournal};

use crate::perform::play_as;
use cml_grammar::{Fault, What, read_script};
use cml_report::{Ending, Form, Played, read_all, write_played};
use std::alloc::{AllocError, Global};
use std::io::{Read, Write};

/// Replays a script on one thread: it reads the whole script, performs it, and then writes the report. It always performs
/// the first step in text order that is its thread's next and would not wait. Lanes and feeds need threads, so it does not
/// perform a script that has one.
pub fn replay<R: Read, W: Write>(
    alloc: Global,
    reader: &mut R,
    writer: &mut W,
    limit: u64,
) -> Ending
    requires least { 1 ≤ limit }
    requires most { limit ≤ 2 ^ 32 }
    ensures { Replays limit (R.remaining reader.old) (R.remaining reader.new) (W.contents writer.old) (W.contents writer.new) result }
{
    replay_as(alloc, reader, writer, limit, Form::Report)
}

/// Replays a script on one thread, as [`replay`] does, and writes its journal as text in the report's place. The journal has
/// all entries, from those of the declared objects on. It doesn't tell how the replay ended.
pub fn replay_journal<R: Read, W: Write>(
    alloc: Global,
    reader: &mut R,
    writer: &mut W,
    limit: u64,
) -> Ending
    requires least { 1 ≤ limit }
    requires most { limit ≤ 2 ^ 32 }
    ensures { ReplaysJournal limit (R.remaining reader.old) (R.remaining reader.new)
        (W.contents writer.old) (W.contents writer.new) result }
{
    replay_as(alloc, reader, writer, limit, Form::Journal)
}

/// Replays a script, and writes its text in this form.
fn replay_as<R: Read, W: Write>(
    alloc: Global,
    reader: &mut R,
    writer: &mut W,
    limit: u64,
    form: Form,
) -> Ending
    requires least { 1 ≤ limit }
    requires most { limit ≤ 2 ^ 32 }
    ensures { ReplaysAs form limit (R.remaining reader.old) (R.remaining reader.new)
        (W.contents writer.old) (W.contents writer.new) result }
{
    match play_read(alloc, reader, limit, form) {
        Ok(played) => write_played(writer, &played),
        Err(ending) => ending,
    }
}

/// Reads a script and performs it.
fn play_read<R: Read>(
    alloc: Global,
    reader: &mut R,
    limit: u64,
    form: Form,
) -> Result<Played, Ending>
    requires least { 1 ≤ limit }
    requires most { limit ≤ 2 ^ 32 }
    ensures played { IfOk result (λ played. AreAll (R.remaining reader.old) (R.remaining reader.new)
        (IsPlayedTextAs form limit played.stop (string_bytes played.report))) }
    ensures unplayed { IfErr result (λ ending. EndsUnplayed (R.remaining reader.old) (R.remaining reader.new) ending) }
{
    let text = read_all(alloc, reader)?;
    play_text(alloc, &text, limit, form)
}

/// Replays the text of a script on one thread, as [`replay`] does.
pub fn replay_text(alloc: Global, text: &[u8], limit: u64) -> Result<Played, Ending>
    requires least { 1 ≤ limit }
    requires most { limit ≤ 2 ^ 32 }
    ensures played { IfOk result (λ played. IsPlayedText limit text.now played.stop (string_bytes played.report)) }
    ensures unplayed { IfErr result (λ ending. EndsUnplayedText text.now ending) }
{
    play_text(alloc, text, limit, Form::Report)
}

/// Performs the text of a script, and writes it in this form.
#[tactic(auto, using(crate::proofs::ReplayLemmas::unplayed))]
fn play_text(alloc: Global, text: &[u8], limit: u64, form: Form) -> Result<Played, Ending>
    requires least { 1 ≤ limit }
    requires most { limit ≤ 2 ^ 32 }
    ensures played { IfOk result (λ played. IsPlayedTextAs form limit played.stop (string_bytes played.report) text.now) }
    ensures unplayed { IfErr result (λ ending. EndsUnplayedText text.now ending) }
{
    let script = read_script(alloc, text)?;
    if let Some(line) = script.first_ring() {
        let what = What::NeedsRun;
        return Err(Ending::Fault(Fault { line, what }));
    }
    let played = play_as(alloc, &script, limit, form)?;
    Ok(played)
}
