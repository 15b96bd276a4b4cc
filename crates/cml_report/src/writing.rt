//! What is written of a script: its report, or its journal as text.
ghost use Rattle.std.specs.Prelude.{◌≡◌, IfOk, string_bytes};
ghost use Rattle.cml_board.specs.{no_entries};
ghost use Rattle.cml_report.specs.{IsOfScript, Writes, ran_text, journal_text};

use crate::ending::Ending;
use crate::form::Form;
use crate::played::Played;
use crate::ran::Ran;
use crate::report::report;
use crate::whole::journal;
use cml_board::{Board, BoardLog, Text};
use cml_grammar::{Script, write_whole};
use cml_journal::{ScriptWords, add_piece_in};
use std::alloc::{AllocError, Global};
use std::io::Write;

/// What is written in a form of a script whose journal was never cut.
pub fn text_as(alloc: Global, form: Form, ran: &Ran<'_, '_>) -> Result<String, AllocError>
    requires own { IsOfScript ran.now.plan.now ran.now.board.now.history }
    requires whole { ran.now.board.now.past ≡ no_entries }
    ensures { IfOk result (λ text. string_bytes text ≡ ran_text form ran.now) }
{
    match form {
        Form::Report => report(alloc, ran),
        Form::Journal => journal_text(alloc, ran.plan.script(), ran.board),
    }
}

/// The text of a script's journal that was never cut.
fn journal_text(
    alloc: Global,
    script: &Script,
    board: &Board<Text, BoardLog<Text>>,
) -> Result<String, AllocError>
    requires { board.now.past ≡ no_entries }
    ensures { IfOk result (λ text. string_bytes text ≡ journal_text script.now.version board.now.history) }
{
    // The contract of `limit` says that no journal has 2^64 entries.
    let _limit = board.limit();
    let words = ScriptWords {
        version: script.version(),
    };
    let mut text = String::new(alloc);
    match add_piece_in(&mut text, &words, 0, journal(board)) {
        Ok(()) => Ok(text),
        // No line is too long, since a text has at most 64 bytes.
        Err(_) => Err(AllocError),
    }
}

/// Writes the whole text, and returns how the run ended.
pub fn write_played<W: Write>(writer: &mut W, played: &Played) -> Ending
    ensures { Writes (W.contents writer.old) (W.contents writer.new) played.now.stop (string_bytes played.now.report) result }
{
    match write_whole(writer, played.report.as_bytes()) {
        Ok(()) => Ending::from(played.stop),
        Err(_) => Ending::WriteFault,
    }
}
