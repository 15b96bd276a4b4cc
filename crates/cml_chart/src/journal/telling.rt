//! The text of a journal's report.
ghost use Rattle.std.specs.Prelude.{◌≡◌, ◌≤◌, ◌^◌, IfOk, IfErr, length, reverse, string_bytes};
ghost use Rattle.cml_board.specs.{no_entries};
ghost use Rattle.cml_chart.specs.{IsTelling, EndsReplay, journal_report};

use crate::ending::Ending;
use crate::journal::objects::write_objects;
use crate::journal::replaying::replayed;
use crate::journal::rows::{count_rows, write_lost_copies, write_rows};
use cml_board::{Board, BoardLog, Entry, Message};
use cml_journal::Written;
use std::alloc::{AllocError, Global};

/// The report that tells a journal.
pub(crate) fn tell<M: Message + Written>(alloc: Global, text: &[u8]) -> Result<String, Ending>
    ensures told { IfOk result (λ report. IsTelling M.VERSION M.meaning M.text text.now (string_bytes report)) }
    ensures ended { IfErr result (λ ending. EndsReplay ending) }
{
    let board = replayed::<M>(alloc, text)?;
    Ok(report_of(alloc, &board)?)
}

fn report_of<M: Message + Written>(
    alloc: Global,
    board: &Board<M, BoardLog<M>>,
) -> Result<String, AllocError>
    requires { board.now.past ≡ no_entries }
    ensures { IfOk result (λ report. string_bytes report ≡ journal_report M.text board.now.history) }
{
    let mut report = String::new(alloc);
    let entries = journal(board);
    write_rows(alloc, &mut report, board, entries)?;
    write_objects(alloc, &mut report, board)?;
    write_lost_copies(&mut report, entries)?;
    let rows = count_rows(entries);
    write!(report, "end: held {rows} left 0\n")?;
    Ok(report)
}

/// All entries of a board whose journal was never cut, oldest first.
fn journal<M: Message>(board: &Board<M, BoardLog<M>>) -> &[Entry<M>]
    requires { board.now.past ≡ no_entries }
    ensures { result.now ≡ reverse board.now.history }
{
    board.journal()
}
