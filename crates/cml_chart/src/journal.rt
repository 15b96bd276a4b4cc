//! A journal is drawn as the report that tells it.
ghost use Rattle.std.specs.Prelude.{◌≡◌, IfOk, IfErr, MatchOption, true, false, string_bytes};
ghost use Rattle.std.specs.Option.{option_map};
ghost use Rattle.cml_chart.specs.{is_journal, is_of_numbers, is_of_bytes, IsToldBy, IsTelling, IsReportIn, report_or, EndsUntold};

mod objects;
mod replaying;
mod rows;
mod telling;

use crate::ending::Ending;
use cml_board::Bytes;
use std::alloc::Global;
use telling::tell;

/// The most bytes of a journal, as of a report.
const MOST: usize = 33_554_432;

/// The report that tells the journal in a text, if that is a journal.
pub(crate) fn told_report(alloc: Global, text: &[u8]) -> Result<Option<String>, Ending>
    ensures told { IfOk result (λ report. MatchOption report
        (is_journal text.now ≡ false)
        (λ report. (is_journal text.now ≡ true) × IsToldBy text.now (string_bytes report))) }
    ensures untold { IfErr result (λ ending. EndsUntold text.now ending) }
{
    if !is_journal(text) {
        return Ok(None);
    }
    let report = if is_of_bytes(text) {
        tell::<Bytes>(alloc, text)?
    } else {
        tell::<u64>(alloc, text)?
    };
    Ok(Some(report))
}

/// The report: what tells the journal, if there is something, and else the text itself.
pub(crate) fn report_or<'a>(text: &'a [u8], telling: &'a Option<String>) -> &'a [u8]
    ensures { result.now ≡ report_or text.now (option_map string_bytes telling.now) }
{
    match telling {
        Some(report) => report.as_bytes(),
        None => text,
    }
}

/// Whether a text is a journal: its first line is a header without a sum.
fn is_journal(text: &[u8]) -> bool
    ensures { result ≡ is_journal text.now }
{
    text.len() <= MOST && (is_of_numbers(text) || is_of_bytes(text))
}

fn is_of_numbers(text: &[u8]) -> bool
    ensures { result ≡ is_of_numbers text.now }
{
    text.starts_with(b"journal 1\n") || text.starts_with(b"journal 3\n")
}

fn is_of_bytes(text: &[u8]) -> bool
    ensures { result ≡ is_of_bytes text.now }
{
    text.starts_with(b"journal 2\n") || text.starts_with(b"journal 4\n")
}
