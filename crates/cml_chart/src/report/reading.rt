//! A report's lines, read one by one.
ghost use Rattle.std.specs.Prelude.{◌≡◌, ◌⊎◌, ◌≤◌, ◌+◌, Ok, Err, IfOk, IfErr, OnOk, length};
ghost use Rattle.cml_chart.specs.declared.report.faults.What.TheVariants.{Memory};
ghost use Rattle.cml_chart.specs.{shown_line, shown_report, so_far, line_count, told, told_at_end, with_line, with_text, wrong, IsFaultOf};

use crate::report::faults::{Fault, What};
use crate::report::lines::line_by;
use crate::report::{Act, End, Line, Object, Report};
use cml_grammar::{cut_line, has_bad_byte, split_words};
use std::alloc::Global;

/// The most bytes that a report may have. With a journal of 65,536 entries, which is the limit of `cml` by default, a report
/// has at most some 14 megabytes of steps and some 13 of objects.
const MAX_BYTES: usize = 33_554_432;

/// The lines so far.
#[derive(Drop)]
pub(crate) struct Reading<'a> {
    acts: Vec<Act<'a>>,
    objects: Vec<Object<'a>>,
    end: Option<End<'a>>,
}

/// Reads a report. Takes time in proportion to the text's length, whatever the text is.
pub(crate) fn read_report(alloc: Global, text: &[u8]) -> Result<Report<'_>, Fault>
    ensures report { IfOk result (λ report. told text.now ≡ shown_report report) }
    ensures few { IfOk result (λ report. length report.acts.items + length report.objects.items ≤ 33554432) }
    ensures fault { IfErr result (λ fault. IsFaultOf text.now fault) }
{
    if text.len() > MAX_BYTES {
        return Err(What::TooLong.at(0));
    }
    let mut reading = Reading {
        acts: Vec::new(alloc),
        objects: Vec::new(alloc),
        end: None,
    };
    let mut rest = text;
    let mut number = 1;
    while let Some((line, later)) = cut_line(rest) {
        if let Err(what) = read_line(alloc, &mut reading, line) {
            return Err(what.at(number));
        }
        rest = later;
        number += 1;
    }
    finish(reading, number, rest)
}

#[tactic(auto, using(cml_grammar::proofs::WordLemmas::text_from_bytes))]
fn read_line<'a>(alloc: Global, reading: &mut Reading<'a>, line: &'a [u8]) -> Result<(), What>
    ensures fits { OnOk result (with_text (so_far reading.old) line.now ≡ Ok (so_far reading.new)) }
    ensures few { OnOk result (line_count reading.new ≤ line_count reading.old + 1) }
    ensures fault { IfErr result (λ what. (what ≡ Memory) ⊎ (with_text (so_far reading.old) line.now ≡ Err what)) }
{
    if has_bad_byte(line) {
        return Err(What::BadBytes);
    }
    let Ok(line) = str::from_utf8(line) else {
        unreachable!();
    };
    let words = split_words(alloc, line)?;
    match line_by(line, &words, reading.acts.len()) {
        Some(line) => add_line(reading, line),
        None => Err(What::NoReportLine),
    }
}

/// Adds a line, which may follow lines of the same part and of the parts before.
#[tactic(auto, unfolding(crate::specs::Reading::with_line))]
fn add_line<'a>(reading: &mut Reading<'a>, line: Line<'a>) -> Result<(), What>
    ensures fits { OnOk result (with_line (so_far reading.old) (shown_line line.entry) ≡ Ok (so_far reading.new)) }
    ensures few { OnOk result (line_count reading.new ≤ line_count reading.old + 1) }
    ensures fault { IfErr result (λ what. (what ≡ Memory) ⊎ (with_line (so_far reading.old) (shown_line line.entry) ≡ Err what)) }
{
    if reading.end.is_some() {
        return Err(What::OutOfPlace);
    }
    match line {
        Line::Act(_) if !reading.objects.is_empty() => return Err(What::OutOfPlace),
        Line::Act(act) => reading.acts.push(act)?,
        Line::Object(object) => reading.objects.push(object)?,
        Line::End(end) => reading.end = Some(end),
    }
    Ok(())
}

/// The report of the lines that were read, if nothing follows the last line end.
fn finish<'a>(reading: Reading<'a>, number: u64, rest: &[u8]) -> Result<Report<'a>, Fault>
    ensures report { IfOk result (λ report. told_at_end (so_far reading.entry) number rest.now ≡ shown_report report) }
    ensures few { IfOk result (λ report. length report.acts.items + length report.objects.items ≤ line_count reading.entry) }
    ensures fault { IfErr result (λ fault. told_at_end (so_far reading.entry) number rest.now ≡ wrong fault) }
{
    if !rest.is_empty() {
        return Err(What::NoLineEnd.at(number));
    }
    let Reading { acts, objects, end } = reading;
    match end {
        Some(end) => Ok(Report { acts, objects, end }),
        None => Err(What::NoEndLine.at(number)),
    }
}
