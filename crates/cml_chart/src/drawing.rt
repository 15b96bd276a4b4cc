//! A report, from the reader's bytes to the chart's.
ghost use Rattle.std.specs.Prelude.{◌≡◌, ◌⊎◌, ◌≤◌, IfOk, IfErr, OnOk};
ghost use Rattle.cml_chart.specs.declared.ending.Ending.TheVariants as ending;
ghost use Rattle.std.specs.Option.{option_map};
ghost use Rattle.cml_chart.specs.{bounds_of, rows_in, rows_asked, Draws, DrawsGiven, IsDrawnOf, IsGiven, EndsUndrawn, EndsUnread, IsRead};

use crate::chart::{Course, course_of};
use crate::command_line::Order;
use crate::ending::Ending;
use crate::journal::{report_or, told_report};
use crate::marks::{add_declared, add_drawn, follow_all};
use crate::picture::{Picture, columns_of};
use crate::plain::draw_plain;
use crate::report::read_report;
use crate::svg::draw_svg;
use cml_grammar::{Script, Unread, read_script, read_up_to, write_whole};
use std::alloc::{AllocError, Global};
use std::io::{Read, Write};

/// How many rows are drawn at most, without the option `--to`.
const MOST_ROWS: u64 = 500;

/// A report or a script has fewer bytes than this, so that no more is read.
const MOST_BYTES: usize = 33_554_433;

/// How often a reader is asked at the most.
const MOST_CALLS: usize = 67_108_864;

/// Draws a report of a script, which it reads whole before the report.
pub(crate) fn draw_by_script<S: Read, R: Read, W: Write>(
    alloc: Global,
    script: &mut S,
    reader: &mut R,
    writer: &mut W,
    order: &Order<'_>,
) -> Ending
    ensures { DrawsGiven (S.remaining script.old) (S.remaining script.new) (R.remaining reader.old) (R.remaining reader.new)
        (W.contents writer.old) (W.contents writer.new) result }
{
    match script_in(alloc, script) {
        Ok(script) => draw(alloc, Some(&script), reader, writer, order),
        Err(ending) => ending,
    }
}

/// Reads a script.
fn script_in<S: Read>(alloc: Global, reader: &mut S) -> Result<Script, Ending>
    ensures given { IfOk result (λ script. IsGiven (S.remaining reader.old) (S.remaining reader.new) script) }
    ensures unread { IfErr result (λ ending. EndsUnread (S.remaining reader.old) (S.remaining reader.new) ending) }
{
    let text = read_all(alloc, reader, Ending::ScriptReadFault)?;
    let script = read_script(alloc, &text)?;
    Ok(script)
}

/// Draws a report, of a script if there is one: reads all of it, and then writes the chart of the rows that are asked for.
pub(crate) fn draw<R: Read, W: Write>(
    alloc: Global,
    script: Option<&Script>,
    reader: &mut R,
    writer: &mut W,
    order: &Order<'_>,
) -> Ending
    ensures { Draws (option_map (λ s. s.now) script.entry) (R.remaining reader.old) (R.remaining reader.new)
        (W.contents writer.old) (W.contents writer.new) result }
{
    match picture(alloc, script, reader, order) {
        Ok(picture) => match write_whole(writer, picture.as_bytes()) {
            Ok(()) => Ending::Done,
            Err(_) => Ending::WriteFault,
        },
        Err(ending) => ending,
    }
}

/// Reads a report and draws it.
fn picture<R: Read>(
    alloc: Global,
    script: Option<&Script>,
    reader: &mut R,
    order: &Order<'_>,
) -> Result<String, Ending>
    ensures drawn { OnOk result (IsDrawnOf (option_map (λ s. s.now) script.entry) (R.remaining reader.old) (R.remaining reader.new)) }
    ensures undrawn { IfErr result
        (λ ending. EndsUndrawn (option_map (λ s. s.now) script.entry) (R.remaining reader.old) (R.remaining reader.new) ending) }
{
    let text = read_all(alloc, reader, Ending::ReadFault)?;
    let told = told_report(alloc, &text)?;
    let report = read_report(alloc, report_or(&text, &told))?;
    let course = course_of(alloc, script, report)?;
    let picture = draw_course(alloc, script, &course, order)?;
    Ok(picture)
}

/// Reads all bytes, or the first 33,554,433 if there are more. If that fails, returns how the drawing ends.
fn read_all<R: Read>(alloc: Global, reader: &mut R, failed: Ending) -> Result<Vec<u8>, Ending>
    ensures read { IfOk result (λ bytes. IsRead (R.remaining reader.old) (R.remaining reader.new) bytes.items) }
    ensures unread { IfErr result (λ ended. (ended ≡ failed) ⊎ (ended ≡ ending.NoMemory)) }
{
    match read_up_to(alloc, reader, MOST_BYTES, MOST_CALLS) {
        Ok(bytes) => Ok(bytes),
        Err(Unread::Failed) => Err(failed),
        Err(Unread::Memory) => Err(Ending::NoMemory),
    }
}

/// The rows that are asked for as SVG or as lines of text.
fn draw_course<'a>(
    alloc: Global,
    script: Option<&'a Script>,
    course: &Course<'a>,
    order: &Order<'_>,
) -> Result<String, AllocError> {
    let picture = picture_of(alloc, script, course, order)?;
    let mut out = String::new(alloc);
    if order.text {
        draw_plain(&mut out, &picture)?;
    } else {
        draw_svg(alloc, &mut out, &picture)?;
    }
    Ok(out)
}

/// The rows that are asked for, with their marks, under all columns.
fn picture_of<'p, 'a>(
    alloc: Global,
    script: Option<&'a Script>,
    course: &'p Course<'a>,
    order: &Order<'_>,
) -> Result<Picture<'p, 'a>, AllocError>
    ensures rows { IfOk result (λ picture. rows_in picture.rows.items ≡ rows_asked order.now course.now.chart.rows.items) }
{
    let all = course.chart.rows.as_slice();
    let (start, end) = bounds(order, all.len());
    let columns = columns_of(alloc, course)?;
    let mut open = Vec::new(alloc);
    if let Some(script) = script {
        add_declared(alloc, &mut open, script)?;
    }
    let front = &all[..end];
    follow_all(&mut open, &front[..start])?;
    let mut rows = Vec::new(alloc);
    add_drawn(alloc, &mut rows, &mut open, &course.chart, &front[start..])?;
    Ok(Picture {
        course,
        columns,
        rows,
        before: start,
    })
}

/// The two positions, among `count` rows, between which the rows asked for are, as far as there are such rows.
fn bounds(order: &Order<'_>, count: usize) -> (usize, usize)
    ensures bounds { result ≡ bounds_of order.now count }
    ensures within { (result.0 ≤ result.1) × (result.1 ≤ count) }
{
    let from = order.from.unwrap_or(1);
    let to = order.to.unwrap_or(from.saturating_add(MOST_ROWS - 1));
    let end = count.min(to as usize);
    let start = end.min(from.saturating_sub(1) as usize);
    (start, end)
}
