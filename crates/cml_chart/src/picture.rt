//! What is drawn of a run, as lines of text or as SVG: its columns, some rows of its chart, and what is written at them.
use crate::chart::{Added, Course};
use crate::marks::Drawn;
use crate::report::{Act, makes_port, replies_to};
use cml_calls::ReplyKind;
use std::alloc::{AllocError, Global};
use std::fmt::Write;

/// A column: its name, the kind over that, and what is said of an object under it, with a space in front.
#[derive(Clone, Copy)]
pub(crate) struct Column<'p> {
    pub(crate) kind: &'p str,
    pub(crate) name: &'p str,
    pub(crate) closing: &'p str,
}

/// The rows that are drawn of a course, under the columns.
#[derive(Drop)]
pub(crate) struct Picture<'p, 'a> {
    pub(crate) course: &'p Course<'a>,
    pub(crate) columns: Vec<Column<'p>>,
    pub(crate) rows: Vec<Drawn<'a>>,
    /// How many rows are before those that are drawn.
    pub(crate) before: usize,
}

impl Column<'_> {
    /// How many letters wide it is. All texts of a report are ASCII, so bytes are letters.
    pub(crate) fn width(&self) -> usize {
        self.kind.len().max(self.name.len()).saturating_add(1)
    }
}

/// The columns of those who act, and of the objects. The names of lanes and feeds tell their kind.
pub(crate) fn columns_of<'p>(
    alloc: Global,
    course: &'p Course<'_>,
) -> Result<Vec<Column<'p>>, AllocError> {
    let mut columns = Vec::new(alloc);
    let chart = &course.chart;
    for name in chart.names.iter().take(chart.actors) {
        let kind = if name.contains(' ') { "" } else { "thread" };
        let (name, closing) = (name.as_str(), "");
        columns.push(Column {
            kind,
            name,
            closing,
        })?;
    }
    for object in &course.report.objects {
        let (kind, name) = (object.kind, object.name);
        let (_, closing) = object.line.split_once(':').unwrap_or(("", ""));
        columns.push(Column {
            kind,
            name,
            closing,
        })?;
    }
    Ok(columns)
}

/// Adds the label of an act's arrow: its step, the message, and its reply unless that is `done` or `made`.
pub(crate) fn push_label(out: &mut String, act: &Act<'_>) -> Added {
    out.push_str(act.word)?;
    if let Some(with) = act.with {
        out.push_str(if makes_port(act.verb) { " of " } else { " " })?;
        out.push_str(with)?;
    }
    match act.reply {
        "done" | "made" => Ok(()),
        reply => write!(out, ": {reply}"),
    }
}

/// Whether an act found nothing, or not what it asks for.
pub(crate) fn is_missed(act: &Act<'_>) -> bool {
    matches!(act.reply, "none" | "put" | "closed")
}

/// Whether the act is to get a message from the object.
pub(crate) fn points_back(act: &Act<'_>) -> bool {
    replies_to(act.verb).contains(&ReplyKind::Got)
}

/// Whether something goes to the object. With a swap both are so.
pub(crate) fn points_out(act: &Act<'_>) -> bool {
    act.with.is_some() || !points_back(act)
}

/// Adds a thread's next step, without the thread's name.
pub(crate) fn push_step(out: &mut String, stop: &str, step: &str) -> Added {
    let says = if stop == "stalled" { "waits" } else { "next" };
    let (_, step) = step.split_once(' ').unwrap_or(("", ""));
    write!(out, "{says}: {step}")
}

/// Adds how many of all rows are drawn, and after how many others, unless all are drawn.
pub(crate) fn push_note(out: &mut String, picture: &Picture<'_, '_>, end: &str) -> Added {
    let (drawn, all) = (picture.rows.len(), picture.course.chart.rows.len());
    let before = picture.before;
    if drawn >= all {
        return Ok(());
    }
    write!(out, "{drawn} of {all} rows, after row {before}{end}")
}
