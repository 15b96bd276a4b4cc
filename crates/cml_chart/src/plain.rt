//! A chart as lines of text: a column for each thread and object, and a line for each row.
use crate::chart::{Added, Course};
use crate::marks::Drawn;
use crate::picture::{
    Picture, is_missed, points_back, points_out, push_label, push_note, push_step,
};
use std::fmt::Write;

/// Adds the columns' heads, a line for each row, for each thread that has a step left, and for each object, and the end.
pub(crate) fn draw_plain(out: &mut String, picture: &Picture<'_, '_>) -> Added {
    push_heads(out, picture)?;
    for drawn in &picture.rows {
        push_cells(out, picture, drawn)?;
        push_label(out, &drawn.row.act)?;
        out.push_str("\n")?;
    }
    push_note(out, picture, "\n")?;
    push_below(out, picture.course)
}

fn push_heads(out: &mut String, picture: &Picture<'_, '_>) -> Added {
    for column in &picture.columns {
        let (name, width) = (column.name, column.width());
        write!(out, "{name:width$}")?;
    }
    out.push_str("\n")?;
    for column in &picture.columns {
        let (kind, width) = (column.kind, column.width());
        write!(out, "{kind:width$}")?;
    }
    out.push_str("\n")
}

/// Adds the lines below the rows.
fn push_below(out: &mut String, course: &Course<'_>) -> Added {
    let end = course.report.end;
    for thread in &course.threads {
        if let Some(step) = thread.step() {
            let name = thread.name;
            write!(out, "{name} ")?;
            push_step(out, end.stop, step)?;
            out.push_str("\n")?;
        }
    }
    for object in &course.report.objects {
        let line = object.line;
        writeln!(out, "{line}")?;
    }
    let line = end.line;
    writeln!(out, "{line}")
}

fn push_cells(out: &mut String, picture: &Picture<'_, '_>, drawn: &Drawn<'_>) -> Added {
    let row = &drawn.row;
    let dash = if is_missed(&row.act) { '.' } else { '-' };
    for (at, column) in picture.columns.iter().enumerate() {
        out.push(lead_at(drawn, dash, at))?;
        let is_crossed = row.actor <= at && at < row.object;
        let fill = if is_crossed { dash } else { ' ' };
        for _ in 1..column.width() {
            out.push(fill)?;
        }
    }
    out.push_str(" ")
}

/// The letter where a row crosses a column's line: an arrow's head, a mark, a part of the arrow, or the column's line.
fn lead_at(drawn: &Drawn<'_>, dash: char, at: usize) -> char {
    let row = &drawn.row;
    if at == row.object && points_out(&row.act) {
        return '>';
    }
    if at == row.actor && points_back(&row.act) {
        return '<';
    }
    if drawn.marks.contains(&at) {
        return '*';
    }
    let is_between = row.actor < at && at < row.object;
    if is_between { dash } else { '|' }
}
