//! A chart as SVG.
use crate::chart::{Added, Course};
use crate::marks::Drawn;
use crate::picture::{
    Picture, is_missed, points_back, points_out, push_label, push_note, push_step,
};
use crate::report::Act;
use std::alloc::Global;
use std::fmt;
use std::fmt::Write;

/// What screen readers say of the picture.
const ABOUT: &str =
    " role='img' aria-labelledby='title about'>\n<title id='title'>Sequence chart of a run</title>\n<desc id='about'>A column for each thread, lane, feed and object, and below each other a row for each thing that was done: an arrow between the column of who did it and that of the object.</desc>\n";

/// The style, which needs no font and no script, and follows light and dark; an arrow's head, which is drawn at either end; and the
/// dot of a mark.
const STYLE: &str =
    "<style>svg{font-family:ui-monospace,Menlo,Consolas,monospace;font-size:12px;background:#fff}text{fill:#1c1e21}.kind,.name{text-anchor:middle}.kind{font-size:10px;fill:#5f6670}.name{font-weight:bold}.life{stroke:#c3c8cf}.out,.back,.both{stroke:#1f5fa8;stroke-width:1.5}.out,.both{marker-end:url(#head)}.back,.both{marker-start:url(#head)}.missed{stroke-dasharray:4 3}.told{stroke:#1f5fa8;stroke-opacity:.5;marker-end:url(#dot)}#head path,#dot circle{fill:#1f5fa8}.closing{font-size:11px}.end{font-weight:bold;font-size:14px}.done{fill:#1b7a3d}.stalled{fill:#b3261e}.full{fill:#9a5b00}.held{fill:#6b4fa0}@media(prefers-color-scheme:dark){svg{background:#16181c}text{fill:#e6e8eb}.kind{fill:#9aa2ad}.life{stroke:#434a54}.out,.back,.both,.told{stroke:#7fb2f0}#head path,#dot circle{fill:#7fb2f0}.done{fill:#6fcf97}.stalled{fill:#ff8a80}.full{fill:#f2b35c}.held{fill:#b9a3e8}}</style>\n<defs><marker id='head' viewBox='0 0 8 8' refX='8' refY='4' markerWidth='7' markerHeight='7' orient='auto-start-reverse'><path d='M0 0 8 4 0 8z'/></marker><marker id='dot' viewBox='0 0 6 6' refX='3' refY='3' markerWidth='6' markerHeight='6'><circle cx='3' cy='3' r='2.5'/></marker></defs>\n";

/// How far apart the columns are, and where their lines end.
#[derive(Clone, Copy)]
struct Sheet {
    alloc: Global,
    gap: u64,
    bottom: u64,
}

/// Adds a picture: the columns, the rows, the steps that threads have left, and how the run ended.
pub(crate) fn draw_svg(alloc: Global, out: &mut String, picture: &Picture<'_, '_>) -> Added {
    let widths = picture.columns.iter().map(|column| column.width());
    let closings = picture.columns.iter().map(|column| column.closing.len());
    let labels = picture.rows.iter();
    let labels = labels.map(|drawn| label_length(&drawn.row.act));
    let steps = picture.course.threads.iter();
    let steps = steps.filter_map(|thread| thread.step());
    let steps = steps.map(|step| step.len().saturating_add(1));
    let gap = place_at(12, 8, widths.max().unwrap_or(0));
    let bottom = place_at(84, 26, picture.rows.len());
    // A step's word has at most nine letters.
    let width = place_at(188, gap, picture.columns.len());
    let width = place_at(width, 8, labels.max().unwrap_or(0));
    let deepest = closings.max().unwrap_or(0).max(steps.max().unwrap_or(0));
    let height = place_at(bottom.saturating_add(60), 5, deepest);
    write!(
        out,
        "<svg xmlns='http://www.w3.org/2000/svg' viewBox='0 0 {width} {height}'{ABOUT}{STYLE}"
    )?;
    let sheet = Sheet { alloc, gap, bottom };
    sheet.push_columns(out, picture)?;
    for (at, drawn) in picture.rows.iter().enumerate() {
        sheet.push_row(out, place_at(80, 26, at), drawn)?;
    }
    sheet.push_steps(out, picture.course)?;
    let (mut note, end) = (String::new(alloc), picture.course.report.end);
    push_note(&mut note, picture, "")?;
    push_text(out, "note", (16, height.saturating_sub(38)), &note)?;
    let (y, stop, line) = (height.saturating_sub(16), end.stop, end.line);
    writeln!(
        out,
        "<text class='end {stop}' x='16' y='{y}'>{line}</text>\n</svg>"
    )
}

impl Sheet {
    /// Where the line of a column is.
    fn column_at(&self, at: usize) -> u64 {
        place_at(60, self.gap, at)
    }

    /// The line of each column, with its head, and under an object's line how it was left.
    fn push_columns(&self, out: &mut String, picture: &Picture<'_, '_>) -> Added {
        for (at, column) in picture.columns.iter().enumerate() {
            let x = self.column_at(at);
            push_line(out, "life", (x, 52), (x, self.bottom))?;
            push_text(out, "kind", (x, 26), column.kind)?;
            push_text(out, "name", (x, 43), column.name)?;
            if !column.closing.is_empty() {
                self.push_under(out, "closing", at, column.closing)?;
            }
        }
        Ok(())
    }

    /// The arrow of a row, from the line of the actor's column to that of the object's, and from there to each that is marked.
    fn push_row(&self, out: &mut String, y: u64, drawn: &Drawn<'_>) -> Added {
        let (row, act) = (&drawn.row, &drawn.row.act);
        let (from, to) = (self.column_at(row.actor), self.column_at(row.object));
        push_line(out, arrow_class(act), (from, y), (to, y))?;
        for mark in &drawn.marks {
            push_line(out, "told", (to, y), (self.column_at(*mark), y))?;
        }
        let mut label = String::new(self.alloc);
        push_label(&mut label, act)?;
        let place = (from.saturating_add(8), y.saturating_sub(9));
        push_text(out, "label", place, &label)
    }

    /// The steps that threads have left, each under its thread's column. Those of the script's threads come first.
    fn push_steps(&self, out: &mut String, course: &Course<'_>) -> Added {
        let stop = course.report.end.stop;
        let class = match stop {
            "stalled" => "closing stalled",
            _ => "closing",
        };
        for (at, thread) in course.threads.iter().enumerate() {
            if let Some(step) = thread.step() {
                let mut says = String::new(self.alloc);
                push_step(&mut says, stop, step)?;
                self.push_under(out, class, at, &says)?;
            }
        }
        Ok(())
    }

    /// Adds a text aslant under a column.
    fn push_under(&self, out: &mut String, class: &str, column: usize, says: &str) -> Added {
        let (x, y) = (self.column_at(column), self.bottom.saturating_add(12));
        let says = Escaped(says);
        writeln!(
            out,
            "<text class='{class}' transform='translate({x} {y}) rotate(30)'>{says}</text>"
        )
    }
}

/// Adds a line of this class between two points.
fn push_line(out: &mut String, class: &str, from: (u64, u64), to: (u64, u64)) -> Added {
    let ((x1, y1), (x2, y2)) = (from, to);
    writeln!(
        out,
        "<line class='{class}' x1='{x1}' y1='{y1}' x2='{x2}' y2='{y2}'/>"
    )
}

/// Adds a text of this class at a point.
fn push_text(out: &mut String, class: &str, place: (u64, u64), says: &str) -> Added {
    let ((x, y), says) = (place, Escaped(says));
    writeln!(out, "<text class='{class}' x='{x}' y='{y}'>{says}</text>")
}

/// A text, shown with an escape for each character that XML gives a meaning.
#[derive(Clone, Copy)]
struct Escaped<'a>(&'a str);

impl fmt::Display for Escaped<'_> {
    fn fmt<W: fmt::Write>(&self, f: &mut fmt::Formatter<W>) -> fmt::Result {
        for letter in self.0.chars() {
            match letter {
                '&' => f.write_str("&amp;")?,
                '<' => f.write_str("&lt;")?,
                '>' => f.write_str("&gt;")?,
                '"' => f.write_str("&quot;")?,
                '\'' => f.write_str("&apos;")?,
                _ => f.write_char(letter)?,
            }
        }
        Ok(())
    }
}

/// The place of the item at this position, from this origin in steps of this size.
fn place_at(origin: u64, step: u64, at: usize) -> u64 {
    step.saturating_mul(at as u64).saturating_add(origin)
}

/// How many letters the label of a row has, without the word of its step.
fn label_length(act: &Act<'_>) -> usize {
    let reply = match act.reply {
        "done" | "made" | "none" | "put" | "closed" => 6,
        message => message.len(),
    };
    act.with.unwrap_or("").len().saturating_add(reply)
}

fn arrow_class(act: &Act<'_>) -> &'static str {
    match (points_out(act), points_back(act), is_missed(act)) {
        (true, true, _) => "both",
        (true, false, false) => "out",
        (true, false, true) => "out missed",
        (false, _, false) => "back",
        (false, _, true) => "back missed",
    }
}
