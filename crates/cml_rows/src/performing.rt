//! How lines are performed and written again.
use crate::cutting::{Way, last_look};
use crate::told::Told;
use crate::words::is_note;
use std::alloc::Global;

/// What performs the lines of a case.
pub trait Performs {
    /// Performs a line's words, and writes their outcome. The table has `expected` after them.
    fn obey(&mut self, told: &mut Told, words: &[&str], expected: &str);

    /// Cuts the journal this way, if in any.
    fn cut_by(&mut self, told: &mut Told, way: Option<Way>);
}

/// Whether a line says that what its case began is over.
pub fn is_over(line: &str) -> bool {
    line.starts_with("over")
}

/// Writes each line again, up to one that says the case is over, with its outcome on this table. After each line the
/// journal is cut.
pub fn retell<T: Performs>(
    told: &mut Told,
    alloc: Global,
    table: &mut T,
    lines: &[String],
    way: Option<Way>,
) {
    for line in lines.iter() {
        if is_over(line.as_str()) {
            break;
        }
        perform(told, alloc, table, line.as_str());
        table.cut_by(told, way);
    }
    if let Some(line) = last_look(way) {
        perform(told, alloc, table, line);
    }
}

fn perform<T: Performs>(told: &mut Told, alloc: Global, table: &mut T, line: &str) {
    if is_note(line) {
        told.say(line);
    } else {
        perform_call(told, alloc, table, line);
    }
    told.say("\n");
}

fn perform_call<T: Performs>(told: &mut Told, alloc: Global, table: &mut T, line: &str) {
    let (asked, expected) = line.split_once(": ").unwrap_or((line, ""));
    told.say(asked);
    told.say(": ");
    obey_words(told, alloc, table, asked, expected);
}

fn obey_words<T: Performs>(
    told: &mut Told,
    alloc: Global,
    table: &mut T,
    asked: &str,
    expected: &str,
) {
    match asked.split(' ').collect::<Vec<&str>>(alloc) {
        Ok(words) => table.obey(told, words.as_slice(), expected),
        Err(_) => told.lack(),
    }
}
