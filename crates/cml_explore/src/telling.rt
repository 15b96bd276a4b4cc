//! What is written of endings.

use crate::ending::Ending;
use crate::found::Leaf;
use crate::search::Search;
use crate::walk::Walk;
use cml_grammar::write_whole;
use cml_journal::{ScriptWords, add_piece_in};
use cml_report::{Ending as Ended, Stop};
use std::alloc::{AllocError, Global};
use std::io::Write;

/// Writes all endings that were found, and the last line. Without memory for all of that it writes nothing.
pub(crate) fn tell_all<W: Write>(
    alloc: Global,
    writer: &mut W,
    search: &Search<'_, '_>,
) -> Result<(), Ended> {
    let mut text = String::new(alloc);
    for number in 0..search.found.len() {
        if let Some(leaf) = search.found.get(number) {
            add_ending(&mut text, alloc, search, number, leaf)?;
        }
    }
    add_last(&mut text, search)?;
    write_text(writer, text.as_str())
}

/// Writes the journal of an ending.
pub(crate) fn tell_journal<W: Write>(
    alloc: Global,
    writer: &mut W,
    search: &Search<'_, '_>,
    leaf: Leaf,
) -> Result<(), Ended> {
    let walk = search.walk_to(leaf.state)?;
    walk.report(alloc, leaf.stop)?;
    let mut text = String::new(alloc);
    add_journal(&mut text, &walk)?;
    write_text(writer, text.as_str())
}

fn write_text<W: Write>(writer: &mut W, text: &str) -> Result<(), Ended> {
    match write_whole(writer, text.as_bytes()) {
        Ok(()) => Ok(()),
        Err(_) => Err(Ended::WriteFault),
    }
}

/// Adds the line that says how many endings and states there are, and whether these are all.
fn add_last(text: &mut String, search: &Search<'_, '_>) -> Result<(), AllocError> {
    let (endings, states) = (search.found.len(), search.states.len());
    if !search.is_whole() {
        text.push_str("not ")?;
    }
    write!(text, "all: endings {endings} states {states}\n")
}

/// Adds the lines of an ending: its number and kind, where threads are, its report and its journal.
fn add_ending(
    text: &mut String,
    alloc: Global,
    search: &Search<'_, '_>,
    number: usize,
    leaf: Leaf,
) -> Result<(), Ended> {
    let walk = search.walk_to(leaf.state)?;
    let played = walk.report(alloc, leaf.stop)?;
    let (count, word) = (number.saturating_add(1), word_of(leaf.stop));
    write!(text, "ending {count}: {word}\n")?;
    add_left(text, &walk, leaf.stop)?;
    text.push_str(played.report.as_str())?;
    add_journal(text, &walk)
}

/// The word for how a script ends.
fn word_of(stop: Stop) -> &'static str {
    match stop {
        Stop::Done => "done",
        Stop::Stalled => "stalled",
        Stop::Full => "full",
        Stop::Held => "held",
    }
}

/// Adds a line for each thread that has steps left, with its next step.
fn add_left(text: &mut String, walk: &Walk<'_, '_>, stop: Stop) -> Result<(), AllocError> {
    let word = match stop {
        Stop::Stalled => "waits",
        Stop::Done | Stop::Full | Stop::Held => "next",
    };
    for thread in 0..walk.threads() {
        if let Some(step) = walk.next_step(thread) {
            if let Some((name, rest)) = step.line.text.as_str().split_once(' ') {
                write!(text, "{name} {word}: {rest}\n")?;
            }
        }
    }
    Ok(())
}

/// Adds the text of the walk's journal.
fn add_journal(text: &mut String, walk: &Walk<'_, '_>) -> Result<(), Ended> {
    let words = ScriptWords {
        version: walk.version(),
    };
    let entries = walk.board.journal();
    // The contract of `len` says that no journal has 2^64 entries.
    let _count = entries.len();
    match add_piece_in(text, &words, 0, entries) {
        Ok(()) => Ok(()),
        // No line is too long, since a text has at most 64 bytes.
        Err(_) => Err(Ended::NoMemory),
    }
}
