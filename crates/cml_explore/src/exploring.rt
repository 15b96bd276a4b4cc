//! A script, from the reader's bytes to its endings.

use crate::ending::Ending;
use crate::found::Leaf;
use crate::reading::read;
use crate::search::Search;
use crate::telling::{tell_all, tell_journal};
use cml_grammar::Script;
use cml_report::{Ending as Ended, Form, Plan};
use std::alloc::Global;
use std::io::{Read, Write};

/// Reads a script, finds the endings that its threads can have in whatever order they go, and writes them. It keeps at most
/// `states` states. If there are more, it writes the endings that it found among these, and says so.
pub fn explore<R: Read, W: Write>(
    alloc: Global,
    reader: &mut R,
    writer: &mut W,
    states: u64,
) -> Ending {
    explore_as(alloc, reader, writer, states, Form::Report)
}

/// Reads a script, and writes the journal of the first ending that isn't done, or of the first ending if all are done. If there
/// are more than `states` states, and all endings that it found among these are done, it writes nothing.
pub fn explore_journal<R: Read, W: Write>(
    alloc: Global,
    reader: &mut R,
    writer: &mut W,
    states: u64,
) -> Ending {
    explore_as(alloc, reader, writer, states, Form::Journal)
}

fn explore_as<R: Read, W: Write>(
    alloc: Global,
    reader: &mut R,
    writer: &mut W,
    states: u64,
    form: Form,
) -> Ending {
    match explore_read(alloc, reader, writer, states, form) {
        Ok(ending) => ending,
        Err(ending) => ending,
    }
}

fn explore_read<R: Read, W: Write>(
    alloc: Global,
    reader: &mut R,
    writer: &mut W,
    states: u64,
    form: Form,
) -> Result<Ending, Ending> {
    let script = read(alloc, reader)?;
    match form {
        Form::Report => tell_endings(alloc, &script, writer, states),
        Form::Journal => tell_bad(alloc, &script, writer, states),
    }
}

/// Finds and writes all endings of a script.
fn tell_endings<W: Write>(
    alloc: Global,
    script: &Script,
    writer: &mut W,
    states: u64,
) -> Result<Ending, Ending> {
    let plan = Plan::new(alloc, script)?;
    let mut search = Search::new(alloc, &plan, states)?;
    search.find_all()?;
    tell_all(alloc, writer, &search)?;
    if search.is_whole() {
        Ok(Ending::Script(Ended::from(search.found.worst())))
    } else {
        Ok(Ending::TooMany(states))
    }
}

/// Searches for an ending that isn't done, and writes its journal.
fn tell_bad<W: Write>(
    alloc: Global,
    script: &Script,
    writer: &mut W,
    states: u64,
) -> Result<Ending, Ending> {
    let plan = Plan::new(alloc, script)?;
    let mut search = Search::new(alloc, &plan, states)?;
    search.find_bad()?;
    match worth_a_look(&search) {
        Some(leaf) => {
            tell_journal(alloc, writer, &search, leaf)?;
            Ok(Ending::Script(Ended::from(leaf.stop)))
        }
        None => Ok(Ending::TooMany(states)),
    }
}

/// The first ending that isn't done. If all are done, the first.
fn worth_a_look(search: &Search<'_, '_>) -> Option<Leaf> {
    match search.found.bad {
        Some(leaf) => Some(leaf),
        None if search.is_whole() => search.found.first(),
        None => None,
    }
}
