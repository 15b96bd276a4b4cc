//! The first events as a report, of which `cml_chart` draws a chart.
use crate::ending::Ending;
use crate::simulation::Simulation;
use crate::station::{FREE, LINE};
use cml_board::{Board, BoardLog, Call, Entry, Name, Who};
use cml_journal::write_reply;
use std::alloc::{AllocError, Global};

/// How many events are reported.
const EVENTS: u64 = 100;

/// Performs the first events, and returns the report of them.
pub(crate) fn report(alloc: Global, simulation: &mut Simulation) -> Result<String, Ending> {
    simulation.open()?;
    let performed = perform_first(simulation)?;
    let mut text = String::new(alloc);
    write_report(&mut text, simulation, performed)?;
    Ok(text)
}

fn write_report(
    text: &mut String,
    simulation: &Simulation,
    performed: u64,
) -> Result<(), AllocError> {
    let events = simulation.demand().customers.saturating_mul(2);
    let board = simulation.station().board();
    let rows = write_rows(text, board.journal())?;
    write_mailbox(text, board, LINE)?;
    write_mailbox(text, board, FREE)?;
    write_end(text, rows, events.saturating_sub(performed))
}

/// Returns how many events were performed.
fn perform_first(simulation: &mut Simulation) -> Result<u64, Ending> {
    for performed in 0..EVENTS {
        if !simulation.step()? {
            return Ok(performed);
        }
    }
    Ok(EVENTS)
}

/// Adds a line for each entry after those that made the mailboxes. Returns how many lines these are.
fn write_rows(text: &mut String, entries: &[Entry<u64>]) -> Result<u64, AllocError> {
    let mut rows = 0u64;
    for entry in entries.iter().skip(2) {
        write_row(text, entry)?;
        rows = rows.saturating_add(1);
    }
    Ok(rows)
}

fn write_row(text: &mut String, entry: &Entry<u64>) -> Result<(), AllocError> {
    write_actor(text, entry.who)?;
    write_call(text, &entry.call)?;
    text.push_str(": ")?;
    write_reply(text, &entry.reply)?;
    text.push_str("\n")
}

fn write_call(text: &mut String, call: &Call<u64>) -> Result<(), AllocError> {
    let word = call.shape().word;
    write!(text, " {word}")?;
    if let Some(name) = call.object() {
        let object = word_of(name);
        write!(text, " {object}")?;
    }
    match call.message() {
        Some(message) => write!(text, " {message}"),
        None => Ok(()),
    }
}

fn write_actor(text: &mut String, who: Who) -> Result<(), AllocError> {
    match who {
        Who::Seat(0) => text.push_str("door"),
        Who::Seat(number) | Who::Lane(number) | Who::Feed(number) => write!(text, "server{number}"),
    }
}

fn word_of(name: Name) -> &'static str {
    if name == LINE { "line" } else { "free" }
}

fn write_mailbox(
    text: &mut String,
    board: &Board<u64, BoardLog<u64>>,
    name: Name,
) -> Result<(), AllocError> {
    let word = word_of(name);
    let sent = board.sent_count(name).unwrap_or(0);
    let got = board.got_count(name).unwrap_or(0);
    let waiting = board.owed_count(name).unwrap_or(0);
    write!(
        text,
        "mailbox {word}: sent {sent} got {got} waits {waiting}\n"
    )
}

/// Adds the last line. If events are left, the run was held.
fn write_end(text: &mut String, rows: u64, left: u64) -> Result<(), AllocError> {
    if left == 0 {
        write!(text, "end: done {rows}\n")
    } else {
        write!(text, "end: held {rows} left {left}\n")
    }
}
