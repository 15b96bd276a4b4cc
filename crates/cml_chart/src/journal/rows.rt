//! A line for each entry of a journal.
ghost use Rattle.std.specs.Prelude.{◌≡◌, ◌++◌, OnOk, string_bytes};
ghost use Rattle.cml_board.specs.{Name, message_of, object_in};
ghost use Rattle.cml_journal.specs.{field};
ghost use Rattle.cml_chart.specs.{object_name, shown_word, told_call, rows, row, row_count, has_row, doer_name, ring_name, is_giving, is_receiving, port_field, told_reply, lost_copies, lost_copy};

use crate::journal::objects::{write_message, write_name};
use cml_board::{Board, BoardLog, Call, Entry, Message, Reply, Who};
use cml_journal::Written;
use std::alloc::{AllocError, Global};

/// Adds a line for each entry that has a row.
pub(crate) fn write_rows<M: Message + Written>(
    alloc: Global,
    report: &mut String,
    board: &Board<M, BoardLog<M>>,
    entries: &[Entry<M>],
) -> Result<(), AllocError>
    ensures { OnOk result (string_bytes report.new ≡ string_bytes report.old ++ rows M.text board.now.history 0 entries.now) }
{
    for (at, entry) in entries.iter().enumerate() {
        write_row(alloc, report, board, at, entry)?;
    }
    Ok(())
}

/// How many entries have a row.
pub(crate) fn count_rows<M: Message>(entries: &[Entry<M>]) -> usize
    ensures { result ≡ row_count entries.now }
{
    let mut count = 0;
    for entry in entries {
        if has_row(entry) {
            count += 1;
        }
    }
    count
}

/// Whether an entry has a row. The making of an object has none, except that of a port which isn't a feed's own.
fn has_row<M: Message>(entry: &Entry<M>) -> bool
    ensures { result ≡ has_row entry.now }
{
    match entry.call {
        Call::NewMailbox | Call::NewChannel | Call::NewIVar | Call::NewMVar | Call::MVarInit(_) =>
            false,
        Call::NewPort(_) => !matches!(entry.who, Who::Feed(_)),
        _ => true,
    }
}

/// Adds the line of an entry at a position, if it has a row.
fn write_row<M: Message + Written>(
    alloc: Global,
    report: &mut String,
    board: &Board<M, BoardLog<M>>,
    at: usize,
    entry: &Entry<M>,
) -> Result<(), AllocError>
    ensures { OnOk result (string_bytes report.new ≡ string_bytes report.old ++ row M.text board.now.history at entry.now) }
{
    if !has_row(entry) {
        return Ok(());
    }
    write_doer(report, entry)?;
    report.push_str(" ")?;
    write_call(alloc, report, board, at, entry)?;
    report.push_str(": ")?;
    write_reply(alloc, report, &entry.reply)?;
    report.push_str("\n")
}

/// Adds a call: its word, its object, the port that it makes, and its message.
fn write_call<M: Message + Written>(
    alloc: Global,
    report: &mut String,
    board: &Board<M, BoardLog<M>>,
    at: usize,
    entry: &Entry<M>,
) -> Result<(), AllocError>
    ensures { OnOk result (string_bytes report.new ≡ string_bytes report.old ++ told_call M.text board.now.history at entry.now) }
{
    report.push_str(entry.call.shape().word)?;
    write_target(report, board, &entry.call)?;
    write_port(report, board, at, entry)?;
    write_given(alloc, report, &entry.call)
}

/// Adds the name of the object that a call names, after a space.
fn write_target<M: Message + Written>(
    report: &mut String,
    board: &Board<M, BoardLog<M>>,
    call: &Call<M>,
) -> Result<(), AllocError>
    ensures { OnOk result (string_bytes report.new ≡ string_bytes report.old
        ++ field (λ (name : Name). object_name board.now.history name.0) (object_in call.now)) }
{
    match call.object() {
        Some(name) => {
            report.push_str(" ")?;
            write_name(report, board, name)
        }
        None => Ok(()),
    }
}

/// Adds the message that a call gives, after a space.
fn write_given<M: Message + Written>(
    alloc: Global,
    report: &mut String,
    call: &Call<M>,
) -> Result<(), AllocError>
    ensures { OnOk result (string_bytes report.new ≡ string_bytes report.old
        ++ field (λ message. shown_word (M.text message)) (message_of call.now)) }
{
    match call.message() {
        Some(message) => {
            report.push_str(" ")?;
            write_message(alloc, report, message)
        }
        None => Ok(()),
    }
}

/// Adds who made an entry. A lane that does what lanes do is written as in a report, and so is a feed. Else it is a name of a thread.
fn write_doer<M: Message>(report: &mut String, entry: &Entry<M>) -> Result<(), AllocError>
    ensures { OnOk result (string_bytes report.new ≡ string_bytes report.old ++ doer_name entry.now) }
{
    match entry.who {
        Who::Seat(number) => write!(report, "seat{number}"),
        Who::Lane(number) => write_ring(report, "lane", is_giving(&entry.call), number),
        Who::Feed(number) => write_ring(report, "feed", is_receiving(entry), number),
    }
}

fn write_ring(report: &mut String, word: &str, is_ring: bool, number: u64) -> Result<(), AllocError>
    ensures { OnOk result (string_bytes report.new ≡ string_bytes report.old ++ ring_name word.now is_ring number) }
{
    if is_ring {
        write!(report, "{word} {number}")
    } else {
        write!(report, "{word}{number}")
    }
}

/// Whether this is what lanes do.
fn is_giving<M: Message>(call: &Call<M>) -> bool
    ensures { result ≡ is_giving call.now }
{
    matches!(call, Call::Send(_, _) | Call::Cast(_, _))
}

/// Whether this is what feeds do.
fn is_receiving<M: Message>(entry: &Entry<M>) -> bool
    ensures { result ≡ is_receiving entry.now.call entry.now.reply }
{
    matches!((&entry.call, &entry.reply), (Call::Recv(_), Reply::Got(_)))
}

/// Adds the port that a call makes, if it makes one. A port that was to be the copy of a closed one is named by the entry's position.
fn write_port<M: Message + Written>(
    report: &mut String,
    board: &Board<M, BoardLog<M>>,
    at: usize,
    entry: &Entry<M>,
) -> Result<(), AllocError>
    ensures { OnOk result (string_bytes report.new ≡ string_bytes report.old ++ port_field board.now.history at entry.now) }
{
    match (&entry.call, &entry.reply) {
        (Call::NewPort(_) | Call::CopyPort(_), Reply::Made(name)) => {
            report.push_str(" ")?;
            write_name(report, board, *name)
        }
        (Call::NewPort(_) | Call::CopyPort(_), _) => write!(report, " copy{at}"),
        _ => Ok(()),
    }
}

fn write_reply<M: Message + Written>(
    alloc: Global,
    report: &mut String,
    reply: &Reply<M>,
) -> Result<(), AllocError>
    ensures { OnOk result (string_bytes report.new ≡ string_bytes report.old ++ told_reply M.text reply.now) }
{
    match reply {
        Reply::Done => report.push_str("done"),
        Reply::Made(_) => report.push_str("made"),
        Reply::Got(message) => write_message(alloc, report, message),
        Reply::Nothing => report.push_str("none"),
        Reply::Put => report.push_str("put"),
        Reply::Closed => report.push_str("closed"),
    }
}

/// Adds a line for each port that was to be the copy of a closed one.
pub(crate) fn write_lost_copies<M: Message>(
    report: &mut String,
    entries: &[Entry<M>],
) -> Result<(), AllocError>
    ensures { OnOk result (string_bytes report.new ≡ string_bytes report.old ++ lost_copies 0 entries.now) }
{
    for (at, entry) in entries.iter().enumerate() {
        write_lost_copy(report, at, entry)?;
    }
    Ok(())
}

fn write_lost_copy<M: Message>(
    report: &mut String,
    at: usize,
    entry: &Entry<M>,
) -> Result<(), AllocError>
    ensures { OnOk result (string_bytes report.new ≡ string_bytes report.old ++ lost_copy at entry.now) }
{
    match (&entry.call, &entry.reply) {
        (Call::CopyPort(_), Reply::Closed) => write!(report, "port copy{at}: not made\n"),
        _ => Ok(()),
    }
}
