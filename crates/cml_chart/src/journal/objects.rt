//! Names of objects and messages, and a line for each object.
ghost use Rattle.std.specs.Prelude.{◌≡◌, ◌<◌, ◌++◌, OnOk, length, string_bytes};
ghost use Rattle.cml_board.specs.{kind_of};
ghost use Rattle.cml_chart.specs.{counted, port_state, held_state, kind_word, object_name, shown_word, front_word, told_objects, told_object, object_state, mailbox_state, channel_state};

use cml_board::{Board, BoardLog, Kind, Message, Name};
use cml_grammar::has_bad_byte;
use cml_journal::Written;
use std::alloc::{AllocError, Global};

/// The most bytes of a message that a report has.
const MOST: usize = 64;

/// Adds a line for each object: its kind, its name, and what is left in it.
pub(crate) fn write_objects<M: Message + Written>(
    alloc: Global,
    report: &mut String,
    board: &Board<M, BoardLog<M>>,
) -> Result<(), AllocError>
    ensures { OnOk result (string_bytes report.new ≡ string_bytes report.old ++ told_objects M.text board.now.history) }
{
    for number in 0..board.object_count() {
        write_object(alloc, report, board, Name(number))?;
    }
    Ok(())
}

fn write_object<M: Message + Written>(
    alloc: Global,
    report: &mut String,
    board: &Board<M, BoardLog<M>>,
    name: Name,
) -> Result<(), AllocError>
    ensures { OnOk result (string_bytes report.new ≡ string_bytes report.old ++ told_object M.text board.now.history name.0) }
{
    report.push_str(kind_word(board.kind(name)))?;
    report.push_str(" ")?;
    write_name(report, board, name)?;
    report.push_str(": ")?;
    write_state(alloc, report, board, name)
}

/// Adds what is left in an object.
fn write_state<M: Message + Written>(
    alloc: Global,
    report: &mut String,
    board: &Board<M, BoardLog<M>>,
    name: Name,
) -> Result<(), AllocError>
    ensures { OnOk result (string_bytes report.new ≡ string_bytes report.old ++ object_state M.text board.now.history name.0) }
{
    match board.kind(name) {
        Some(Kind::Mailbox) => write_mailbox(report, board, name),
        Some(Kind::Channel) => write_channel(report, board, name),
        Some(Kind::Port) => write_port(report, board, name),
        Some(Kind::IVar | Kind::MVar) | None => write_held(alloc, report, board, name),
    }
}

fn write_mailbox<M: Message + Written>(
    report: &mut String,
    board: &Board<M, BoardLog<M>>,
    name: Name,
) -> Result<(), AllocError>
    ensures { OnOk result (string_bytes report.new ≡ string_bytes report.old ++ mailbox_state board.now.history name.0) }
{
    write_count(report, "sent ", board.sent_count(name))?;
    write_count(report, " got ", board.got_count(name))?;
    write_count(report, " waits ", board.owed_count(name))?;
    report.push_str("\n")
}

fn write_channel<M: Message + Written>(
    report: &mut String,
    board: &Board<M, BoardLog<M>>,
    name: Name,
) -> Result<(), AllocError>
    ensures { OnOk result (string_bytes report.new ≡ string_bytes report.old ++ channel_state board.now.history name.0) }
{
    write_count(report, "sent ", board.sent_count(name))?;
    write_count(report, " kept ", board.kept_count(name))?;
    write_count(report, " first ", board.first_of(name))?;
    report.push_str("\n")
}

/// Adds a count after its word.
fn write_count(report: &mut String, word: &str, count: Option<u64>) -> Result<(), AllocError>
    ensures { OnOk result (string_bytes report.new ≡ string_bytes report.old ++ (word.now ++ counted count)) }
{
    let count = count.unwrap_or(0);
    write!(report, "{word}{count}")
}

fn write_port<M: Message + Written>(
    report: &mut String,
    board: &Board<M, BoardLog<M>>,
    name: Name,
) -> Result<(), AllocError>
    ensures { OnOk result (string_bytes report.new ≡ string_bytes report.old ++ port_state board.now.history name.0) }
{
    let start = board.start_of(name).unwrap_or(0);
    let got = board.got_count(name).unwrap_or(0);
    match board.owed_count(name) {
        Some(owed) => write!(report, "start {start} got {got} owed {owed}\n"),
        None => write!(report, "start {start} got {got} closed\n"),
    }
}

fn write_held<M: Message + Written>(
    alloc: Global,
    report: &mut String,
    board: &Board<M, BoardLog<M>>,
    name: Name,
) -> Result<(), AllocError>
    ensures { OnOk result (string_bytes report.new ≡ string_bytes report.old ++ held_state M.text board.now.history name.0) }
{
    match board.held(name) {
        Some(Some(message)) => {
            report.push_str("full ")?;
            write_message(alloc, report, message)?;
            report.push_str("\n")
        }
        _ => report.push_str("empty\n"),
    }
}

/// Adds the name of an object: its kind and its number.
pub(crate) fn write_name<M: Message + Written>(
    report: &mut String,
    board: &Board<M, BoardLog<M>>,
    name: Name,
) -> Result<(), AllocError>
    ensures { OnOk result (string_bytes report.new ≡ string_bytes report.old ++ object_name board.now.history name.0) }
{
    let (word, number) = (kind_word(board.kind(name)), name.0);
    write!(report, "{word}{number}")
}

fn kind_word(kind: Option<Kind>) -> &'static str
    ensures { result.now ≡ kind_word kind }
{
    match kind {
        Some(Kind::Mailbox) => "mailbox",
        Some(Kind::Channel) => "channel",
        Some(Kind::Port) => "port",
        Some(Kind::IVar) => "ivar",
        Some(Kind::MVar) => "mvar",
        None => "none",
    }
}

/// Adds a message's word, or its first 64 bytes. The empty message is `=""`, since `=` alone is no message of a report.
pub(crate) fn write_message<M: Message + Written>(
    alloc: Global,
    report: &mut String,
    message: &M,
) -> Result<(), AllocError>
    ensures { OnOk result (string_bytes report.new ≡ string_bytes report.old ++ shown_word (M.text message.now)) }
{
    let mut word = String::new(alloc);
    message.write(&mut word)?;
    report.push_str(shown(&word))
}

/// A word that is at most 64 bytes long.
fn shown(word: &str) -> &str
    ensures { result.now ≡ shown_word word.now }
{
    if word == "=" {
        return "=\"\"";
    }
    if word.len() <= MOST {
        return word;
    }
    front_of(word)
}

/// The first 64 bytes of a longer word, if they are printed.
#[tactic(auto, using(cml_grammar::proofs::WordLemmas::text_from_bytes))]
fn front_of(word: &str) -> &str
    requires { 64 < length word.now }
    ensures { result.now ≡ front_word word.now }
{
    let front = &word.as_bytes()[..MOST];
    if has_bad_byte(front) {
        return word;
    }
    let Ok(front) = str::from_utf8(front) else {
        unreachable!();
    };
    front
}
