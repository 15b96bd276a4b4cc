//! The lines of the objects.
ghost use Rattle.std.specs.Prelude.{◌≡◌, ◌++◌, ◌∷◌, [], Some, IfOk, OnOk, string_bytes};
ghost use Rattle.cml_calls.specs.declared.kind.Kind.TheVariants as kind;
ghost use Rattle.cml_board.specs.{kind_of};
ghost use Rattle.cml.specs.{counted, state_lines, object_line, object_head, mailbox_line, channel_line, port_line, variable_line};

use cml_board::{Board, BoardLog, Kind, Message, Name};
use cml_journal::Written;
use std::alloc::{AllocError, Global};

/// A line for each object, as a report has it, with its number for its name.
#[tactic(auto, using(crate::proofs::EndingsLemmas::lines_more))]
pub(crate) fn state_lines<M: Message + Written>(
    alloc: Global,
    board: &Board<M, BoardLog<M>>,
) -> Result<String, AllocError>
    ensures { IfOk result (λ lines. string_bytes lines ≡ state_lines M.text board.now.history) }
{
    let mut lines = String::new(alloc);
    for number in 0..board.object_count() {
        write_object(&mut lines, board, Name(number))?;
    }
    Ok(lines)
}

/// Adds an object's line, if there is one of this name.
fn write_object<M: Message + Written>(
    lines: &mut String,
    board: &Board<M, BoardLog<M>>,
    name: Name,
) -> Result<(), AllocError>
    ensures { OnOk result (string_bytes lines.new ≡ string_bytes lines.old ++ object_line M.text board.now.history name.0) }
{
    match board.kind(name) {
        Some(Kind::Mailbox) => write_mailbox(lines, board, name),
        Some(Kind::Channel) => write_channel(lines, board, name),
        Some(Kind::Port) => write_port(lines, board, name),
        Some(Kind::IVar) => write_variable(lines, board, "ivar", name),
        Some(Kind::MVar) => write_variable(lines, board, "mvar", name),
        None => Ok(()),
    }
}

fn write_mailbox<M: Message + Written>(
    lines: &mut String,
    board: &Board<M, BoardLog<M>>,
    name: Name,
) -> Result<(), AllocError>
    ensures { OnOk result (string_bytes lines.new ≡ string_bytes lines.old ++ mailbox_line M.text board.now.history name.0) }
{
    let number = name.0;
    write!(lines, "mailbox {number}:")?;
    write_count(lines, " sent ", board.sent_count(name))?;
    write_count(lines, " got ", board.got_count(name))?;
    write_count(lines, " waits ", board.owed_count(name))?;
    lines.push_str("\n")
}

fn write_channel<M: Message + Written>(
    lines: &mut String,
    board: &Board<M, BoardLog<M>>,
    name: Name,
) -> Result<(), AllocError>
    ensures { OnOk result (string_bytes lines.new ≡ string_bytes lines.old ++ channel_line M.text board.now.history name.0) }
{
    let number = name.0;
    write!(lines, "channel {number}:")?;
    write_count(lines, " sent ", board.sent_count(name))?;
    write_count(lines, " kept ", board.kept_count(name))?;
    write_count(lines, " first ", board.first_of(name))?;
    lines.push_str("\n")
}

/// Adds a count after its word.
fn write_count(lines: &mut String, word: &str, count: Option<u64>) -> Result<(), AllocError>
    ensures { OnOk result (string_bytes lines.new ≡ string_bytes lines.old ++ (word.now ++ counted count)) }
{
    let count = count.unwrap_or(0);
    write!(lines, "{word}{count}")
}

fn write_port<M: Message + Written>(
    lines: &mut String,
    board: &Board<M, BoardLog<M>>,
    name: Name,
) -> Result<(), AllocError>
    ensures { OnOk result (string_bytes lines.new ≡ string_bytes lines.old ++ port_line M.text board.now.history name.0) }
{
    let number = name.0;
    let start = board.start_of(name).unwrap_or(0);
    let got = board.got_count(name).unwrap_or(0);
    match board.owed_count(name) {
        Some(owed) => write!(
            lines,
            "port {number}: start {start} got {got} owed {owed}\n"
        ),
        None => write!(lines, "port {number}: start {start} got {got} closed\n"),
    }
}

/// Adds the line of a variable of this kind.
fn write_variable<M: Message + Written>(
    lines: &mut String,
    board: &Board<M, BoardLog<M>>,
    word: &str,
    name: Name,
) -> Result<(), AllocError>
    ensures { OnOk result (string_bytes lines.new ≡ string_bytes lines.old ++ variable_line M.text word.now board.now.history name.0) }
{
    let number = name.0;
    match board.held(name) {
        Some(Some(message)) => {
            write!(lines, "{word} {number}: full ")?;
            message.write(lines)?;
            lines.push_str("\n")
        }
        _ => write!(lines, "{word} {number}: empty\n"),
    }
}
