//! The report's lines.
ghost use Rattle.std.specs.Prelude.{◌≡◌, ◌++◌, [], true, reverse, slice_get, Some, IfOk, OnOk, string_bytes, codes};
ghost use Rattle.std.specs.Fmt.{decimal};
ghost use Rattle.cml_calls.specs.{Kind, is_variable};
ghost use Rattle.cml_calls.specs.declared.kind.Kind.TheVariants as kind;
ghost use Rattle.cml_board.specs.{held, no_entries, kind_of};
ghost use Rattle.cml_grammar.specs.{names_of, kind_named};
ghost use Rattle.cml_report.specs.{IsOfScript, history_of, report, entry_lines, entry_line, sent_text, message_mark, reply_word};
ghost use Rattle.cml_report.specs.{mailbox_counts, channel_counts, port_counts, held_text, state_text, word_line, named_line};
ghost use Rattle.cml_report.specs.{object_lines_from, end_line};

use crate::follower::Follower;
use crate::ran::Ran;
use crate::snapshot::Snapshot;
use crate::stop::Stop;
use crate::whole::journal;
use cml_board::{Call, Entry, Name, Reply, Text, Who};
use cml_grammar::Named;
use std::alloc::{AllocError, Global};

/// Writes the report of a script: a line for each entry after the declared objects, in the journal's order, a line for each
/// object, and the end. The board has the journal, and the tally what went by lanes and feeds.
pub(crate) fn report(alloc: Global, ran: &Ran<'_, '_>) -> Result<String, AllocError>
    requires own { IsOfScript ran.now.plan.now ran.now.board.now.history }
    requires whole { ran.now.board.now.past ≡ no_entries }
    ensures { IfOk result (λ text. string_bytes text ≡ report ran.now.plan.now ran.now.board.now.history ran.now.tally.now ran.now.stop) }
{
    let journal = journal(ran.board);
    let mut report = String::new(alloc);
    let mut follower = Follower::new(alloc, ran.plan.script(), journal)?;
    write_entries(&mut report, &mut follower, journal)?;
    let snapshot = Snapshot::new(follower, ran.board, ran.tally);
    write_objects(&mut report, &snapshot)?;
    write_end(&mut report, &snapshot, ran.stop)?;
    Ok(report)
}

/// Follows a script's journal, and adds a line for each entry after the declared objects.
fn write_entries(
    report: &mut String,
    follower: &mut Follower<'_>,
    journal: &[Entry<Text>],
) -> Result<(), AllocError>
    requires empty { string_bytes report.old ≡ [] }
    requires begins { follower.old.followed ≡ 0 }
    requires journal { follower.old.journal ≡ journal.now }
    ensures report { OnOk result (string_bytes report.new ≡ entry_lines follower.old.script (reverse journal.now)) }
    ensures script { OnOk result (follower.new.script ≡ follower.old.script) }
    ensures followed { OnOk result (history_of follower.new ≡ reverse journal.now) }
{
    for entry in journal {
        if follower.has_begun() {
            write_entry(report, follower, entry)?;
        }
        follower.follow();
    }
    Ok(())
}

/// Adds the line of the next entry, what its caller made and the reply.
fn write_entry(
    report: &mut String,
    follower: &Follower<'_>,
    entry: &Entry<Text>,
) -> Result<(), AllocError>
    ensures { OnOk result (string_bytes report.new
        ≡ string_bytes report.old ++ entry_line follower.now.script (history_of follower.now) entry.now) }
{
    match entry.who {
        Who::Seat(_) => report.push_str(follower.next_text(entry.who))?,
        Who::Lane(lane) => write_sent(report, follower, lane, &entry.call)?,
        Who::Feed(feed) => {
            let name = follower.feed_name(feed);
            write!(report, "feed {feed} recv {name}")?;
        }
    }
    report.push_str(": ")?;
    write_reply(report, follower.script().version(), &entry.reply)?;
    report.push_str("\n")
}

/// Adds what a lane made.
fn write_sent(
    report: &mut String,
    follower: &Follower<'_>,
    lane: u64,
    call: &Call<Text>,
) -> Result<(), AllocError>
    ensures { OnOk result (string_bytes report.new
        ≡ string_bytes report.old ++ (codes "lane " ++ decimal lane ++ sent_text follower.now.script call.now)) }
{
    let mark = message_mark(follower.script().version());
    match call {
        Call::Send(target, message) => {
            let name = follower.object_name(*target);
            write!(report, "lane {lane} send {name} {mark}{message}")
        }
        Call::Cast(target, message) => {
            let name = follower.object_name(*target);
            write!(report, "lane {lane} multicast {name} {mark}{message}")
        }
        _ => write!(report, "lane {lane}"),
    }
}

/// The mark before messages in reports: `=` in version 2, so that no message looks like another reply.
fn message_mark(version: u64) -> &'static str
    ensures { result.now ≡ message_mark version }
{
    if version == 2 { "=" } else { "" }
}

fn write_reply(report: &mut String, version: u64, reply: &Reply<Text>) -> Result<(), AllocError>
    ensures { OnOk result (string_bytes report.new ≡ string_bytes report.old ++ reply_word version reply.now) }
{
    let mark = message_mark(version);
    match reply {
        Reply::Done => report.push_str("done"),
        Reply::Made(_) => report.push_str("made"),
        Reply::Got(message) => write!(report, "{mark}{message}"),
        Reply::Nothing => report.push_str("none"),
        Reply::Put => report.push_str("put"),
        Reply::Closed => report.push_str("closed"),
    }
}

/// Adds a line for each object, in text order.
fn write_objects(report: &mut String, snapshot: &Snapshot<'_>) -> Result<(), AllocError>
    ensures { OnOk result (string_bytes report.new
        ≡ string_bytes report.old
        ++ object_lines_from snapshot.now.script snapshot.now.history snapshot.now.tally 0 (names_of snapshot.now.script)) }
{
    let names = snapshot.script().names();
    for at in 0..names.len() {
        let (name, named) = names.get_index(at).unwrap();
        write_object(report, snapshot, at, name.as_str(), *named)?;
    }
    Ok(())
}

/// Adds the line of an object. A thread has none.
fn write_object(
    report: &mut String,
    snapshot: &Snapshot<'_>,
    at: usize,
    name: &str,
    named: Named,
) -> Result<(), AllocError>
    requires { slice_get (names_of snapshot.now.script) at ≡ Some (name.now, named) }
    ensures { OnOk result (string_bytes report.new
        ≡ string_bytes report.old ++ named_line snapshot.now.script snapshot.now.history snapshot.now.tally at name.now named) }
{
    match named {
        Named::Thread(_) => Ok(()),
        Named::Mailbox => write_line(report, snapshot, at, "mailbox", name, named),
        Named::Channel => write_line(report, snapshot, at, "channel", name, named),
        Named::Port(_) => write_line(report, snapshot, at, "port", name, named),
        Named::IVar => write_line(report, snapshot, at, "ivar", name, named),
        Named::MVar => write_line(report, snapshot, at, "mvar", name, named),
        Named::Feed(_) => write_line(report, snapshot, at, "feed", name, named),
    }
}

fn write_line(
    report: &mut String,
    snapshot: &Snapshot<'_>,
    at: usize,
    word: &str,
    name: &str,
    named: Named,
) -> Result<(), AllocError>
    requires named { slice_get (names_of snapshot.now.script) at ≡ Some (name.now, named) }
    requires object { (k : Kind) × (kind_named named ≡ Some k) }
    ensures { OnOk result (string_bytes report.new
        ≡ string_bytes report.old ++ word_line snapshot.now.script snapshot.now.history snapshot.now.tally at word.now name.now named) }
{
    let Some(object) = snapshot.object(at) else {
        return writeln!(report, "{word} {name}: not made");
    };
    write!(report, "{word} {name}")?;
    write_state(report, snapshot, at, named, object)?;
    report.push_str("\n")
}

/// Adds what the board has of an object that was made.
fn write_state(
    report: &mut String,
    snapshot: &Snapshot<'_>,
    at: usize,
    named: Named,
    object: Name,
) -> Result<(), AllocError>
    requires { kind_of snapshot.now.history object.0 ≡ kind_named named }
    ensures { OnOk result (string_bytes report.new
        ≡ string_bytes report.old ++ state_text snapshot.now.script snapshot.now.history snapshot.now.tally at named object.0) }
{
    match named {
        Named::Thread(_) => Ok(()),
        Named::Mailbox => write_mailbox(report, snapshot, object),
        Named::Channel => write_channel(report, snapshot, object),
        Named::Port(_) => write_port(report, snapshot, object),
        Named::IVar => write_held(report, snapshot, object),
        Named::MVar => write_held(report, snapshot, object),
        Named::Feed(_) => {
            write_port(report, snapshot, object)?;
            let taken = snapshot.taken(at);
            write!(report, " taken {taken}")
        }
    }
}

fn write_mailbox(
    report: &mut String,
    snapshot: &Snapshot<'_>,
    mailbox: Name,
) -> Result<(), AllocError>
    requires { kind_of snapshot.now.history mailbox.0 ≡ Some kind.Mailbox }
    ensures { OnOk result (string_bytes report.new ≡ string_bytes report.old ++ mailbox_counts snapshot.now.history mailbox.0) }
{
    let board = snapshot.board();
    let sent = board.sent_count(mailbox).unwrap();
    let got = board.got_count(mailbox).unwrap();
    let waits = board.owed_count(mailbox).unwrap();
    write!(report, ": sent {sent} got {got} waits {waits}")
}

fn write_channel(
    report: &mut String,
    snapshot: &Snapshot<'_>,
    channel: Name,
) -> Result<(), AllocError>
    requires { kind_of snapshot.now.history channel.0 ≡ Some kind.Channel }
    ensures { OnOk result (string_bytes report.new ≡ string_bytes report.old ++ channel_counts snapshot.now.history channel.0) }
{
    let board = snapshot.board();
    let sent = board.sent_count(channel).unwrap();
    let kept = board.kept_count(channel).unwrap();
    let first = board.first_of(channel).unwrap();
    write!(report, ": sent {sent} kept {kept} first {first}")
}

fn write_port(report: &mut String, snapshot: &Snapshot<'_>, port: Name) -> Result<(), AllocError>
    requires { kind_of snapshot.now.history port.0 ≡ Some kind.Port }
    ensures { OnOk result (string_bytes report.new ≡ string_bytes report.old ++ port_counts snapshot.now.history port.0) }
{
    let board = snapshot.board();
    let start = board.start_of(port).unwrap();
    let got = board.got_count(port).unwrap();
    write!(report, ": start {start} got {got}")?;
    match board.owed_count(port) {
        Some(owed) => write!(report, " owed {owed}"),
        None => report.push_str(" closed"),
    }
}

/// Adds what a variable holds.
fn write_held(
    report: &mut String,
    snapshot: &Snapshot<'_>,
    variable: Name,
) -> Result<(), AllocError>
    requires { (k : Kind) × (kind_of snapshot.now.history variable.0 ≡ Some k) × (is_variable k ≡ true) }
    ensures { OnOk result (string_bytes report.new
        ≡ string_bytes report.old ++ held_text snapshot.now.script.version (held snapshot.now.history variable.0)) }
{
    let mark = message_mark(snapshot.script().version());
    match snapshot.board().held(variable).unwrap() {
        Some(message) => write!(report, ": full {mark}{message}"),
        None => report.push_str(": empty"),
    }
}

/// Adds the last line.
fn write_end(report: &mut String, snapshot: &Snapshot<'_>, stop: Stop) -> Result<(), AllocError>
    ensures { OnOk result (string_bytes report.new
        ≡ string_bytes report.old ++ end_line snapshot.now.script snapshot.now.history snapshot.now.tally stop) }
{
    let performed = snapshot.performed();
    let left = snapshot.unperformed();
    match stop {
        Stop::Done => writeln!(report, "end: done {performed}"),
        Stop::Stalled => writeln!(report, "end: stalled {performed} left {left}"),
        Stop::Full => writeln!(report, "end: full {performed} left {left}"),
        Stop::Held => writeln!(report, "end: held {performed} left {left}"),
    }
}
