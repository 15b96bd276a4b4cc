//! How an entry's line is written.
ghost use Rattle.std.specs.Prelude.{◌≡◌, ◌++◌, OnOk, string_bytes};
ghost use Rattle.cml_journal.specs.{who_text, call_text, reply_text, line_of};

use crate::spelling::{OwnWords, Spelling};
use crate::written::Written;
use cml_board::{Call, Entry, Reply, Who};
use std::alloc::AllocError;

/// Adds an entry's line, without a line end. If it fails, it may have added a part of the line.
pub fn write_entry<M: Written>(text: &mut String, entry: &Entry<M>) -> Result<(), AllocError>
    ensures { OnOk result (string_bytes text.new ≡ string_bytes text.old ++ line_of M.text entry.now) }
{
    write_entry_in(text, &OwnWords, entry)
}

/// Adds an entry's line, with its messages spelled so.
pub(crate) fn write_entry_in<M, S: Spelling<M>>(
    text: &mut String,
    spelling: &S,
    entry: &Entry<M>,
) -> Result<(), AllocError>
    ensures { OnOk result (string_bytes text.new ≡ string_bytes text.old ++ line_of (S.word spelling.now) entry.now) }
{
    write_who(text, entry.who)?;
    text.push_str(" ")?;
    write_call(text, spelling, &entry.call)?;
    text.push_str(": ")?;
    write_reply_in(text, spelling, &entry.reply)
}

fn write_who(text: &mut String, who: Who) -> Result<(), AllocError>
    ensures { OnOk result (string_bytes text.new ≡ string_bytes text.old ++ who_text who) }
{
    match who {
        Who::Seat(number) => write!(text, "seat {number}"),
        Who::Lane(number) => write!(text, "lane {number}"),
        Who::Feed(number) => write!(text, "feed {number}"),
    }
}

/// Adds a call's word, its object's number and its message.
fn write_call<M, S: Spelling<M>>(
    text: &mut String,
    spelling: &S,
    call: &Call<M>,
) -> Result<(), AllocError>
    ensures { OnOk result (string_bytes text.new ≡ string_bytes text.old ++ call_text (S.word spelling.now) call.now) }
{
    text.push_str(call.shape().word)?;
    if let Some(name) = call.object() {
        let number = name.0;
        write!(text, " {number}")?;
    }
    if let Some(message) = call.message() {
        text.push_str(" ")?;
        spelling.spell(message, text)?;
    }
    Ok(())
}

/// Adds a reply in the words of an entry's line. If it fails, it may have added a part of it.
pub fn write_reply<M: Written>(text: &mut String, reply: &Reply<M>) -> Result<(), AllocError>
    ensures { OnOk result (string_bytes text.new ≡ string_bytes text.old ++ reply_text M.text reply.now) }
{
    write_reply_in(text, &OwnWords, reply)
}

fn write_reply_in<M, S: Spelling<M>>(
    text: &mut String,
    spelling: &S,
    reply: &Reply<M>,
) -> Result<(), AllocError>
    ensures { OnOk result (string_bytes text.new ≡ string_bytes text.old ++ reply_text (S.word spelling.now) reply.now) }
{
    match reply {
        Reply::Done => text.push_str("done"),
        Reply::Made(name) => {
            let number = name.0;
            write!(text, "made {number}")
        }
        Reply::Got(message) => spelling.spell(message, text),
        Reply::Nothing => text.push_str("none"),
        Reply::Put => text.push_str("put"),
        Reply::Closed => text.push_str("closed"),
    }
}
