//! What a board's readers return for an object, and which objects take a call, in words.
use crate::numbered::Numbered;
use crate::outcome::{Numbers, REFUSED_ONCE};
use crate::told::Told;
use cml_board::{Call, Entry, Kind, Name, check};
use std::alloc::Global;

const KINDS: &[Kind] = &[
    Kind::Mailbox,
    Kind::Channel,
    Kind::Port,
    Kind::IVar,
    Kind::MVar,
];

/// A board's reader that has a number of some objects.
#[derive(Clone, Copy)]
enum Reader {
    Of,
    Start,
    Sent,
    Got,
    Owed,
    First,
    Kept,
}

/// The facts that are written of a port before whether it is open; `COUNTS` are those written after that.
const PLACES: &[(&str, Reader)] = &[(" of ", Reader::Of), (" start ", Reader::Start)];

const COUNTS: &[(&str, Reader)] = &[
    (" sent ", Reader::Sent),
    (" got ", Reader::Got),
    (" owed ", Reader::Owed),
    (" first ", Reader::First),
    (" kept ", Reader::Kept),
];

/// Writes all that the readers return for an object, without those that return nothing.
pub fn tell_object<M: Numbered>(told: &mut Told, board: &Numbers<M>, name: Name) {
    tell_kind(told, board.kind(name));
    tell_counts(told, board, name, PLACES);
    match board.is_open(name) {
        Some(true) => told.say(" open"),
        Some(false) => told.say(" closed"),
        None => {}
    }
    tell_counts(told, board, name, COUNTS);
    tell_held(told, board, name);
}

fn tell_kind(told: &mut Told, kind: Option<Kind>) {
    match kind {
        Some(kind) => told.say(kind_word(kind)),
        None => told.say("no object"),
    }
}

/// Writes what a variable holds.
fn tell_held<M: Numbered>(told: &mut Told, board: &Numbers<M>, name: Name) {
    match board.held(name) {
        Some(Some(message)) => {
            told.say(" full ");
            told.show(message);
        }
        Some(None) => told.say(" empty"),
        None => {}
    }
}

/// Writes how many entries a board's journal has, how many were cut away, and what the readers return for each object.
pub fn tell_board<M: Numbered>(told: &mut Told, board: &Numbers<M>) {
    told.show(&board.journal().len());
    told.say(" entries, cut at ");
    told.show(&board.cut_at());
    for number in 0..board.entries() {
        if board.kind(Name(number)).is_none() {
            break;
        }
        told.say(", ");
        tell_object(told, board, Name(number));
    }
}

/// Writes an entry of a journal, or this word if there is none.
pub fn tell_entry<M: Numbered>(told: &mut Told, entry: Option<&Entry<M>>, none: &str) {
    let Some(entry) = entry else {
        return told.say(none);
    };
    told.show(&entry.who);
    told.say(" ");
    told.show(&entry.call);
    told.say(" ");
    told.show(&entry.reply);
}

/// Writes whether a short journal is lawful, or where it first is not. A check that ran out of memory is made once more.
pub fn tell_check<M: Numbered>(told: &mut Told, alloc: Global, entries: &[Entry<M>]) {
    if entries.len() > 1000 {
        return told.say("too many entries");
    }
    if let Ok(verdict) = check(alloc, entries) {
        return tell_verdict(told, verdict);
    }
    match check(alloc, entries) {
        Ok(verdict) => tell_verdict(told, verdict),
        Err(_) => told.lack(),
    }
    told.say(REFUSED_ONCE);
}

fn tell_verdict(told: &mut Told, verdict: Result<(), usize>) {
    match verdict {
        Ok(()) => told.say("lawful"),
        Err(at) => {
            told.say("unlawful at ");
            told.show(&at);
        }
    }
}

/// Writes the numbers that these readers return for an object.
fn tell_counts<M: Numbered>(
    told: &mut Told,
    board: &Numbers<M>,
    name: Name,
    readers: &[(&str, Reader)],
) {
    for (word, reader) in readers.iter() {
        if let Some(count) = reader.count(board, name) {
            told.say(word);
            told.show(&count);
        }
    }
}

impl Reader {
    fn count<M: Numbered>(self, board: &Numbers<M>, name: Name) -> Option<u64> {
        match self {
            Reader::Of => Some(board.channel_of(name)?.0),
            Reader::Start => board.start_of(name),
            Reader::Sent => board.sent_count(name),
            Reader::Got => board.got_count(name),
            Reader::Owed => board.owed_count(name),
            Reader::First => board.first_of(name),
            Reader::Kept => board.kept_count(name),
        }
    }
}

/// Writes which object a call is made on, and each kind that takes it.
pub fn tell_call<M: Numbered>(told: &mut Told, call: &Call<M>) {
    match call.object() {
        Some(name) => {
            told.say("object ");
            told.show(&name.0);
        }
        None => told.say("no object"),
    }
    let takers = call.shape().takers;
    for kind in KINDS.iter() {
        if takers.has(*kind) {
            told.say(" ");
            told.say(kind_word(*kind));
        }
    }
}

fn kind_word(kind: Kind) -> &'static str {
    match kind {
        Kind::Mailbox => "mailbox",
        Kind::Channel => "channel",
        Kind::Port => "port",
        Kind::IVar => "ivar",
        Kind::MVar => "mvar",
    }
}
