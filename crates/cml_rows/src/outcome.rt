//! The outcome of a call, in words.
use crate::facts::tell_board;
use crate::numbered::Numbered;
use crate::told::Told;
use cml_board::{Answer, Board, BoardLog, Call, Message, Outcome, Refusal, Reply, Who};
use std::alloc::Global;

/// A board whose messages are numbers, in chunks of four.
pub type Numbers<M> = Board<M, BoardLog<M>>;

/// The words of a line if memory ran out.
pub const NO_MEMORY: &str = "no memory";

/// The words after the outcome of a call that was made once more.
pub const REFUSED_ONCE: &str = ", once memory was refused";

/// What a board says of a call before it is made.
#[derive(Clone, Copy)]
struct Foretold {
    waits: bool,
    is_full: bool,
}

/// The outcome of a call.
#[derive(Clone, Copy)]
enum Came {
    Answered,
    Waits,
    Refused(Refusal),
}

/// Makes a call, of which `asked` is a copy, and once more if memory ran out, and writes its outcome. It also writes what is
/// wrong: another call was returned, something has changed, an answer is not confirmed, or `would_wait` or `is_full` did not
/// foretell the outcome.
pub fn tell<M: Numbered>(
    told: &mut Told,
    alloc: Global,
    board: &mut Numbers<M>,
    who: Who,
    call: Call<M>,
    asked: &Call<M>,
) {
    let foretold = foretell(board, &call);
    let before = reading(alloc, board);
    if let Some(back) = tell_first(told, board, who, call, asked, foretold) {
        let after = reading(alloc, board);
        tell_again(told, board, who, back, asked, foretold);
        told.compare(&before, &after, "not as before");
    }
}

fn foretell<M: Numbered>(board: &Numbers<M>, call: &Call<M>) -> Foretold {
    Foretold {
        waits: board.would_wait(call),
        is_full: board.is_full(),
    }
}

/// Makes a call, and returns it if memory ran out. Otherwise writes its outcome.
fn tell_first<M: Numbered>(
    told: &mut Told,
    board: &mut Numbers<M>,
    who: Who,
    call: Call<M>,
    asked: &Call<M>,
    foretold: Foretold,
) -> Option<Call<M>> {
    match board.apply(who, call) {
        Outcome::Refused(Refusal::NoMemory, back) => Some(back),
        outcome => {
            tell_once(told, outcome, board, asked, foretold);
            None
        }
    }
}

/// Makes a call that ran out of memory once more, and writes its outcome.
fn tell_again<M: Numbered>(
    told: &mut Told,
    board: &mut Numbers<M>,
    who: Who,
    back: Call<M>,
    asked: &Call<M>,
    foretold: Foretold,
) {
    let is_back = back.same(asked);
    let outcome = board.apply(who, back);
    tell_once(told, outcome, board, asked, foretold);
    told.say(REFUSED_ONCE);
    told.note(is_back, "another call back");
}

/// All that a board's readers return.
fn reading<M: Numbered>(alloc: Global, board: &Numbers<M>) -> Told {
    let mut told = Told::new(alloc);
    tell_board(&mut told, board);
    told
}

fn tell_once<M: Numbered>(
    told: &mut Told,
    outcome: Outcome<M>,
    board: &Numbers<M>,
    asked: &Call<M>,
    foretold: Foretold,
) {
    let came = match outcome {
        Outcome::Answered(answer) => {
            tell_answer(told, board, &answer, asked);
            Came::Answered
        }
        Outcome::WouldWait(back) => {
            tell_back(told, "waits", &back, asked);
            Came::Waits
        }
        Outcome::Refused(refusal, back) => {
            tell_back(told, refusal_word(refusal), &back, asked);
            Came::Refused(refusal)
        }
    };
    note_foretold(told, foretold, came);
}

/// Writes it if a call's outcome is not the one foretold.
fn note_foretold(told: &mut Told, foretold: Foretold, came: Came) {
    match came {
        Came::Answered => {
            told.note(!foretold.waits, "was to wait");
            told.note(!foretold.is_full, "was full");
        }
        Came::Waits => {
            told.note(foretold.waits, "was not to wait");
            told.note(!foretold.is_full, "was full");
        }
        Came::Refused(Refusal::JournalFull) => told.note(foretold.is_full, "was not full"),
        Came::Refused(_) => told.note(!foretold.waits, "was to wait"),
    }
}

/// Writes the reply of an answer to this call.
pub fn tell_answer<M: Numbered>(
    told: &mut Told,
    board: &Numbers<M>,
    answer: &Answer<M>,
    asked: &Call<M>,
) {
    tell_reply(told, answer.reply());
    told.note(is_noted(board, answer, asked), "not confirmed");
}

/// Writes why there is no answer, and whether another call was returned than the one that was made.
pub fn tell_back<M: Numbered>(told: &mut Told, word: &str, back: &Call<M>, asked: &Call<M>) {
    told.say(word);
    told.note(back.same(asked), "another call back");
}

/// Whether the answer is of this call, is confirmed, and has the journal's last entry.
fn is_noted<M: Numbered>(board: &Numbers<M>, answer: &Answer<M>, asked: &Call<M>) -> bool {
    answer.call().same(asked) && board.confirm(answer) && is_last(answer.at(), board.entries())
}

fn is_last(at: u64, entries: u64) -> bool {
    at < entries && entries - at == 1
}

fn tell_reply<M: Numbered>(told: &mut Told, reply: &Reply<M>) {
    match reply {
        Reply::Done => told.say("done"),
        Reply::Made(name) => {
            told.say("made ");
            told.show(&name.0);
        }
        Reply::Got(message) => told.show(message),
        Reply::Nothing => told.say("none"),
        Reply::Put => told.say("put"),
        Reply::Closed => told.say("closed"),
    }
}

/// Writes that something was done, or why it failed.
pub fn tell_done(told: &mut Told, done: Result<(), Refusal>) {
    match done {
        Ok(()) => told.say("done"),
        Err(refusal) => told.say(refusal_word(refusal)),
    }
}

pub fn refusal_word(refusal: Refusal) -> &'static str {
    match refusal {
        Refusal::NoSuch => "no such object",
        Refusal::WrongKind => "wrong kind",
        Refusal::JournalFull => "journal full",
        Refusal::NoMemory => NO_MEMORY,
        Refusal::Gone => "gone",
        Refusal::Busy => "busy",
        Refusal::Stalled => "stalled",
        Refusal::Unseen => "unseen",
    }
}
