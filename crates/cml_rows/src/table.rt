//! A table of calls under way: a board, and a journal that the table makes up.
use crate::cutting::{Pieces, Way};
use crate::facts::{tell_call, tell_check, tell_object};
use crate::numbered::{Maker, Numbered};
use crate::outcome::{NO_MEMORY, Numbers, REFUSED_ONCE, tell};
use crate::performing::{Performs, retell};
use crate::told::Told;
use crate::words::{call_and_copy, call_of, number, object, reply_of};
use cml_board::{Answer, Call, Entry, Outcome, Refusal, Who};
use std::alloc::AllocError;

/// How many entries a board takes if its table does not say.
const LIMIT: u64 = 100;

/// Performs the lines of a case on a board.
pub fn perform<M: Numbered>(told: &mut Told, maker: &Maker<M>, lines: &[String], way: Option<Way>) {
    match Table::new(maker) {
        Ok(mut table) => retell(told, maker.alloc, &mut table, lines, way),
        Err(_) => told.lack(),
    }
}

#[derive(Drop)]
struct Table<'a, M: Numbered> {
    maker: &'a Maker<M>,
    board: Numbers<M>,
    // What the board's journal handed over.
    pieces: Pieces<M>,
    who: Who,
    // The entries that the table made up.
    entries: Vec<Entry<M>>,
    // An answer that is held against another board.
    kept: Option<Answer<M>>,
}

impl<'a, M: Numbered> Table<'a, M> {
    /// Begins with a board of the usual limit.
    fn new(maker: &'a Maker<M>) -> Result<Table<'a, M>, AllocError> {
        let alloc = maker.alloc;
        Ok(Table {
            maker,
            board: Numbers::<M>::new(alloc, LIMIT)?,
            pieces: Pieces::new(alloc),
            who: Who::Seat(0),
            entries: Vec::new(alloc),
            kept: None,
        })
    }

    /// Begins another board. The answer that is kept is of one before.
    fn begin(&mut self, told: &mut Told, limit: u64) {
        let limit = limit.max(1).min(4_294_967_296);
        let Ok(board) = Numbers::<M>::new(self.maker.alloc, limit) else {
            return told.lack();
        };
        self.board = board;
        self.pieces.clear();
        self.who = Who::Seat(0);
        self.entries.clear();
        told.say("limit ");
        told.show(&self.board.limit());
    }

    /// Makes the call that the words ask for, or looks at the board.
    fn call(&mut self, told: &mut Told, words: &[&str]) {
        match call_and_copy(told, self.maker, words) {
            Some((call, asked)) => {
                tell(
                    told,
                    self.maker.alloc,
                    &mut self.board,
                    self.who,
                    call,
                    &asked,
                )
            }
            None => self.look(told, words),
        }
    }

    /// Adds an entry with the call of these words, and the reply that the table has, to the journal that it makes up.
    fn make_up(&mut self, told: &mut Told, words: &[&str], expected: &str) {
        let Some(entry) = self.entry(told, words, expected) else {
            return told.say("no entry");
        };
        told.needs(self.entries.push(entry).is_ok());
        told.say(expected);
    }

    fn entry(&self, told: &mut Told, words: &[&str], expected: &str) -> Option<Entry<M>> {
        let call = call_of(told, self.maker, words)?;
        Some(Entry {
            who: self.who,
            call,
            reply: reply_of(told, self.maker, expected)?,
        })
    }

    /// Tells what takes the call of these words.
    fn tell_takers(&self, told: &mut Told, words: &[&str]) {
        match call_of(told, self.maker, words) {
            Some(call) => tell_call(told, &call),
            None => told.say("not understood"),
        }
    }

    /// Makes a call, and again if memory ran out, and keeps its answer.
    fn keep(&mut self, told: &mut Told, words: &[&str]) {
        let Some(call) = call_of(told, self.maker, words) else {
            return told.say("not understood");
        };
        if let Some(back) = self.kept(told, call) {
            let _refused = self.kept(told, back);
            told.say(REFUSED_ONCE);
        }
    }

    /// Keeps the answer to a call, and hands a call back that memory was refused.
    fn kept(&mut self, told: &mut Told, call: Call<M>) -> Option<Call<M>> {
        match self.board.apply(self.who, call) {
            Outcome::Answered(answer) => {
                self.kept = Some(answer);
                told.say("kept");
                None
            }
            Outcome::Refused(Refusal::NoMemory, back) => Some(back),
            _ => {
                told.say("not answered");
                None
            }
        }
    }

    /// Tells whether the board confirms the answer that is kept.
    fn confirm(&self, told: &mut Told) {
        told.say(match &self.kept {
            Some(answer) if self.board.confirm(answer) => "yes",
            Some(_) => "no",
            None => "nothing is kept",
        });
    }

    /// Reserves memory for entries, and tries once more if that fails.
    fn reserve(&mut self, told: &mut Told, entries: usize) {
        if self.board.reserve(entries).is_ok() {
            return told.say("done");
        }
        let is_done = self.board.reserve(entries).is_ok();
        told.say(if is_done { "done" } else { NO_MEMORY });
        told.say(REFUSED_ONCE);
    }

    /// Looks at the board, or begins another.
    fn look(&mut self, told: &mut Told, words: &[&str]) {
        let rest = words.get(1..).unwrap_or(&[]);
        match *words.first().unwrap_or(&"") {
            "board" => self.begin(told, number(rest, 0).unwrap_or(LIMIT)),
            "seat" => {
                self.who = Who::Seat(number(rest, 0).unwrap_or(0));
                told.say("calls");
            }
            "reserve" => self.reserve(told, number(rest, 0).unwrap_or(0) as usize),
            "tell" => match object(rest) {
                Some(name) => tell_object(told, &self.board, name),
                None => told.say("no object is named"),
            },
            "confirm" => self.confirm(told),
            "entries" => tell_check(told, self.maker.alloc, self.entries.as_slice()),
            _ => self.pieces.tell(told, &mut self.board, words),
        }
    }
}

impl<M: Numbered> Performs for Table<'_, M> {
    fn obey(&mut self, told: &mut Told, words: &[&str], expected: &str) {
        let rest = words.get(1..).unwrap_or(&[]);
        match *words.first().unwrap_or(&"") {
            "takes" => self.tell_takers(told, rest),
            "keep" => self.keep(told, rest),
            "entry" => self.make_up(told, rest, expected),
            _ => self.call(told, words),
        }
    }

    fn cut_by(&mut self, told: &mut Told, way: Option<Way>) {
        self.pieces.cut_by(told, &mut self.board, way);
    }
}
