//! A table of calls at work on a floor or a hall.
use crate::cutting::{Pieces, Way};
use crate::facts::{tell_board, tell_object};
use crate::ground::Ground;
use crate::numbered::{Maker, Numbered};
use crate::outcome::{
    NO_MEMORY, Numbers, REFUSED_ONCE, refusal_word, tell_answer, tell_back, tell_done,
};
use crate::performing::{Performs, is_over, retell};
use crate::rings::Rings;
use crate::told::Told;
use crate::words::{call_and_copy, is_note, number, object};
use cml_board::{Call, Outcome, Refusal};

/// Writes each line of a case again, with its outcome on this ground. After each line the journal is cut.
pub fn perform_on<M: Numbered, G: Ground<M> + Drop>(
    told: &mut Told,
    maker: &Maker<M>,
    ground: G,
    lines: &[String],
    way: Option<Way>,
) {
    let mut table = GroundTable::new(maker, ground);
    retell(told, maker.alloc, &mut table, lines, way);
    let _left = table.into_left();
    retell_over(told, maker, lines);
}

/// Writes the line that says the case is over. It has how many messages live when the ground is dropped, and threads still
/// have their sides of its lanes and feeds.
fn retell_over<M: Numbered>(told: &mut Told, maker: &Maker<M>, lines: &[String]) {
    let mut was_over = false;
    for line in lines.iter() {
        let line = line.as_str();
        was_over = was_over || is_over(line);
        if was_over {
            tell_over(told, maker, line);
        }
    }
}

fn tell_over<M: Numbered>(told: &mut Told, maker: &Maker<M>, line: &str) {
    if is_note(line) {
        told.say(line);
    } else {
        told.say("over: live ");
        told.show(&maker.live());
    }
    told.say("\n");
}

/// Whether a line's call may have moved messages before it failed.
fn moves(words: &[&str]) -> bool {
    words.first() == Some(&"close")
}

#[derive(Drop)]
struct GroundTable<'a, M: Numbered, G: Ground<M>> {
    maker: &'a Maker<M>,
    ground: G,
    rings: Rings<'a, M>,
    // What the board's journal handed over.
    pieces: Pieces<M>,
}

/// How often a line's call is made.
#[derive(Clone, Copy, PartialEq)]
enum Turn {
    First,
    /// Memory ran out, so a seat that asked again is free now.
    Second,
}

impl<'a, M: Numbered, G: Ground<M> + Drop> GroundTable<'a, M, G> {
    fn new(maker: &'a Maker<M>, ground: G) -> GroundTable<'a, M, G> {
        GroundTable {
            maker,
            ground,
            rings: Rings::new(maker),
            pieces: Pieces::new(maker.alloc),
        }
    }

    /// Drops the ground, and returns the threads' sides of its lanes and feeds, and what was taken from its journal.
    fn into_left(self) -> (Rings<'a, M>, Pieces<M>) {
        (self.rings, self.pieces)
    }

    /// All that the readers return.
    fn reading(&self) -> Told {
        let mut told = Told::new(self.maker.alloc);
        self.tell_open(&mut told);
        tell_board(&mut told, self.ground.board());
        told
    }

    /// Writes how many lanes and feeds are open.
    fn tell_open(&self, told: &mut Told) {
        let (lanes, feeds) = self.ground.open_rings();
        told.say("lanes ");
        told.show(&lanes);
        told.say(" feeds ");
        told.show(&feeds);
    }

    /// Performs a line's words, and returns their outcome.
    fn told(&mut self, words: &[&str], turn: Turn) -> Told {
        let mut told = Told::new(self.maker.alloc);
        match number(words, 0) {
            Some(seat) => self.call(&mut told, seat as usize, words, turn),
            None => self.look(&mut told, words),
        }
        told
    }

    /// Performs a seat's line, by its number and the words after that.
    fn call(&mut self, told: &mut Told, seat: usize, words: &[&str], turn: Turn) {
        match *words.get(1).unwrap_or(&"") {
            "leave" => tell_done(told, self.ground.leave(seat)),
            "again" => self.ask(
                told,
                seat,
                words.get(2..).unwrap_or(&[]),
                turn == Turn::First,
            ),
            _ => self.ask(told, seat, words.get(1..).unwrap_or(&[]), false),
        }
    }

    /// Makes a seat's call.
    fn ask(&mut self, told: &mut Told, seat: usize, words: &[&str], is_again: bool) {
        let Some((call, asked)) = call_and_copy(told, self.maker, words) else {
            return told.say("not understood");
        };
        let came = if is_again {
            self.ground.ask_again(seat, call)
        } else {
            self.ground.ask(seat, call)
        };
        tell_outcome(told, self.ground.board(), came, &asked);
    }

    /// Performs a line that is no seat's: a look, or a call on a lane or a feed.
    fn look(&mut self, told: &mut Told, words: &[&str]) {
        let rest = words.get(1..).unwrap_or(&[]);
        match *words.first().unwrap_or(&"") {
            "floor" | "hall" => {
                told.say("limit ");
                told.show(&self.ground.board().limit());
            }
            "seat" => tell_seat(told, self.ground.new_seat()),
            "reserve" => tell_done(
                told,
                self.ground.reserve(number(rest, 0).unwrap_or(0) as usize),
            ),
            "tell" => match object(rest) {
                Some(name) => tell_object(told, self.ground.board(), name),
                None => told.say("no object is named"),
            },
            "live" => told.show(&self.maker.live()),
            "open" => self.tell_open(told),
            _ => {
                if !self.rings.obey(told, &mut self.ground, words) {
                    self.pieces.tell(told, &mut self.ground, words);
                }
            }
        }
    }
}

fn tell_seat(told: &mut Told, seat: Result<u64, Refusal>) {
    match seat {
        Ok(number) => told.show(&number),
        Err(refusal) => told.say(refusal_word(refusal)),
    }
}

/// Writes the outcome of a seat's call.
fn tell_outcome<M: Numbered>(
    told: &mut Told,
    board: &Numbers<M>,
    came: Outcome<M>,
    asked: &Call<M>,
) {
    match came {
        Outcome::Answered(answer) => tell_answer(told, board, &answer, asked),
        Outcome::WouldWait(back) => tell_back(told, "waits", &back, asked),
        Outcome::Refused(refusal, back) => tell_back(told, refusal_word(refusal), &back, asked),
    }
}

impl<M: Numbered, G: Ground<M> + Drop> Performs for GroundTable<'_, M, G> {
    /// Performs the words. If memory runs out, performs them once more, and then writes whether all was as before.
    fn obey(&mut self, told: &mut Told, words: &[&str], _expected: &str) {
        let before = self.reading();
        let first = self.told(words, Turn::First);
        if !first.is(NO_MEMORY) {
            return told.add(&first);
        }
        let after = self.reading();
        told.add(&self.told(words, Turn::Second));
        told.say(REFUSED_ONCE);
        if !moves(words) {
            told.compare(&before, &after, "not as before");
        }
    }

    fn cut_by(&mut self, told: &mut Told, way: Option<Way>) {
        self.pieces.cut_by(told, &mut self.ground, way);
    }
}
