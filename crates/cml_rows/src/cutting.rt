//! Cuts of a journal, and what lines say of a journal that was cut.
use crate::facts::{tell_check, tell_entry};
use crate::feeding::Feeding;
use crate::numbered::Numbered;
use crate::outcome::{Numbers, refusal_word, tell_done};
use crate::told::Told;
use crate::words::number;
use cml_board::{Board, Entry, Refusal};
use std::alloc::Global;

/// How a journal is cut.
#[derive(Clone, Copy)]
pub enum Way {
    /// Its entries are dropped.
    Cut,
    /// They are returned.
    Take,
    /// They are dropped, also while lanes and feeds are open.
    CutOpen,
    /// They are returned, also while lanes and feeds are open.
    TakeOpen,
}

impl Way {
    /// Finds the way that a word of the command line names.
    pub fn of_word(word: &str) -> Option<Way> {
        match word {
            "cut" => Some(Way::Cut),
            "take" => Some(Way::Take),
            "cut_open" => Some(Way::CutOpen),
            "take_open" => Some(Way::TakeOpen),
            _ => None,
        }
    }
}

/// The line that is performed after a case's last line: if entries were taken, it asks whether they are lawful.
pub fn last_look(way: Option<Way>) -> Option<&'static str> {
    match way {
        Some(Way::Take | Way::TakeOpen) => Some("pieces"),
        Some(Way::Cut | Way::CutOpen) | None => None,
    }
}

/// A thing with a board whose journal can be cut.
pub trait Journaled<M: Numbered> {
    fn board(&self) -> &Numbers<M>;

    fn cut(&mut self) -> Result<(), Refusal>;

    fn take_journal(&mut self) -> Result<Vec<Entry<M>>, Refusal>;

    fn cut_open(&mut self);

    fn take_journal_open(&mut self) -> Vec<Entry<M>>;
}

impl<M: Numbered> Journaled<M> for Numbers<M> {
    fn board(&self) -> &Numbers<M> {
        self
    }

    fn cut(&mut self) -> Result<(), Refusal> {
        Board::cut(self);
        Ok(())
    }

    fn take_journal(&mut self) -> Result<Vec<Entry<M>>, Refusal> {
        Ok(Board::take_journal(self))
    }

    fn cut_open(&mut self) {
        Board::cut(self);
    }

    fn take_journal_open(&mut self) -> Vec<Entry<M>> {
        Board::take_journal(self)
    }
}

/// Entries that were taken at once, and the position of the first.
#[derive(Drop)]
struct Piece<M: Numbered> {
    from: u64,
    entries: Vec<Entry<M>>,
}

impl<M: Numbered> Piece<M> {
    fn entry(&self, at: u64) -> Option<&Entry<M>> {
        self.entries.get(at.checked_sub(self.from)? as usize)
    }
}

/// All entries that were taken from a journal, oldest first.
#[derive(Drop)]
pub struct Pieces<M: Numbered> {
    alloc: Global,
    pieces: Vec<Piece<M>>,
}

impl<M: Numbered> Pieces<M> {
    pub fn new(alloc: Global) -> Pieces<M> {
        Pieces {
            alloc,
            pieces: Vec::new(alloc),
        }
    }

    /// Drops all entries that were taken.
    pub fn clear(&mut self) {
        self.pieces.clear();
    }

    /// Cuts the journal this way, if in any. While a lane or a feed is open, only the open ways cut it.
    pub fn cut_by<J: Journaled<M>>(&mut self, told: &mut Told, ground: &mut J, way: Option<Way>) {
        match way {
            Some(Way::Cut) => {
                let _busy = ground.cut();
            }
            Some(Way::Take) => {
                let _count = self.take(told, ground);
            }
            Some(Way::CutOpen) => ground.cut_open(),
            Some(Way::TakeOpen) => {
                let _count = self.take_open(told, ground);
            }
            None => {}
        }
    }

    /// Performs a line about the journal, and writes its outcome.
    pub fn tell<J: Journaled<M>>(&mut self, told: &mut Told, ground: &mut J, words: &[&str]) {
        match *words.first().unwrap_or(&"") {
            "cut" => tell_done(told, ground.cut()),
            "take" => self.tell_take(told, ground),
            "cut_open" => {
                ground.cut_open();
                told.say("done");
            }
            "take_open" => {
                let count = self.take_open(told, ground);
                tell_taken(told, count);
            }
            "cut_at" => told.show(&ground.board().cut_at()),
            "journal" => told.show(&ground.board().journal().len()),
            "noted" => self.tell_noted(told, ground.board(), number(words, 1).unwrap_or(0)),
            "check" => self.tell_checked(told, ground.board()),
            "pieces" => self.tell_fed(told, ground.board()),
            "forget" => {
                self.clear();
                told.say("done");
            }
            _ => told.say("not understood"),
        }
    }

    fn tell_take<J: Journaled<M>>(&mut self, told: &mut Told, ground: &mut J) {
        match self.take(told, ground) {
            Ok(count) => tell_taken(told, count),
            Err(refusal) => told.say(refusal_word(refusal)),
        }
    }

    /// Cuts the journal, and keeps the entries that it returns. Returns how many they are.
    fn take<J: Journaled<M>>(&mut self, told: &mut Told, ground: &mut J) -> Result<usize, Refusal> {
        let from = ground.board().cut_at();
        let entries = ground.take_journal()?;
        Ok(self.keep(told, Piece { from, entries }))
    }

    /// Cuts the journal while lanes and feeds are open, and keeps the entries that it returns. Returns how many they are.
    fn take_open<J: Journaled<M>>(&mut self, told: &mut Told, ground: &mut J) -> usize {
        let from = ground.board().cut_at();
        let entries = ground.take_journal_open();
        self.keep(told, Piece { from, entries })
    }

    /// Keeps a piece, and returns how many entries it has.
    fn keep(&mut self, told: &mut Told, piece: Piece<M>) -> usize {
        let count = piece.entries.len();
        told.needs(self.pieces.push(piece).is_ok());
        count
    }

    /// Writes the entry at a position, which counts from the board's first entry on, also one that was taken.
    fn tell_noted(&self, told: &mut Told, board: &Numbers<M>, at: u64) {
        match at.checked_sub(board.cut_at()) {
            Some(index) => tell_entry(told, board.journal().get(index as usize), "no entry"),
            None => tell_entry(told, self.entry(at), "cut away"),
        }
    }

    /// The entry at a position, if it was taken.
    fn entry(&self, at: u64) -> Option<&Entry<M>> {
        for piece in self.pieces.iter() {
            if let Some(entry) = piece.entry(at) {
                return Some(entry);
            }
        }
        None
    }

    /// Writes whether all entries since the board was made are lawful, unless some were dropped.
    fn tell_checked(&self, told: &mut Told, board: &Numbers<M>) {
        if board.cut_at() == 0 {
            tell_check(told, self.alloc, board.journal());
        } else if self.count() == board.cut_at() {
            self.tell_fed(told, board);
        } else {
            told.say("dropped");
        }
    }

    /// How many entries were taken.
    fn count(&self) -> u64 {
        let mut count: u64 = 0;
        for piece in self.pieces.iter() {
            count = count.saturating_add(piece.entries.len() as u64);
        }
        count
    }

    /// Feeds all that was taken, and then the journal, to a checker, and writes what it found.
    fn tell_fed(&self, told: &mut Told, board: &Numbers<M>) {
        let Ok(mut feeding) = Feeding::new(self.alloc) else {
            return told.lack();
        };
        for piece in self.pieces.iter() {
            feeding.feed(told, piece.entries.as_slice());
        }
        feeding.feed(told, board.journal());
        feeding.tell(told);
    }
}

fn tell_taken(told: &mut Told, count: usize) {
    told.say("took ");
    told.show(&count);
}
