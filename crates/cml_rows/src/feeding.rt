//! A journal that is checked piece by piece.
use crate::numbered::Numbered;
use crate::outcome::REFUSED_ONCE;
use crate::told::Told;
use cml_board::{Checker, Entry};
use std::alloc::{AllocError, Global};

/// What a checker says of all that it was fed.
#[derive(Clone, Copy)]
enum Verdict {
    Lawful,
    UnlawfulAt(u64),
    /// It was given more than it can count.
    TooMany,
}

/// A checker at work.
#[derive(Drop)]
pub struct Feeding<M: Numbered> {
    checker: Checker<M>,
    verdict: Verdict,
    // How many entries it was given.
    given: u64,
    was_refused: bool,
}

impl<M: Numbered> Feeding<M> {
    pub fn new(alloc: Global) -> Result<Feeding<M>, AllocError> {
        Ok(Feeding {
            checker: Checker::new(alloc)?,
            verdict: Verdict::Lawful,
            given: 0,
            was_refused: false,
        })
    }

    /// Feeds the next piece. If memory runs out, it goes on, once, with the entries that were not taken yet.
    pub fn feed(&mut self, told: &mut Told, piece: &[Entry<M>]) {
        let before = self.checker.entries();
        self.given = self.given.saturating_add(piece.len() as u64);
        if let Ok(verdict) = feed_some(&mut self.checker, piece) {
            self.verdict = verdict;
            return;
        }
        self.was_refused = true;
        let taken = self.checker.entries().saturating_sub(before);
        match feed_some(
            &mut self.checker,
            piece.get(taken as usize..).unwrap_or(&[]),
        ) {
            Ok(verdict) => self.verdict = verdict,
            Err(_) => told.lack(),
        }
    }

    /// Writes whether all was lawful, or where it first was not, and whether the checker's count differs.
    pub fn tell(&self, told: &mut Told) {
        let lawful_count = match self.verdict {
            Verdict::Lawful => {
                told.say("lawful");
                self.given
            }
            Verdict::UnlawfulAt(at) => {
                told.say("unlawful at ");
                told.show(&at);
                at
            }
            Verdict::TooMany => return told.say("too many entries"),
        };
        if self.was_refused {
            told.say(REFUSED_ONCE);
        }
        told.note(self.checker.entries() == lawful_count, "counted otherwise");
    }
}

fn feed_some<M: Numbered>(
    checker: &mut Checker<M>,
    piece: &[Entry<M>],
) -> Result<Verdict, AllocError> {
    if u64::MAX - checker.entries() < piece.len() as u64 {
        return Ok(Verdict::TooMany);
    }
    Ok(match checker.feed(piece)? {
        Ok(()) => Verdict::Lawful,
        Err(at) => Verdict::UnlawfulAt(at),
    })
}
