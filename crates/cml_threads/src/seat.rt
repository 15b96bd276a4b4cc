ghost use Rattle.std.specs.Prelude.{◌≡◌, ◌+◌, ◌<◌, ◌≤◌, ◌^◌};
ghost use Rattle.cml_threads.specs.{Sitting, raised};

use std::marker::Model;
use std::sync::ledger::{Book, Ledger, Share};

/// The right to make calls on one switchboard or hall. A seat belongs to one thread: move it into that thread, and get it
/// back as a `Left`. If you drop a seat instead, its part of the ledger is lost, and `settle` then always fails.
#[derive(Drop)]
pub struct Seat<Led: Ledger> {
    number: u64,
    answers: u64,
    share: Share<Led>,
}

/// A seat that makes no more calls, or all seats that made the entries of a journal. `settle` counts them. One of another switchboard
/// has another ledger, and so another type.
#[derive(Drop)]
pub struct Left<Led: Ledger> {
    number: u64,
    seats: u64,
    answers: u64,
    share: Share<Led>,
}

impl<Led: Ledger> Model for Seat<Led> {
    ghost use Rattle.std.specs.Prelude.{◌≡◌};
    ghost use Rattle.cml_threads.specs.Seating.{Sitting};

    ghost Value = { Sitting };

    ghost view = { λ s. record { number = s.number; seats = 1; share = s.share.amount } };

    ghost invariant = { λ s. (s.share.parts ≡ 1) × (s.answers ≡ s.share.amount) };
}

impl<Led: Ledger> Model for Left<Led> {
    ghost use Rattle.std.specs.Prelude.{◌≡◌};
    ghost use Rattle.cml_threads.specs.Seating.{Sitting};

    ghost Value = { Sitting };

    ghost view = { λ s. record { number = s.number; seats = s.seats; share = s.share.amount } };

    ghost invariant = { λ s. (s.share.parts ≡ s.seats) × (s.answers ≡ s.share.amount) };
}

impl<Led: Ledger> Seat<Led> {
    pub(crate) fn new(number: u64, share: Share<Led>) -> Seat<Led>
        requires parts { share.parts ≡ 1 }
        requires amount { share.amount ≡ 0 }
        ensures { result ≡ record { number = number; seats = 1; share = 0 } }
    {
        Seat {
            number,
            answers: 0,
            share,
        }
    }

    /// Returns the seat's number, which is how many seats were made before it.
    pub fn number(&self) -> u64
        ensures { result ≡ self.now.number }
    {
        self.number
    }

    /// Ends the seat. Leave first: a seat that has not left counts as one that may still go on, and keeps the others' calls
    /// from failing with `Stalled`.
    pub fn into_left(self) -> Left<Led>
        ensures { result ≡ self }
    {
        let Seat {
            number,
            answers,
            share,
        } = self;
        Left {
            number,
            seats: 1,
            answers,
            share,
        }
    }

    /// Counts one answer for the seat, and in the book.
    pub(crate) fn count(&mut self, book: &mut Book<Led>)
        requires { book.old.total + 1 < 2 ^ 64 }
        ensures seat { self.new ≡ raised self.old }
        ensures book { book.new.total ≡ book.old.total + 1 }
    {
        book.audit(&mut self.share);
        book.add(&mut self.share, 1);
        self.answers += 1;
    }
}

impl<Led: Ledger> Left<Led> {
    /// That of this many seats, which had these answers together.
    pub(crate) fn of_many(seats: u64, answers: u64, share: Share<Led>) -> Left<Led>
        requires parts { share.parts ≡ seats }
        requires amount { share.amount ≡ answers }
        ensures { result ≡ record { number = 0; seats = seats; share = answers } }
    {
        Left {
            number: 0,
            seats,
            answers,
            share,
        }
    }

    /// Returns the number of its seat; 0 if it stands for the seats of a journal.
    pub fn seat(&self) -> u64
        ensures { result ≡ self.now.number }
    {
        self.number
    }

    /// Returns how many seats it stands for. `settle` needs as many as were made.
    pub fn seats(&self) -> u64
        ensures { result ≡ self.now.seats }
    {
        self.seats
    }

    /// Returns how many calls of its seats were answered, which is its share of what `settle` counts.
    pub fn answers(&self) -> u64
        ensures { result ≡ self.now.share }
    {
        self.answers
    }

    /// Adds its share to the rest, and returns how many answers were counted for it.
    pub(crate) fn join_to(self, book: &mut Book<Led>, rest: &mut Share<Led>) -> u64
        ensures answers { result ≡ self.share }
        ensures total { book.new.total ≡ book.old.total }
        ensures amount { rest.new.amount ≡ rest.old.amount + self.share }
        ensures parts { rest.new.parts ≡ rest.old.parts + self.seats }
        ensures bound { rest.new.amount ≤ book.new.total }
    {
        let Left {
            number: _,
            seats: _,
            answers,
            share,
        } = self;
        rest.merge(share);
        book.audit(rest);
        answers
    }
}
