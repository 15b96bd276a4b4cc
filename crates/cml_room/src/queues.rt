ghost use Rattle.std.specs.Prelude.{◌≡◌, ◌≢◌, ℕ, ◌+◌, ◌^◌, ◌<◌, ◌≤◌, ◌++◌, List, [], ◌∷◌, length, true, false, slice_get};
ghost use Rattle.std.specs.Prelude.{IfSome, IfOk, OnOk, OnErr};
ghost use Rattle.cml_room.specs.Queues.{queue_of, is_in};

mod dense;
mod links;

use dense::Dense;
use std::alloc::{AllocError, Global};
use std::marker::Model;

/// First-in-first-out queues of numbers, each under its number. A number is a member of at most one queue. A call takes the
/// same few steps however long the queues are. Only `new` and `add` allocate memory, and none for numbers below `first`.
#[derive(Drop)]
pub struct Queues {
    // The numbers of `dense` are so much less.
    first: u64,
    dense: Dense,
}

impl Model for Queues {
    ghost use Rattle.std.specs.Prelude.{◌<◌, ◌^◌};
    ghost use Rattle.cml_room.specs.Queues.{QueuesShown, all_raised};

    ghost Value = { QueuesShown };

    ghost view = { λ q. all_raised q.first q.dense };

    ghost invariant = { λ q. (q.first < 2 ^ 63) × (q.dense.bound < 2 ^ 63) };
}

impl Queues {
    /// Makes `count` empty queues for numbers from `first` on. A number can be pushed only after it was added.
    pub fn new(alloc: Global, count: usize, first: u64) -> Result<Queues, AllocError>
        requires { first < 2 ^ 63 }
        ensures count { IfOk result (λ queues. length queues.queues ≡ count) }
        ensures empty { IfOk result (λ queues. (row : ℕ) → queue_of queues row ≡ []) }
        ensures first { IfOk result (λ queues. queues.first ≡ first) }
        ensures bound { IfOk result (λ queues. queues.bound ≡ first) }
    {
        let dense = Dense::new(alloc, count)?;
        Ok(Queues { first, dense })
    }

    /// Adds one more number that can be pushed: the least that could not be pushed before.
    pub fn add(&mut self) -> Result<(), AllocError>
        ensures queues { self.new.queues ≡ self.old.queues }
        ensures first { self.new.first ≡ self.old.first }
        ensures bound { OnOk result (self.new.bound ≡ self.old.bound + 1) }
        ensures refused { OnErr result (self.new ≡ self.old) }
    {
        self.dense.add()
    }

    /// Puts the number at the end of a queue.
    pub fn push(&mut self, row: usize, number: u64)
        requires row { row < length self.old.queues }
        requires from { self.old.first ≤ number }
        requires within { number < self.old.bound }
        requires nowhere { (row : ℕ) → is_in self.old row number ≡ false }
        ensures here { queue_of self.new row ≡ queue_of self.old row ++ number ∷ [] }
        ensures others { (other : ℕ) → other ≢ row → queue_of self.new other ≡ queue_of self.old other }
        ensures count { length self.new.queues ≡ length self.old.queues }
        ensures first { self.new.first ≡ self.old.first }
        ensures bound { self.new.bound ≡ self.old.bound }
    {
        self.dense.push(row, number - self.first);
    }

    /// Takes the number out of its queue.
    pub fn remove(&mut self, row: usize, number: u64)
        requires { is_in self.old row number ≡ true }
        ensures here { (xs ys : List ℕ) → queue_of self.old row ≡ xs ++ number ∷ ys → queue_of self.new row ≡ xs ++ ys }
        ensures gone { is_in self.new row number ≡ false }
        ensures nowhere { (row : ℕ) → is_in self.new row number ≡ false }
        ensures kept { (other : ℕ) → other ≢ number → is_in self.new row other ≡ is_in self.old row other }
        ensures others { (other : ℕ) → other ≢ row → queue_of self.new other ≡ queue_of self.old other }
        ensures count { length self.new.queues ≡ length self.old.queues }
        ensures first { self.new.first ≡ self.old.first }
        ensures bound { self.new.bound ≡ self.old.bound }
    {
        self.dense.remove(row, number - self.first);
    }

    /// Returns the oldest member of a queue. Returns `None` if the queue is empty, or if there is no such queue.
    pub fn first(&self, row: usize) -> Option<u64>
        ensures first { result ≡ slice_get (queue_of self.now row) 0 }
        ensures within { IfSome result (λ number. number < self.now.bound) }
    {
        match self.dense.first(row) {
            Some(number) => Some(self.first + number),
            None => None,
        }
    }

    /// Returns the member after this one in its queue. For a number in no queue it may return any number that was added.
    pub fn after(&self, number: u64) -> Option<u64>
        ensures next { (row : ℕ) (xs ys : List ℕ) → queue_of self.now row ≡ xs ++ number ∷ ys → result ≡ slice_get ys 0 }
        ensures within { IfSome result (λ next. next < self.now.bound) }
    {
        if number < self.first {
            return None;
        }
        match self.dense.after(number - self.first) {
            Some(next) => Some(self.first + next),
            None => None,
        }
    }

    /// Returns how many numbers were added. No queue has more members.
    pub fn most(&self) -> usize
        ensures count { self.now.first + result ≡ self.now.bound }
        ensures enough { (row : ℕ) → length (queue_of self.now row) ≤ result }
    {
        self.dense.bound()
    }
}
