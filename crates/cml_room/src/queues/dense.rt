ghost use Rattle.std.specs.Prelude.{◌≡◌, ◌≢◌, ℕ, ◌+◌, ◌<◌, ◌≤◌, ◌^◌, ◌++◌, List, [], ◌∷◌, length, true, false, slice_get};
ghost use Rattle.std.specs.Prelude.{IfSome, IfOk, OnOk, OnErr};
ghost use Rattle.cml_room.specs.Queues.{queue_of, is_in};

use super::links::{Ends, Link, append, unlink};
use std::alloc::{AllocError, Global};
use std::marker::Model;

/// Queues of numbers from 0 on.
#[derive(Drop)]
pub(crate) struct Dense {
    ends: Vec<Ends>,
    links: Vec<Link>,
}

impl Model for Dense {
    ghost use Rattle.cml_room.specs.Queues.{QueuesShown};
    ghost use Rattle.cml_room.specs.Links.{shown_by, AreLinked};

    ghost Value = { QueuesShown };

    ghost view = { λ q. shown_by q.links.items q.ends.items };

    ghost invariant = { λ q. AreLinked q.links.items q.ends.items };
}

impl Dense {
    /// Makes `count` empty queues. A number can be pushed only after it was added.
    pub fn new(alloc: Global, count: usize) -> Result<Dense, AllocError>
        ensures count { IfOk result (λ queues. length queues.queues ≡ count) }
        ensures empty { IfOk result (λ queues. (row : ℕ) → queue_of queues row ≡ []) }
        ensures bound { IfOk result (λ queues. queues.bound ≡ 0) }
    {
        let empty = Ends {
            first: None,
            last: None,
        };
        Ok(Dense {
            ends: vec![in alloc; empty; count]?,
            links: Vec::new(alloc),
        })
    }

    /// Adds one more number that can be pushed: the least that could not be pushed before.
    pub fn add(&mut self) -> Result<(), AllocError>
        ensures queues { self.new.queues ≡ self.old.queues }
        ensures bound { OnOk result (self.new.bound ≡ self.old.bound + 1) }
        ensures small { OnOk result (self.new.bound < 2 ^ 63) }
        ensures refused { OnErr result (self.new ≡ self.old) }
    {
        self.links.push(Link {
            previous: None,
            next: None,
        })?;
        Ok(())
    }

    /// Puts the number at the end of a queue.
    pub fn push(&mut self, row: usize, number: u64)
        requires row { row < length self.old.queues }
        requires within { number < self.old.bound }
        requires nowhere { (row : ℕ) → is_in self.old row number ≡ false }
        ensures here { queue_of self.new row ≡ queue_of self.old row ++ number ∷ [] }
        ensures others { (other : ℕ) → other ≢ row → queue_of self.new other ≡ queue_of self.old other }
        ensures count { length self.new.queues ≡ length self.old.queues }
        ensures bound { self.new.bound ≡ self.old.bound }
    {
        append(&mut self.links, &mut self.ends[row], number);
    }

    /// Takes the number out of its queue.
    pub fn remove(&mut self, row: usize, number: u64)
        requires { is_in self.old row number ≡ true }
        ensures here { (xs ys : List ℕ) → queue_of self.old row ≡ xs ++ number ∷ ys → queue_of self.new row ≡ xs ++ ys }
        ensures gone { is_in self.new row number ≡ false }
        ensures nowhere { (row : ℕ) → is_in self.new row number ≡ false }
        ensures kept { (other : ℕ) → other ≢ number → is_in self.new row other ≡ is_in self.old row other }
        ensures others { (other : ℕ) → other ≢ row → queue_of self.new other ≡ queue_of self.old other }
        ensures count { length self.new.queues ≡ length self.old.queues }
        ensures bound { self.new.bound ≡ self.old.bound }
    {
        unlink(&mut self.links, &mut self.ends[row], number);
    }

    /// Returns the oldest member of a queue. Returns `None` if the queue is empty, or if there is no such queue.
    pub fn first(&self, row: usize) -> Option<u64>
        ensures first { result ≡ slice_get (queue_of self.now row) 0 }
        ensures within { IfSome result (λ number. number < self.now.bound) }
    {
        self.ends.get(row)?.first
    }

    /// Returns the member after this one in its queue. For a number in no queue it may return any number that was added.
    pub fn after(&self, number: u64) -> Option<u64>
        ensures next { (row : ℕ) (xs ys : List ℕ) → queue_of self.now row ≡ xs ++ number ∷ ys → result ≡ slice_get ys 0 }
        ensures within { IfSome result (λ next. next < self.now.bound) }
    {
        self.links.get(number as usize)?.next
    }

    /// Returns how many numbers were added. No queue has more members.
    pub fn bound(&self) -> usize
        ensures bound { result ≡ self.now.bound }
        ensures enough { (row : ℕ) → length (queue_of self.now row) ≤ result }
    {
        self.links.len()
    }
}
