ghost use Rattle.std.specs.Prelude.{◌≡◌, ℕ, ◌+◌, ◌-◌, ◌*◌, ◌/◌, ◌%◌, ◌^◌, ◌<◌, ◌≤◌, [], ◌∷◌, ◌++◌, Some, length, drop, false};
ghost use Rattle.std.specs.Prelude.{option_copied, slice_get, ltb, IfOk, OnOk, OnErr, IfErr};

use crate::Back;
use crate::chunk::{Address, Counter, KeptChunks};
use crate::cursors::Cursor;
use std::alloc::{AllocError, Global};
use std::marker::Model;

/// The kept chunks of a log, each linked to the next, from the head to the tail, which takes the next item.
pub(crate) struct Chain<T: Drop, const N: usize> {
    alloc: Global,
    chunks: KeptChunks<T, N>,
    head: Address,
    tail: Address,
    next: u64,
}

impl<T: Drop, const N: usize> Model for Chain<T, N> {
    ghost use Rattle.std.specs.Prelude.{map};
    ghost use Rattle.cml_log.specs.Contents.{items_of, cell_of, taken_at};
    ghost use Rattle.cml_log.specs.Chain.{Chunks, chunks_code};
    ghost use Rattle.cml_log.specs.Linked.{IsChain};

    ghost Value = { Chunks T };

    ghost coded = { chunks_code T.code };

    ghost view = { λ c. record {
      given = c.chunks.given.count;
      items = items_of c.chunks.blocks.kept;
      cells = map cell_of c.chunks.blocks.kept;
      made = c.chunks.made.count;
      followed = c.chunks.followed.count;
      taken = taken_at c.chunks.blocks.kept c.chunks.given.count;
    } };

    ghost invariant = { λ c.
        IsChain c.chunks.blocks.kept c.head c.tail c.next c.chunks.made.count c.chunks.given.count };
}

impl<T: Drop, const N: usize> Chain<T, N> {
    ghost use Rattle.cml_log.specs.Log.{lent};
    ghost use Rattle.cml_log.specs.ChunkLog.{HoldsChunk};
    ghost use Rattle.cml_log.specs.Chain.{cell_at, count_at, LiesAt, end_of, is_idle, passed, with_count, Pushed, Passed, Begins};

    /// A chain of one empty chunk. Fails if `N` is 0 or above 1,024, if a chunk is too large, or without memory.
    pub(crate) fn new(alloc: Global) -> Result<Chain<T, N>, AllocError>
        ensures { IfOk result (λ made. Begins made) }
    {
        if N == 0 || N > 1024 {
            return Err(AllocError);
        }
        let mut chunks = KeptChunks::new()?;
        let Ok(head) = chunks.make(alloc, 0) else {
            chunks.done();
            return Err(AllocError);
        };
        Ok(Chain {
            alloc,
            chunks,
            head,
            tail: head,
            next: 0,
        })
    }

    /// Writes an item at the next place. If it fills its chunk, makes the next chunk first.
    #[inline(always)]
    pub(crate) fn push(&mut self, item: T) -> Result<(), Back<T>>
        requires { end_of N self.old < 18446744073709551614 }
        ensures ok { OnOk result (Pushed N self.old self.new item) }
        ensures err { OnErr result (self.new ≡ self.old) }
        ensures back { IfErr result (λ refused. refused.0 ≡ item) }
        ensures refused { OnErr result (end_of N self.old % N ≡ N - 1) }
    {
        let slot = (self.next % N as u64) as usize;
        if slot + 1 < N {
            self.chunks.write(self.tail, slot, item);
            self.next += 1;
            return Ok(());
        }
        let Ok(next) = self.chunks.make(self.alloc, self.tail.number + 1) else {
            return Err(Back(item));
        };
        self.chunks.write(self.tail, slot, item);
        self.chunks.set_link(self.tail, next);
        self.tail = next;
        self.next += 1;
        Ok(())
    }

    /// Lends the item at a slot of the chunk that lies there.
    #[inline(always)]
    pub(crate) fn item(&self, at: Address, slot: usize) -> Option<&T>
        requires lies { LiesAt self.now.cells at.number at.at }
        requires within { slot < N }
        requires left { N * self.now.given + self.now.taken ≤ N * at.number + slot }
        ensures { option_copied result
            ≡ slice_get (drop (N * (at.number - self.now.given)) self.now.items) slot }
    {
        self.chunks.item(at, slot)
    }

    /// Lends the items from a place on, in order. It follows the link of each chunk that it leaves.
    pub(crate) fn lend_from(
        &self,
        alloc: Global,
        from: Cursor,
        walked: &mut Counter,
    ) -> Result<Vec<&T>, AllocError>
        requires holds { HoldsChunk N self.now from }
        requires left { N * self.now.given + self.now.taken ≤ from.place }
        ensures items { IfOk result (λ items. lent items.items ≡ drop (from.place - N * self.now.given) self.now.items) }
        ensures walked { OnOk result (walked.new.count + from.place / N ≡ walked.old.count + end_of N self.now / N) }
    {
        let mut items = Vec::with_capacity(alloc, (self.next - from.place) as usize)?;
        let mut at = from;
        for _place in from.place..self.next {
            items.push_reserved(self.item_at(at));
            at = self.walk_on(at, walked);
        }
        Ok(items)
    }

    // Lends the item at a place.
    fn item_at(&self, at: Cursor) -> &T
        requires some { 0 < N }
        requires holds { HoldsChunk N self.now at }
        requires left { N * self.now.given + self.now.taken ≤ at.place }
        requires written { at.place < end_of N self.now }
        ensures { slice_get (drop (at.place - N * self.now.given) self.now.items) 0 ≡ Some result.now }
    {
        match self.item(at.at, (at.place % N as u64) as usize) {
            Some(item) => item,
            None => unreachable!(),
        }
    }

    // One place further.
    fn walk_on(&self, at: Cursor, walked: &mut Counter) -> Cursor
        requires some { 0 < N }
        requires bounded { end_of N self.now < 2 ^ 64 }
        requires holds { HoldsChunk N self.now at }
        requires written { at.place < end_of N self.now }
        ensures holds { HoldsChunk N self.now result }
        ensures place { result.place ≡ at.place + 1 }
        ensures walked { walked.new.count + at.place / N ≡ walked.old.count + result.place / N }
    {
        let Cursor { at, place } = at;
        let place = place + 1;
        if place % N as u64 != 0 {
            return Cursor { at, place };
        }
        let at = self.chunks.walk_on(at, walked).unwrap_or(at);
        Cursor { at, place }
    }

    /// Moves the item at a slot of the head out.
    #[inline(always)]
    pub(crate) fn take(&mut self, at: Address, slot: usize) -> T
        requires lies { LiesAt self.old.cells at.number at.at }
        requires head { at.number ≡ self.old.given }
        requires within { slot < N }
        requires left { self.old.taken ≤ slot }
        requires written { slot < length self.old.items }
        ensures item { slice_get (drop (N * (at.number - self.old.given)) self.old.items) slot ≡ Some result }
        ensures taken { self.new ≡ record self.old { taken = slot + 1 } }
    {
        self.chunks.take(at, slot)
    }

    /// Where the chunk of the next place lies.
    pub(crate) fn end(&self) -> Address
        ensures number { result.number ≡ end_of N self.now / N }
        ensures lies { LiesAt self.now.cells result.number result.at }
    {
        self.tail
    }

    /// Where the chunk after this one lies.
    #[inline(never)]
    pub(crate) fn follow(&mut self, at: Address) -> Address
        requires lies { LiesAt self.old.cells at.number at.at }
        requires before { at.number < end_of N self.old / N }
        ensures number { result.number ≡ at.number + 1 }
        ensures lies { LiesAt self.old.cells result.number result.at }
        ensures followed { self.new ≡ record self.old { followed = self.old.followed + 1 } }
    {
        self.chunks.follow(at).unwrap_or(at)
    }

    /// Counts one cursor more in a chunk.
    pub(crate) fn enter(&mut self, at: Address)
        requires lies { LiesAt self.old.cells at.number at.at }
        requires room { count_at self.old.cells at.number + 1 < 2 ^ 64 }
        ensures { self.new ≡ with_count self.old at.number at.at (count_at self.old.cells at.number + 1) }
    {
        let cursors = self.cursors(at);
        self.set_cursors(at, cursors + 1);
    }

    /// Counts one cursor less in a chunk.
    pub(crate) fn leave(&mut self, at: Address)
        requires lies { LiesAt self.old.cells at.number at.at }
        requires entered { 0 < count_at self.old.cells at.number }
        ensures { self.new ≡ with_count self.old at.number at.at (count_at self.old.cells at.number - 1) }
    {
        let cursors = self.cursors(at);
        self.set_cursors(at, cursors - 1);
    }

    /// How many cursors are in a chunk.
    #[inline(always)]
    fn cursors(&self, at: Address) -> u64
        requires { LiesAt self.now.cells at.number at.at }
        ensures { result ≡ count_at self.now.cells at.number }
    {
        self.chunks.cursors(at)
    }

    #[inline(always)]
    fn set_cursors(&mut self, at: Address, cursors: u64)
        requires { LiesAt self.old.cells at.number at.at }
        ensures { self.new ≡ with_count self.old at.number at.at cursors }
    {
        self.chunks.set_cursors(at, cursors);
    }

    #[inline(always)]
    pub(crate) fn is_idle(&self) -> bool
        ensures { result ≡ is_idle N self.now }
    {
        self.head.number < self.tail.number && self.chunks.cursors(self.head) == 0
    }

    /// Frees the head. `next` is where the chunk after it lies.
    #[inline(never)]
    pub(crate) fn pass_head_to(&mut self, next: Address)
        requires before { self.old.given < end_of N self.old / N }
        requires number { next.number ≡ self.old.given + 1 }
        requires lies { LiesAt self.old.cells next.number next.at }
        ensures { self.new ≡ passed N self.old }
    {
        self.chunks.give_back(self.alloc, self.head);
        self.head = next;
    }

    #[inline(never)]
    fn pass_head(&mut self)
        requires { self.old.given < end_of N self.old / N }
        ensures { self.new ≡ record (passed N self.old) { followed = self.old.followed + 1 } }
    {
        let next = self.follow(self.head);
        self.pass_head_to(next);
    }

    /// Frees the chunks from the head on that no cursor is in, up to the tail.
    #[inline(always)]
    pub(crate) fn pass_idle(&mut self)
        ensures idle { is_idle N self.new ≡ false }
        ensures passed { Passed N self.old self.new }
    {
        while self.is_idle() {
            self.pass_head();
        }
    }

    /// The place of the first kept item.
    pub(crate) fn first(&self) -> u64
        ensures { result ≡ N * self.now.given }
    {
        N as u64 * self.head.number
    }

    /// The place that the next item gets.
    #[inline]
    pub(crate) fn next(&self) -> u64
        ensures { result ≡ end_of N self.now }
    {
        self.next
    }

    /// How many chunks are kept.
    pub(crate) fn chunks(&self) -> u64
        ensures { result ≡ end_of N self.now / N - self.now.given + 1 }
    {
        self.tail.number - self.head.number + 1
    }

    /// The chunks made less those freed are those from the head to the tail.
    pub(crate) fn counted(&self)
        ensures counts { self.now.made ≡ self.now.given + (end_of N self.now / N - self.now.given + 1) }
        ensures sized { (0 < N) × (N ≤ 1024) × (end_of N self.now ≤ 18446744073709551614) }
    {
        // That reads the chain, and so shows what always holds of it.
        let _ = &self.head;
    }

    // Frees the last chunk.
    fn close(self)
        requires { ltb self.given (end_of N self / N) ≡ false }
    {
        let Chain {
            alloc,
            mut chunks,
            head,
            tail: _,
            next: _,
        } = self;
        chunks.give_back(alloc, head);
        chunks.done();
    }

    fn has_next(&self) -> bool
        ensures { result ≡ ltb self.now.given (end_of N self.now / N) }
    {
        self.head.number < self.tail.number
    }
}

impl<T: Drop, const N: usize> Drop for Chain<T, N> {
    fn drop(self) {
        let mut chain = self;
        while chain.has_next() {
            chain.pass_head();
        }
        chain.close();
    }
}
