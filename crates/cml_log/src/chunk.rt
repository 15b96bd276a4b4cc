//! The chunks of a log in their blocks. This file has every call that reads or changes a chunk.
ghost use Rattle.std.specs.Prelude.{◌≡◌, ◌+◌, ◌<◌, ◌≤◌, [], ◌∷◌, ◌++◌, Some, None, length, IfOk, OnErr};
ghost use Rattle.std.specs.Prelude.{option_copied, slice_get, slice_set};
ghost use Rattle.cml_log.specs.{block_at, IsKept, IsBare, row_at, link_at, cell_of, KeepsCounts, Rewrites, with_row, with_link};
ghost use Rattle.cml_log.specs.{with_cursors, with_taken, taken_at, unwritten};

mod raw;

use crate::row::Row;
pub(crate) use raw::{Address, Counter};
use raw::{Blocks, Link, Linked, Right, fits};
use std::alloc::{AllocError, Global};

/// A chunk's block: its places, where the next chunk lies, and how many cursors are in it.
#[derive(Drop)]
struct Chunk<T, const N: usize> {
    row: Row<T, N>,
    link: Link,
    cursors: u64,
}

impl<T: Drop, const N: usize> Chunk<T, N> {
    /// A chunk with no item, no link and no cursor.
    fn empty() -> Chunk<T, N>
        ensures { result ≡ record { row = unwritten; link = None; cursors = 0 } }
    {
        Chunk {
            row: Row::new(),
            link: Link::nowhere(),
            cursors: 0,
        }
    }
}

impl<T, const N: usize> Linked for Chunk<T, N> {
    ghost leads_to = { λ chunk. chunk.link };

    fn link(&self) -> &Link {
        &self.link
    }
}

/// The chunks of a log, and how often a chunk was made, a chunk was freed, and a link was followed. The chunks' owner owns
/// these counts: no other way leads to a block or to a count. A call that raises a count takes the chunks by `&mut`. A walk
/// takes them by `&`, and counts the links that it follows apart.
pub(crate) struct KeptChunks<T, const N: usize> {
    blocks: Blocks<Chunk<T, N>>,
    made: Counter,
    given: Counter,
    followed: Counter,
}

impl<T: Drop, const N: usize> KeptChunks<T, N> {
    /// No chunk, and nothing counted yet. There are none too large for memory.
    pub(crate) fn new() -> Result<KeptChunks<T, N>, AllocError>
        ensures kept { IfOk result (λ chunks. chunks.blocks.kept ≡ []) }
        ensures counts { IfOk result (λ chunks. (chunks.made.count ≡ 0) × (chunks.given.count ≡ 0) × (chunks.followed.count ≡ 0)) }
    {
        if !fits::<Chunk<T, N>>() {
            return Err(AllocError);
        }
        Ok(KeptChunks {
            blocks: Blocks::new(),
            made: Counter::zero(),
            given: Counter::zero(),
            followed: Counter::zero(),
        })
    }

    /// Makes a chunk with no item, no link and no cursor, under the next number, and counts it.
    #[inline(never)]
    pub(crate) fn make(&mut self, alloc: Global, number: u64) -> Result<Address, AllocError>
        requires { number ≡ length self.old.blocks.kept }
        ensures number { IfOk result (λ at. at.number ≡ number) }
        ensures kept { IfOk result (λ at. self.new.blocks.kept
            ≡ self.old.blocks.kept ++ Some (at.at, record { row = unwritten; link = None; cursors = 0 }) ∷ []) }
        ensures counted { IfOk result (λ _. (self.new.made.count ≡ self.old.made.count + 1)
            × (self.new.given.count ≡ self.old.given.count) × (self.new.followed.count ≡ self.old.followed.count)) }
        ensures err { OnErr result (self.new ≡ self.old) }
    {
        self.blocks.fit();
        let right = Right::make(alloc, Chunk::empty(), &mut self.made)?;
        Ok(self.blocks.put(number, right))
    }

    /// Drops all that is in a chunk, frees its memory, and counts that.
    pub(crate) fn give_back(&mut self, alloc: Global, at: Address)
        requires { IsKept self.old.blocks.kept at.number at.at }
        ensures kept { self.new.blocks.kept ≡ slice_set self.old.blocks.kept at.number None }
        ensures counted { (self.new.given.count ≡ self.old.given.count + 1)
            × (self.new.made.count ≡ self.old.made.count) × (self.new.followed.count ≡ self.old.followed.count) }
    {
        self.blocks.fit();
        self.blocks.take(at).give_back(alloc, &mut self.given);
    }

    /// Reads a chunk's link, and counts it.
    pub(crate) fn follow(&mut self, at: Address) -> Option<Address>
        requires { IsKept self.old.blocks.kept at.number at.at }
        ensures link { result ≡ link_at self.old.blocks.kept at.number }
        ensures kept { self.new.blocks ≡ self.old.blocks }
        ensures counted { (self.new.followed.count ≡ self.old.followed.count + 1)
            × (self.new.made.count ≡ self.old.made.count) × (self.new.given.count ≡ self.old.given.count) }
    {
        self.blocks.fit();
        self.blocks.follow(at, &mut self.followed)
    }

    /// Reads a chunk's link for a walk, which counts it.
    pub(crate) fn walk_on(&self, at: Address, walked: &mut Counter) -> Option<Address>
        requires { IsKept self.now.blocks.kept at.number at.at }
        ensures link { result ≡ link_at self.now.blocks.kept at.number }
        ensures counted { walked.new.count ≡ walked.old.count + 1 }
    {
        self.blocks.fit();
        self.blocks.follow(at, walked)
    }

    /// Lends the item at a slot, if it was written.
    #[inline(always)]
    pub(crate) fn item(&self, at: Address, slot: usize) -> Option<&T>
        requires kept { IsKept self.now.blocks.kept at.number at.at }
        requires left { taken_at self.now.blocks.kept at.number ≤ slot }
        ensures { option_copied result ≡ slice_get (row_at self.now.blocks.kept at.number) slot }
    {
        self.blocks.fit();
        self.blocks.get(at).row.get(slot)
    }

    /// How many cursors are in a chunk.
    #[inline(always)]
    pub(crate) fn cursors(&self, at: Address) -> u64
        requires { IsKept self.now.blocks.kept at.number at.at }
        ensures { cell_of (block_at self.now.blocks.kept at.number) ≡ Some (at.at, result) }
    {
        self.blocks.fit();
        self.blocks.get(at).cursors
    }

    /// Links a chunk to the one after it.
    pub(crate) fn set_link(&mut self, at: Address, next: Address)
        requires later { 0 < next.number }
        requires kept { IsKept self.old.blocks.kept at.number at.at }
        ensures rewrites { Rewrites self.old.blocks.kept self.new.blocks.kept at.number at.at (with_link (Some next)) }
        ensures counts { KeepsCounts self.old self.new }
    {
        self.blocks.fit();
        self.blocks.get_mut(at).link = Link::to(next);
    }

    #[inline(always)]
    pub(crate) fn set_cursors(&mut self, at: Address, cursors: u64)
        requires { IsKept self.old.blocks.kept at.number at.at }
        ensures rewrites { Rewrites self.old.blocks.kept self.new.blocks.kept at.number at.at (with_cursors cursors) }
        ensures counts { KeepsCounts self.old self.new }
    {
        self.blocks.fit();
        self.blocks.get_mut(at).cursors = cursors;
    }

    /// Writes the next slot of a chunk.
    #[inline(always)]
    pub(crate) fn write(&mut self, at: Address, slot: usize, item: T)
        requires kept { IsKept self.old.blocks.kept at.number at.at }
        requires next { slot ≡ length (row_at self.old.blocks.kept at.number) }
        requires within { slot < N }
        ensures rewrites { Rewrites self.old.blocks.kept self.new.blocks.kept at.number at.at
            (with_row (row_at self.old.blocks.kept at.number ++ item ∷ [])) }
        ensures counts { KeepsCounts self.old self.new }
    {
        self.blocks.fit();
        self.blocks.get_mut(at).row.write(slot, item);
    }

    /// Moves the item at a slot of a chunk out.
    #[inline(always)]
    pub(crate) fn take(&mut self, at: Address, slot: usize) -> T
        requires kept { IsKept self.old.blocks.kept at.number at.at }
        requires left { taken_at self.old.blocks.kept at.number ≤ slot }
        requires written { slot < length (row_at self.old.blocks.kept at.number) }
        requires within { slot < N }
        ensures item { slice_get (row_at self.old.blocks.kept at.number) slot ≡ Some result }
        ensures rewrites { Rewrites self.old.blocks.kept self.new.blocks.kept at.number at.at (with_taken (slot + 1)) }
        ensures counts { KeepsCounts self.old self.new }
    {
        self.blocks.fit();
        self.blocks.get_mut(at).row.take(slot)
    }

    /// Ends the chunks, once each was freed.
    pub(crate) fn done(self)
        requires { IsBare self.blocks.kept }
    {
        let KeptChunks {
            blocks,
            made: _,
            given: _,
            followed: _,
        } = self;
        blocks.done();
    }
}
