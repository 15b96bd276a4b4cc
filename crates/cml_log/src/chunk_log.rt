ghost use Rattle.std.specs.Prelude.{◌≡◌, ℕ, ◌+◌, ◌-◌, ◌%◌, ◌<◌, ◌≤◌, ◌↔◌, Some, None, IsTrue, OnOk, OnErr, IfOk, IfErr};
ghost use Rattle.std.specs.Prelude.{IfSome, IfNone, IsSome};
ghost use Rattle.std.specs.Prelude.{length, slice_get, slice_set, option_copied};
ghost use Rattle.std.proofs.Common.{rules};
ghost use Rattle.cml_log.specs.{chunk_of, cursor_at, end_of, log_of, trimmed, with_place, IsAhead, IsTrim, IsWhole};

use crate::chain::Chain;
use crate::chunk::Counter;
use crate::cursors::{Cursor, Cursors};
use crate::{Back, Key, MessageLog};
use std::alloc::{AllocError, Global};
use std::marker::Model;

// Moves the cursor under a key past the item at its place.
#[inline(always)]
fn step<T: Drop, const N: usize>(
    chain: &mut Chain<T, N>,
    cursors: &mut Cursors,
    key: usize,
    cursor: Cursor,
)
    requires trim { IsTrim N chain.old cursors.old }
    requires found { cursor_at cursors.old key ≡ Some cursor }
    requires below { cursor.place + 1 ≤ end_of N chain.old }
    requires ahead { IsAhead N chain.old (slice_set cursors.old key
        (Some (record { at = cursor.at; place = cursor.place + 1 }))) }
    ensures whole { IsWhole N chain.new cursors.new }
    ensures log { log_of N chain.new cursors.new
        ≡ trimmed (chunk_of N) (with_place (log_of N chain.old cursors.old) key (Some (cursor.place + 1))) }
    ensures followed { chain.new.followed ≤ chain.old.followed + 1 }
    ensures given { chain.new.given ≤ chain.old.given + 1 }
{
    let Cursor { at, place } = cursor;
    let place = place + 1;
    if place % N as u64 != 0 {
        cursors.move_to(key, Cursor { at, place });
        return;
    }
    let next = chain.follow(at);
    // So that one cursor more in the next chunk can be counted.
    let _ = cursors.len();
    cursors.move_to(key, Cursor { at: next, place });
    chain.leave(at);
    chain.enter(next);
    if chain.is_idle() {
        chain.pass_head_to(next);
    }
}

/// A log whose items lie in chunks of `N` places of raw memory.
///
/// Each cursor holds its chunk, and each chunk counts the cursors in it, so no call looks at all cursors.
/// `N` is from 1 to 1,024; with any other `N`, `new` always fails with `AllocError`.
#[derive(Drop)]
pub struct ChunkLog<T: Drop, const N: usize> {
    chain: Chain<T, N>,
    cursors: Cursors,
}

impl<T: Drop, const N: usize> Model for ChunkLog<T, N> {
    ghost use Rattle.cml_log.specs.ChunkLog.{Counted, counted_code, counted_of, IsWhole};

    ghost Value = { Counted T };

    ghost coded = { counted_code T.code };

    ghost view = { λ a. counted_of N a.chain a.cursors };

    ghost invariant = { λ a. IsWhole N a.chain a.cursors };
}

impl<T: Drop, const N: usize> MessageLog<T> for ChunkLog<T, N> {
    ghost use Rattle.cml_log.specs.Log.{next_of, with_item, place_of, owed_items, cursor_count, IsOpen, Opens};
    ghost use Rattle.cml_log.specs.ChunkLog.{KeepsCounted};

    const CHUNK: u64 = if N == 0 {
        1
    } else if N > 1024 {
        1024
    } else {
        N as u64
    };

    ghost CHUNK = { chunk_of N };

    ghost log = { λ counted. counted.log };

    fn new(alloc: Global) -> Result<Self, AllocError> {
        Ok(ChunkLog {
            chain: Chain::new(alloc)?,
            cursors: Cursors::new(alloc),
        })
    }

    #[inline(always)]
    fn push(&mut self, item: T) -> Result<(), Back<T>>
        requires { next_of self.old.log < 18446744073709551614 }
        ensures ok { OnOk result (self.new.log ≡ trimmed (chunk_of N) (with_item self.old.log item)) }
        ensures err { OnErr result (self.new.log ≡ self.old.log) }
        ensures back { IfErr result (λ refused. refused.0 ≡ item) }
        ensures refused { OnErr result (next_of self.old.log % chunk_of N ≡ chunk_of N - 1) }

        // As many links as chunks freed.
        ensures followed { self.new.followed + self.old.given ≡ self.old.followed + self.new.given }
    {
        self.chain.push(item)?;
        self.chain.pass_idle();
        Ok(())
    }

    fn open_cursor(&mut self) -> Result<Key, AllocError>
        ensures ok { IfOk result (λ key. Opens self.old.log self.new.log key (next_of self.old.log)) }
        ensures err { OnErr result (self.new.log ≡ self.old.log) }

        // The only cursor needs no memory.
        ensures refused { OnErr result (0 < cursor_count self.old.log) }

        // No chunk is made or freed, and no link followed.
        ensures counts { KeepsCounted self.old self.new }
    {
        let cursor = Cursor {
            at: self.chain.end(),
            place: self.chain.next(),
        };
        let key = self.cursors.add(cursor)?;
        // So that one cursor more in its chunk can be counted.
        let _ = self.cursors.len();
        self.chain.enter(cursor.at);
        Ok(Key(key))
    }

    fn copy_cursor(&mut self, k: Key) -> Result<Key, AllocError>
        requires { IsOpen self.old.log k }
        ensures ok { IfOk result (λ key. Opens self.old.log self.new.log key (place_of self.old.log k)) }
        ensures err { OnErr result (self.new.log ≡ self.old.log) }
        ensures counts { KeepsCounted self.old self.new }
    {
        let original = self.cursors.get(k.0);
        let key = self.cursors.add(original)?;
        // So that one cursor more in its chunk can be counted.
        let _ = self.cursors.len();
        self.chain.enter(original.at);
        Ok(Key(key))
    }

    fn close_cursor(&mut self, k: Key)
        requires { IsOpen self.old.log k }
        ensures log { self.new.log ≡ trimmed (chunk_of N) (with_place self.old.log k None) }
        ensures followed { self.new.followed + self.old.given ≡ self.old.followed + self.new.given }
    {
        let cursor = self.cursors.remove(k.0);
        self.chain.leave(cursor.at);
        self.chain.pass_idle();
    }

    #[inline(always)]
    fn peek(&self, k: Key) -> Option<&T> {
        let cursor = self.cursors.get(k.0);
        self.chain
            .item(cursor.at, (cursor.place % N as u64) as usize)
    }

    fn lend_owed(&self, alloc: Global, k: Key) -> Result<Vec<&T>, AllocError> {
        let cursor = self.cursors.get(k.0);
        self.chain.lend_from(alloc, cursor, &mut Counter::zero())
    }

    #[inline(always)]
    fn advance(&mut self, k: Key)
        requires opened { IsOpen self.old.log k }
        requires owed { 0 < length (owed_items self.old.log k) }
        ensures log { self.new.log
            ≡ trimmed (chunk_of N) (with_place self.old.log k (Some (place_of self.old.log k + 1))) }

        // One link at most, and one chunk freed at most.
        ensures followed { self.new.followed ≤ self.old.followed + 1 }
        ensures given { self.new.given ≤ self.old.given + 1 }
    {
        let cursor = self.cursors.get(k.0);
        step(&mut self.chain, &mut self.cursors, k.0, cursor);
    }

    #[inline(always)]
    fn take(&mut self, k: Key) -> Option<T>
        requires opened { IsOpen self.old.log k }
        requires owed { 0 < length (owed_items self.old.log k) }
        ensures moved { IfSome result (λ item. (slice_get (owed_items self.old.log k) 0 ≡ Some item)
            × (self.new.log ≡ trimmed (chunk_of N) (with_place self.old.log k (Some (place_of self.old.log k + 1))))) }
        ensures kept { IfNone result (self.new.log ≡ self.old.log) }

        // It moves the item out where no other cursor may still read it.
        ensures sole { IsSome result ↔ (cursor_count self.old.log ≡ 1) }

        // One link at most, and one chunk freed at most.
        ensures followed { self.new.followed ≤ self.old.followed + 1 }
        ensures given { self.new.given ≤ self.old.given + 1 }
    {
        if self.cursors.len() != 1 {
            return None;
        }
        let cursor = self.cursors.get(k.0);
        let item = self
            .chain
            .take(cursor.at, (cursor.place % N as u64) as usize);
        step(&mut self.chain, &mut self.cursors, k.0, cursor);
        Some(item)
    }

    fn first(&self) -> u64 {
        self.chain.first()
    }

    #[inline]
    fn next(&self) -> u64 {
        self.chain.next()
    }

    #[inline]
    fn place(&self, k: Key) -> u64 {
        self.cursors.get(k.0).place
    }

    #[inline(always)]
    fn owed(&self, k: Key) -> u64 {
        self.chain.next() - self.cursors.get(k.0).place
    }

    fn cursors(&self) -> usize {
        self.cursors.len()
    }

    fn chunks(&self) -> u64 {
        self.chain.chunks()
    }

    fn is_open(&self, k: Key) -> bool {
        self.cursors.contains(k.0)
    }

    ghost bounded = { Prim.search rules };
}

impl<T: Drop, const N: usize> ChunkLog<T, N> {
    ghost use Rattle.cml_log.specs.Log.{chunk_count};

    /// Shows that the chunks made, less the chunks freed, are the chunks kept. Only the calls that make and free chunks
    /// count them.
    pub fn counted(&self)
        ensures { self.now.made ≡ self.now.given + chunk_count (chunk_of N) self.now.log }
    {
        self.chain.counted();
    }
}
