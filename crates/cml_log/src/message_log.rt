ghost use Rattle.std.specs.Prelude.{◌≡◌, ℕ, ◌+◌, ◌-◌, ◌%◌, ◌<◌, ◌≤◌, ◌↔◌, Some, None, length, IsTrue, OnOk, OnErr, IfOk};
ghost use Rattle.std.specs.Prelude.{IfErr, IfSome, IfNone, option_copied, slice_get};
ghost use Rattle.cml_log.specs.Log.{Log, empty_log, next_of, IsOpen, place_of, owed_items, cursor_count, chunk_count};
ghost use Rattle.cml_log.specs.Log.{chunk_start, lent, trimmed, with_item, with_place, Opens};

use crate::{Back, Key};
use std::alloc::{AllocError, Global};

/// A list of messages that grows at one end. Each open cursor reads it from its own place on.
///
/// Items lie in chunks of `CHUNK` places. Items before the chunk of the least place of an open cursor are dropped. Without
/// a cursor, items before the chunk of the next place are dropped.
/// Only `new`, a push that fills its chunk, opening one more cursor, and lending all that is owed allocate memory.
pub trait MessageLog<T>: Drop {
    /// How many places a chunk has, from 1 to 1,024.
    const CHUNK: u64;

    ghost CHUNK: { ℕ };

    ghost log: { Self → Log T };

    /// Makes an empty log.
    fn new(alloc: Global) -> Result<Self, AllocError>
        ensures { IfOk result (λ made. log made ≡ empty_log) };

    /// Adds an item at the next place. If it fails, it returns the item.
    fn push(&mut self, item: T) -> Result<(), Back<T>>
        requires { next_of (log self.old) < 18446744073709551614 }
        ensures ok { OnOk result (log self.new ≡ trimmed CHUNK (with_item (log self.old) item)) }
        ensures err { OnErr result (log self.new ≡ log self.old) }
        ensures back { IfErr result (λ refused. refused.0 ≡ item) }

        // Only a push that fills its chunk allocates.
        ensures refused { OnErr result (next_of (log self.old) % CHUNK ≡ CHUNK - 1) };

    /// Opens a cursor at the next place, so that it reads the items that are pushed from now on.
    fn open_cursor(&mut self) -> Result<Key, AllocError>
        ensures ok { IfOk result
            (λ key. Opens (log self.old) (log self.new) key (next_of (log self.old))) }
        ensures err { OnErr result (log self.new ≡ log self.old) };

    /// Opens a cursor at another cursor's place.
    fn copy_cursor(&mut self, k: Key) -> Result<Key, AllocError>
        requires { IsOpen (log self.old) k }
        ensures ok { IfOk result
            (λ key. Opens (log self.old) (log self.new) key (place_of (log self.old) k)) }
        ensures err { OnErr result (log self.new ≡ log self.old) };

    /// Closes a cursor.
    fn close_cursor(&mut self, k: Key)
        requires { IsOpen (log self.old) k }
        ensures { log self.new ≡ trimmed CHUNK (with_place (log self.old) k None) };

    /// Returns the item at a cursor's place, if one was pushed there.
    fn peek(&self, k: Key) -> Option<&T>
        requires { IsOpen (log self.now) k }
        ensures { option_copied result ≡ slice_get (owed_items (log self.now) k) 0 };

    /// Lends the items that a cursor has still to read, in order. Takes memory for one reference to each.
    fn lend_owed(&self, alloc: Global, k: Key) -> Result<Vec<&T>, AllocError>
        requires { IsOpen (log self.now) k }
        ensures { IfOk result (λ items. lent items.items ≡ owed_items (log self.now) k) };

    /// Moves a cursor past the item at its place.
    fn advance(&mut self, k: Key)
        requires opened { IsOpen (log self.old) k }
        requires owed { 0 < length (owed_items (log self.old) k) }
        ensures { log self.new
            ≡ trimmed CHUNK (with_place (log self.old) k (Some (place_of (log self.old) k + 1))) };

    /// Moves the item at a cursor's place out, and the cursor past it. If another cursor is open, or this log keeps its items until
    /// it frees their chunk, it returns `None` and changes nothing.
    fn take(&mut self, k: Key) -> Option<T>
        requires opened { IsOpen (log self.old) k }
        requires owed { 0 < length (owed_items (log self.old) k) }
        ensures moved { IfSome result (λ item. (slice_get (owed_items (log self.old) k) 0 ≡ Some item)
            × (log self.new ≡ trimmed CHUNK (with_place (log self.old) k (Some (place_of (log self.old) k + 1))))) }
        ensures kept { IfNone result (log self.new ≡ log self.old) };

    /// Returns the place of the first kept item, where the chunk of the least place begins.
    fn first(&self) -> u64
        ensures value { result ≡ (log self.now).first }
        ensures starts_chunk { result ≡ chunk_start CHUNK (log self.now) };

    /// Returns the place that the next item gets, which is how many items were pushed.
    fn next(&self) -> u64
        ensures { result ≡ next_of (log self.now) };

    /// Returns a cursor's place.
    fn place(&self, k: Key) -> u64
        requires { IsOpen (log self.now) k }
        ensures { result ≡ place_of (log self.now) k };

    /// Returns how many items a cursor has still to read.
    fn owed(&self, k: Key) -> u64
        requires { IsOpen (log self.now) k }
        ensures { result ≡ length (owed_items (log self.now) k) };

    /// Returns how many cursors are open.
    fn cursors(&self) -> usize
        ensures { result ≡ cursor_count (log self.now) };

    /// Returns how many chunks are kept, from that of the first kept place to that of the next place.
    fn chunks(&self) -> u64
        ensures { result ≡ chunk_count CHUNK (log self.now) };

    /// Says whether a key's cursor is open.
    fn is_open(&self, k: Key) -> bool
        ensures { IsTrue result ↔ IsOpen (log self.now) k };

    ghost bounded: { (0 < CHUNK) × (CHUNK ≤ 1024) };
}
