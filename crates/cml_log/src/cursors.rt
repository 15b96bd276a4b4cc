//! Where cursors are, each under its key.
ghost use Rattle.std.specs.Prelude.{◌≡◌, ◌≢◌, ℕ, ◌+◌, ◌<◌, ◌↔◌, [], Some, None, count_by, is_some, slice_set, IsSome, IsTrue, IfOk, OnOk};
ghost use Rattle.std.specs.Prelude.{OnErr};
ghost use Rattle.slab.specs.Slab.{HasRoomFor};
ghost use Rattle.cml_log.specs.{cursor_at};

use crate::chunk::Address;
use slab::Slab;
use std::alloc::{AllocError, Global};
use std::marker::Model;

/// Where a cursor is: its place, and where the place's chunk lies.
#[derive(Clone, Copy)]
pub(crate) struct Cursor {
    pub at: Address,
    pub place: u64,
}

/// The cursors of a log, each under a key. One cursor takes no memory beside the log: a mailbox has no other.
#[derive(Drop)]
pub(crate) struct Cursors {
    alloc: Global,
    kept: Kept,
}

#[derive(Drop)]
enum Kept {
    /// The cursor under key 0, or none once it was closed. No other key was opened.
    One(Option<Cursor>),
    /// Any number of cursors, and none before the first was opened.
    Many(Slab<Cursor>),
}

impl Model for Cursors {
    ghost use Rattle.std.specs.Prelude.{List, Option};
    ghost use Rattle.cml_log.specs.{Cursor, slots_of};

    ghost Value = { List (Option Cursor) };

    ghost view = { λ c. slots_of c.kept };
}

// A slab that has this cursor under key 0, and room for another.
fn spread(alloc: Global, cursor: Cursor) -> Result<Slab<Cursor>, AllocError>
    ensures first { IfOk result (λ slab. cursor_at slab.slots 0 ≡ Some cursor) }
    ensures others { IfOk result (λ slab. (other : ℕ) → other ≢ 0 → cursor_at slab.slots other ≡ None) }
    ensures counted { IfOk result (λ slab. count_by is_some slab.slots ≡ 1) }
    ensures room { IfOk result (λ slab. HasRoomFor slab 1) }
{
    let mut slab = Slab::with_capacity(alloc, 2)?;
    slab.insert_reserved(cursor);
    Ok(slab)
}

impl Cursors {
    pub(crate) fn new(alloc: Global) -> Cursors
        ensures { result ≡ [] }
    {
        // Not `One(None)`, which has a key 0. A slab takes no memory before its first entry.
        Cursors {
            alloc,
            kept: Kept::Many(Slab::new(alloc)),
        }
    }

    /// Adds a cursor under a key that had none. Only the second cursor and later ones may allocate.
    pub(crate) fn add(&mut self, cursor: Cursor) -> Result<usize, AllocError>
        ensures vacant { IfOk result (λ key. cursor_at self.old key ≡ None) }
        ensures added { IfOk result (λ key. cursor_at self.new key ≡ Some cursor) }
        ensures others { IfOk result (λ key. (other : ℕ) → other ≢ key → cursor_at self.new other ≡ cursor_at self.old other) }
        ensures counted { OnOk result (count_by is_some self.new ≡ count_by is_some self.old + 1) }
        ensures err { OnErr result (self.new ≡ self.old) }

        // The first cursor needs no memory.
        ensures refused { OnErr result (0 < count_by is_some self.old) }
    {
        let mut slab = match &mut self.kept {
            Kept::One(Some(first)) => spread(self.alloc, *first)?,
            Kept::Many(slab) if slab.capacity() > 0 => {
                slab.reserve(1)?;
                return Ok(slab.insert_reserved(cursor));
            }
            Kept::One(None) | Kept::Many(_) => {
                self.kept = Kept::One(Some(cursor));
                return Ok(0);
            }
        };
        let key = slab.insert_reserved(cursor);
        self.kept = Kept::Many(slab);
        Ok(key)
    }

    /// The cursor under a key.
    #[inline(always)]
    pub(crate) fn get(&self, key: usize) -> Cursor
        requires { IsSome (cursor_at self.now key) }
        ensures { cursor_at self.now key ≡ Some result }
    {
        match &self.kept {
            Kept::One(Some(cursor)) => *cursor,
            Kept::One(None) => unreachable!(),
            Kept::Many(slab) => slab[key],
        }
    }

    /// Moves the cursor under a key.
    #[inline(always)]
    pub(crate) fn move_to(&mut self, key: usize, to: Cursor)
        requires { IsSome (cursor_at self.old key) }
        ensures { self.new ≡ slice_set self.old key (Some to) }
    {
        match &mut self.kept {
            Kept::One(sole) => *sole = Some(to),
            Kept::Many(slab) => {
                if let Some(cursor) = slab.get_mut(key) {
                    *cursor = to;
                }
            }
        }
    }

    /// Removes the cursor under a key.
    pub(crate) fn remove(&mut self, key: usize) -> Cursor
        requires { IsSome (cursor_at self.old key) }
        ensures value { cursor_at self.old key ≡ Some result }
        ensures slots { self.new ≡ slice_set self.old key None }
    {
        match &mut self.kept {
            Kept::One(sole) => match sole.take() {
                Some(cursor) => cursor,
                None => unreachable!(),
            },
            Kept::Many(slab) => slab.remove(key),
        }
    }

    /// How many there are.
    #[inline(always)]
    pub(crate) fn len(&self) -> usize
        ensures { result ≡ count_by is_some self.now }
    {
        match &self.kept {
            Kept::One(None) => 0,
            Kept::One(Some(_)) => 1,
            Kept::Many(slab) => slab.len(),
        }
    }

    /// Says whether there is a cursor under a key.
    pub(crate) fn contains(&self, key: usize) -> bool
        ensures { IsTrue result ↔ IsSome (cursor_at self.now key) }
    {
        match &self.kept {
            Kept::One(sole) => key == 0 && sole.is_some(),
            Kept::Many(slab) => slab.contains(key),
        }
    }
}
