ghost use Rattle.std.specs.Prelude.{◌≡◌, ℕ, ◌+◌, ◌-◌, ◌*◌, ◌/◌, ◌<◌, ◌≤◌};
ghost use Rattle.std.proofs.Common.{rules};
ghost use Rattle.cml_log.specs.{chunk_of};

use crate::places::{make_room, step, trim, trim_to_least};
use crate::{Back, Key, MessageLog};
use slab::Slab;
use std::alloc::{AllocError, Global};
use std::collections::VecDeque;
use std::marker::Model;

/// A log whose items lie in one queue, in chunks of `N` places.
///
/// `N` is from 1 to 1,024; a smaller or larger one is taken as the nearest of these.
#[derive(Drop)]
pub struct PlainLog<T, const N: usize> {
    first: u64,
    items: VecDeque<T>,
    places: Slab<u64>,
}

impl<T, const N: usize> Model for PlainLog<T, N> {
    ghost use Rattle.std.specs.VecDeque.{deque_capacity};
    ghost use Rattle.cml_log.specs.Log.{Log, log_code};
    ghost use Rattle.cml_log.specs.PlainLog.{chunk_of, IsSound};

    ghost Value = { Log T };

    ghost coded = { log_code T.code };

    ghost view = { λ a. record { first = a.first; kept = a.items.items; places = a.places.slots } };

    ghost invariant = { λ a. IsSound
        (chunk_of N)
        (record { first = a.first; kept = a.items.items; places = a.places.slots })
        (deque_capacity a.items) };
}

impl<T: Drop, const N: usize> MessageLog<T> for PlainLog<T, N> {
    const CHUNK: u64 = if N == 0 {
        1
    } else if N > 1024 {
        1024
    } else {
        N as u64
    };

    ghost CHUNK = { chunk_of N };

    ghost log = { λ shown. shown };

    fn new(alloc: Global) -> Result<Self, AllocError> {
        Ok(PlainLog {
            first: 0,
            items: VecDeque::with_capacity(alloc, Self::CHUNK as usize)?,
            places: Slab::new(alloc),
        })
    }

    fn push(&mut self, item: T) -> Result<(), Back<T>> {
        let chunk = Self::CHUNK as usize;
        let next = self.first + self.items.len() as u64;
        if make_room(&mut self.items, next, chunk).is_err() {
            return Err(Back(item));
        }
        self.items.push_back_reserved(item);
        // An open cursor is no later than `next`, so one more item leaves the least place.
        if !self.places.is_empty() {
            return Ok(());
        }
        trim(&mut self.first, &mut self.items, next + 1, chunk);
        Ok(())
    }

    fn open_cursor(&mut self) -> Result<Key, AllocError> {
        let next = self.next();
        self.places.reserve(1)?;
        Ok(Key(self.places.insert_reserved(next)))
    }

    fn copy_cursor(&mut self, k: Key) -> Result<Key, AllocError> {
        let place = self.place(k);
        self.places.reserve(1)?;
        Ok(Key(self.places.insert_reserved(place)))
    }

    fn close_cursor(&mut self, k: Key) {
        self.places.remove(k.0);
        trim_to_least(
            &mut self.first,
            &mut self.items,
            &self.places,
            Self::CHUNK as usize,
        );
    }

    fn peek(&self, k: Key) -> Option<&T> {
        let passed = self.places[k.0] - self.first;
        self.items.get(passed as usize)
    }

    fn lend_owed(&self, alloc: Global, k: Key) -> Result<Vec<&T>, AllocError> {
        let passed = (self.places[k.0] - self.first) as usize;
        let mut items = Vec::with_capacity(alloc, self.items.len() - passed)?;
        for at in passed..self.items.len() {
            items.push_reserved(&self.items[at]);
        }
        Ok(items)
    }

    fn advance(&mut self, k: Key) {
        step(&mut self.places, k.0);
        trim_to_least(
            &mut self.first,
            &mut self.items,
            &self.places,
            Self::CHUNK as usize,
        );
    }

    fn take(&mut self, _k: Key) -> Option<T> {
        None
    }

    fn first(&self) -> u64 {
        self.first
    }

    fn next(&self) -> u64 {
        self.first + self.items.len() as u64
    }

    fn place(&self, k: Key) -> u64 {
        self.places[k.0]
    }

    fn owed(&self, k: Key) -> u64 {
        let passed = self.places[k.0] - self.first;
        self.items.len() as u64 - passed
    }

    fn cursors(&self) -> usize {
        self.places.len()
    }

    fn chunks(&self) -> u64 {
        let before = self.first / Self::CHUNK;
        self.next() / Self::CHUNK - before + 1
    }

    fn is_open(&self, k: Key) -> bool {
        self.places.contains(k.0)
    }

    ghost bounded = { Prim.search rules };
}
