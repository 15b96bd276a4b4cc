//! The places of the seats, by number.
ghost use Rattle.std.specs.Prelude.{◌≡◌, ◌≢◌, ◌<◌, ◌^◌, ◌++◌, [], ◌∷◌, true, length, replicate, slice_get, slice_set};
ghost use Rattle.std.specs.Prelude.{Some, IfOk, MatchOption, OnOk, OnErr};
ghost use Rattle.cml_room.specs.declared.place.Place.TheVariants as place;
ghost use Rattle.cml_room.specs.{Waiter, is_here};

use crate::place::{Place, Waiter};
use std::alloc::{AllocError, Global};
use std::marker::Model;

/// What is known of each seat. Seats that left before the room was made take no memory.
#[derive(Drop)]
pub struct Places {
    // This many left before. The places are of the seats after them.
    gone: usize,
    places: Vec<Place>,
}

impl Model for Places {
    ghost use Rattle.std.specs.Prelude.{List, ◌<◌, ◌^◌};
    ghost use Rattle.cml_room.specs.declared.place.Place.{Place};
    ghost use Rattle.cml_room.specs.Places.{behind_gone};

    ghost Value = { List Place };

    ghost view = { λ p. behind_gone p.gone p.places.items };

    ghost invariant = { λ p. p.gone < 2 ^ 63 };
}

impl Places {
    /// This many seats, all of which have left. Allocates no memory, and fails only if there are 2^63.
    pub fn of_left(alloc: Global, gone: usize) -> Result<Places, AllocError>
        ensures places { IfOk result (λ places. places ≡ replicate gone place.Left) }
        ensures small { IfOk result (λ _. gone < 2 ^ 63) }
    {
        if gone >= 1 << 63 {
            return Err(AllocError);
        }
        Ok(Places {
            gone,
            places: Vec::new(alloc),
        })
    }

    pub fn len(&self) -> usize
        ensures { result ≡ length self.now }
    {
        self.gone + self.places.len()
    }

    /// What is known of the seat, if it was made.
    #[inline]
    pub fn get(&self, number: u64) -> Option<Place>
        ensures { result ≡ slice_get self.now number }
    {
        if (number as usize) < self.gone {
            return Some(Place::Left);
        }
        self.places.get(number as usize - self.gone).copied()
    }

    /// What is known of the seat's wait, if it waits.
    pub fn waiter(&self, number: u64) -> Option<Waiter>
        ensures { MatchOption result ((waiter : Waiter) → slice_get self.now number ≢ Some (place.Waiting waiter))
            (λ waiter. slice_get self.now number ≡ Some (place.Waiting waiter)) }
    {
        match self.get(number) {
            Some(Place::Waiting(waiter)) => Some(waiter),
            _ => None,
        }
    }

    /// Writes what is known now of a seat that has not left.
    pub fn set(&mut self, number: u64, new: Place)
        requires { is_here (slice_get self.old number) ≡ true }
        ensures { self.new ≡ slice_set self.old number new }
    {
        self.places[number as usize - self.gone] = new;
    }

    /// One free seat more. There are never as many as 2^63.
    pub fn add(&mut self) -> Result<(), AllocError>
        ensures added { OnOk result (self.new ≡ self.old ++ place.Free ∷ []) }
        ensures small { OnOk result (length self.new < 2 ^ 63) }
        ensures refused { OnErr result (self.new ≡ self.old) }
    {
        if self.len() + 1 >= 1 << 63 {
            return Err(AllocError);
        }
        self.places.push(Place::Free)?;
        Ok(())
    }
}
