ghost use Rattle.std.specs.Prelude.{◌≡◌, ◌+◌, ◌<◌, ◌≤◌, [], ◌∷◌, ◌++◌, Some, length, option_copied, slice_get};

mod gone;

use gone::Gone;
use std::marker::Model;
use std::{array, mem};

/// A place of a chunk.
#[derive(Drop)]
enum Slot<T> {
    Empty,
    Full(T),
    Taken(Gone<T>),
}

/// The `N` places of a chunk: each is written once, in order. An item may be moved out, unless one after it was.
#[derive(Drop)]
pub(crate) struct Row<T, const N: usize> {
    places: [Slot<T>; N],
}

impl<T, const N: usize> Model for Row<T, N> {
    ghost use Rattle.cml_log.specs.Row.{Written, written_code, written, reach, IsRow};

    ghost Value = { Written T };

    ghost coded = { written_code T.code };

    ghost view = { λ row. record { items = written row.places; taken = reach row.places } };

    ghost invariant = { λ row. IsRow N row.places };
}

impl<T: Drop, const N: usize> Row<T, N> {
    ghost use Rattle.cml_log.specs.Row.{unwritten};

    pub(crate) fn new() -> Row<T, N>
        ensures { result ≡ unwritten }
    {
        Row {
            places: array::from_fn(
                |_| -> Slot<T>
                    ensures { result ≡ Slot.Empty }
                { Slot::Empty },
            ),
        }
    }

    /// The item at a slot, if it was written.
    #[inline(always)]
    pub(crate) fn get(&self, slot: usize) -> Option<&T>
        requires { self.now.taken ≤ slot }
        ensures { option_copied result ≡ slice_get self.now.items slot }
    {
        match self.places.get(slot)? {
            Slot::Full(item) => Some(item),
            _ => None,
        }
    }

    /// Writes the next slot.
    #[inline(always)]
    pub(crate) fn write(&mut self, slot: usize, item: T)
        requires next { slot ≡ length self.old.items }
        requires within { slot < N }
        ensures { self.new ≡ record self.old { items = self.old.items ++ item ∷ [] } }
    {
        self.places[slot] = Slot::Full(item);
    }

    /// Moves the item at a slot out.
    #[inline(always)]
    pub(crate) fn take(&mut self, slot: usize) -> T
        requires left { self.old.taken ≤ slot }
        requires written { slot < length self.old.items }
        requires within { slot < N }
        ensures item { slice_get self.old.items slot ≡ Some result }
        ensures taken { self.new ≡ record self.old { taken = slot + 1 } }
    {
        let place = &mut self.places[slot];
        let Slot::Full(item) = mem::replace(place, Slot::Empty) else {
            unreachable!()
        };
        *place = Slot::Taken(Gone::of(&item));
        item
    }
}
