//! Work on a log's fields, of which a part is changed while another still has to be.
ghost use Rattle.std.specs.Prelude.{◌≡◌, ℕ, ◌+◌, ◌-◌, ◌*◌, ◌/◌, ◌%◌, ◌^◌, ◌<◌, ◌≤◌, ◌≢◌, Some, drop, slice_set};
ghost use Rattle.std.specs.Prelude.{unwrap_or, OnOk, OnErr, IsOk};
ghost use Rattle.std.specs.VecDeque.{deque_len, deque_capacity};
ghost use Rattle.slab.specs.Slab.{get, ContainsKey};
ghost use Rattle.cml_log.specs.{least, chunk_start, trimmed};

use slab::Slab;
use std::alloc::AllocError;
use std::collections::VecDeque;

// The least place of a cursor, or `end` where none is below it.
pub(crate) fn least_place(places: &Slab<u64>, end: u64) -> u64
    ensures { result ≡ least end places.now.slots }
{
    let mut least = end;
    for (_, place) in places {
        least = least.min(*place);
    }
    least
}

// Moves the cursor under `key` past one item.
pub(crate) fn step(places: &mut Slab<u64>, key: usize)
    requires opened { ContainsKey places.old key }
    requires below { unwrap_or (get places.old key) 0 + 1 < 2 ^ 64 }
    ensures { places.new.slots
        ≡ slice_set places.old.slots key (Some (unwrap_or (get places.old key) 0 + 1)) }
{
    if let Some(place) = places.get_mut(key) {
        *place += 1;
    }
}

// Makes room for an item at the place `next`, and where it fills its chunk for each item of the chunk after it.
pub(crate) fn make_room<T>(
    items: &mut VecDeque<T>,
    next: u64,
    chunk: usize,
) -> Result<(), AllocError>
    requires holds_one { 0 < chunk }
    requires small { chunk ≤ 1024 }
    ensures items { items.new.items ≡ items.old.items }
    ensures len { deque_len items.new ≡ deque_len items.old }
    ensures capacity { deque_capacity items.old ≤ deque_capacity items.new }
    ensures room { OnOk result
        (next % chunk ≡ chunk - 1 → deque_len items.new + (chunk + 1) ≤ deque_capacity items.new) }
    ensures refused { OnErr result (next % chunk ≡ chunk - 1) }
{
    if next % chunk as u64 != chunk as u64 - 1 {
        return Ok(());
    }
    items.reserve(chunk + 1)
}

// Drops the items before the chunk that has the place `least`.
pub(crate) fn trim<T: Drop>(first: &mut u64, items: &mut VecDeque<T>, least: u64, chunk: usize)
    requires holds_one { 0 < chunk }
    requires kept { first.old ≤ chunk * (least / chunk) }
    requires within { least ≤ first.old + deque_len items.old }
    ensures first { first.new ≡ chunk * (least / chunk) }
    ensures items { items.new.items ≡ drop (chunk * (least / chunk) - first.old) items.old.items }
    ensures capacity { deque_capacity items.new ≡ deque_capacity items.old }
{
    let start = least - least % chunk as u64;
    items.drain(..(start - *first) as usize);
    *first = start;
}

// Drops the items before the chunk that has the least place of a cursor, or the next place.
#[inline]
pub(crate) fn trim_to_least<T: Drop>(
    first: &mut u64,
    items: &mut VecDeque<T>,
    places: &Slab<u64>,
    chunk: usize,
)
    requires holds_one { 0 < chunk }
    requires counted { first.old + deque_len items.old < 2 ^ 64 }
    requires kept { first.old
        ≤ chunk_start chunk (record { first = first.old; kept = items.old.items; places = places.now.slots }) }
    ensures log { record { first = first.new; kept = items.new.items; places = places.now.slots }
        ≡ trimmed chunk (record { first = first.old; kept = items.old.items; places = places.now.slots }) }
    ensures capacity { deque_capacity items.new ≡ deque_capacity items.old }
{
    let end = *first + items.len() as u64;
    let least = least_place(places, end);
    trim(first, items, least, chunk);
}
