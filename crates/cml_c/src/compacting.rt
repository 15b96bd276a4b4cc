//! A journal that was read is made short.
ghost use Rattle.std.specs.Prelude.{◌≡◌};
ghost use Rattle.cml_compact.specs.{IsShortJournal, last_seat};
ghost use Rattle.cml_c.specs.{Shortens, ShortensBy, ShortensKept, WritesShort};

use crate::code::Code;
use crate::handle::{Handle, Slot};
use crate::owned::{CheckOf, LogOf, Owned, Payload, Resource, for_both};
use crate::read_journals::code_of_halt;
use crate::restoring::left_of;
use crate::rooms::MOST;
use cml_board::{Entry, Restored};
use cml_compact::short_journal_of;
use cml_journal::Written;
use std::alloc::Global;
use std::mem;

/// Makes a short journal that leaves what the journal leaves which a reading read. Writes a handle to it, and how many entries it
/// has. The reading is spent then.
#[unsafe(no_mangle)]
pub extern "C" fn seryugo_reading_compact(
    alloc: Global,
    reading: &mut Handle,
    journal: &mut Slot,
    count: &mut u64,
) -> u32
    ensures { ShortensKept journal.old journal.new count.old count.new result reading.old.owned reading.new.owned }
{
    for_both!(reading.as_mut(), resource => shorten(alloc, resource, journal, count))
}

fn shorten<M: Payload + Written>(
    alloc: Global,
    resource: &mut Resource<M>,
    journal: &mut Slot,
    count: &mut u64,
) -> u32
    ensures { Shortens M.VERSION M.meaning M.OWNED journal.old journal.new count.old count.new result resource.old resource.new }
{
    let (left, code) = match mem::replace(resource, Resource::Spent) {
        Resource::JournalCheck(reading) => shorten_by(alloc, reading, journal, count),
        other => (other, Code::WrongHandle.number()),
    };
    *resource = left;
    code
}

/// What a reading's handle leads to then, and the code that tells it.
fn shorten_by<M: Payload + Written>(
    alloc: Global,
    mut reading: Box<CheckOf<M>>,
    journal: &mut Slot,
    count: &mut u64,
) -> (Resource<M>, u32)
    ensures { ShortensBy M.VERSION M.meaning M.OWNED journal.old journal.new count.old count.new reading result.0 result.1 }
{
    if let Some(halt) = reading.halt() {
        return (left_of(reading, halt), code_of_halt(halt).number());
    }
    match reading.restore(1) {
        Some(restored) => (
            Resource::Spent,
            write_short(alloc, restored, journal, count),
        ),
        None => (Resource::JournalCheck(reading), Code::Unlawful.number()),
    }
}

/// Writes a handle to the short journal of this board, and how many entries it has.
fn write_short<M: Payload>(
    alloc: Global,
    restored: Restored<M, LogOf<M>>,
    journal: &mut Slot,
    count: &mut u64,
) -> u32
    ensures { WritesShort (IsShortJournal restored.board (last_seat restored.makers.seats)) M.OWNED
        journal.old journal.new count.old count.new result }
{
    match short_journal_of(alloc, restored, MOST) {
        Ok(entries) => write_journal(alloc, entries, journal, count),
        // The limit is the largest one. Memory ends before a journal is as long.
        Err(_) => Code::NoMemory.number(),
    }
}

/// Writes a handle to these entries, and how many they are.
fn write_journal<M: Payload>(
    alloc: Global,
    entries: Vec<Entry<M>>,
    journal: &mut Slot,
    count: &mut u64,
) -> u32
    ensures { WritesShort (λ taken. taken ≡ entries.items) M.OWNED journal.old journal.new count.old count.new result }
{
    let length = entries.len() as u64;
    match Handle::new(alloc, M::own_journal(entries)) {
        Ok(handle) => {
            *count = length;
            *journal = handle.into_slot();
            Code::Done.number()
        }
        Err(_) => Code::NoMemory.number(),
    }
}
