//! The machine of a journal's file. C does what it asks for.
ghost use Rattle.std.specs.Prelude.{◌≡◌, slice_get};
ghost use Rattle.cml_c.specs.{OpensStore, AcceptsBytes, AcceptsIn, Asks, AsksIn, AsksOn, EndsOn, EndsIn, TellsMark, TellsMarkOn};
ghost use Rattle.cml_c.specs.{marks, mark_of, shown_step, stage_number, works};

use crate::code::Code;
use crate::handle::{Handle, Slot};
use crate::owned::{Owned, Resource, with_kind};
use crate::rooms::write_handle;
use crate::telling::write_number;
use cml_store::{Stage, Step, Store, Unaccepted};
use std::alloc::Global;

/// A file's text has no more bytes.
const MOST: u64 = 1 << 62;

/// What C is asked to do: nothing (0), cut (1), grow (2), store (3), sync (4) or sync the folder (5).
#[repr(C)]
#[derive(Clone, Copy)]
pub struct SeryugoStep {
    pub kind: u32,
    pub from: u64,
    pub to: u64,
}

/// What a step is for.
#[derive(Clone, Copy)]
pub enum Work {
    /// The bytes that were accepted.
    Bytes,
    /// The same, and the file is being closed.
    Closing,
    /// Room up to a place.
    Room,
    /// A sync.
    Sync,
}

impl Work {
    /// The work that has this number in the header.
    fn of(number: u32) -> Option<Work>
        ensures { result ≡ slice_get works number }
    {
        match number {
            0 => Some(Work::Bytes),
            1 => Some(Work::Closing),
            2 => Some(Work::Room),
            3 => Some(Work::Sync),
            _ => None,
        }
    }
}

/// Writes a handle to the machine of a file that was read: it has `size` bytes, of which recovery keeps the first `kept`. Fails with
/// `OutOfBounds` if these are more than 2^62.
#[unsafe(no_mangle)]
pub extern "C" fn seryugo_store_open(alloc: Global, kept: u64, size: u64, store: &mut Slot) -> u32
    ensures { OpensStore kept size result store.old store.new }
{
    if kept > MOST {
        return Code::OutOfBounds.number();
    }
    match Box::new(alloc, Store::opened(kept, size)) {
        Ok(opened) => write_handle(alloc, Owned::Numbers(Resource::Store(opened)), store),
        Err(_) => Code::NoMemory.number(),
    }
}

/// Accepts as many bytes more. Fails with `Gone` if the file isn't open, with `Full` if too many aren't synced yet, and with `TooLong` if
/// the file would be too long, or so many may never be unsynced.
#[unsafe(no_mangle)]
pub extern "C" fn seryugo_store_accept(store: &mut Handle, bytes: u64) -> u32
    ensures { AcceptsBytes bytes result store.old.owned store.new.owned }
{
    with_kind!(store, Numbers(Store(store)) => accept(store, bytes))
}

fn accept(store: &mut Store, bytes: u64) -> u32
    ensures { AcceptsIn bytes result store.old store.new }
{
    match store.accept(bytes) {
        Ok(_) => Code::Done.number(),
        Err(Unaccepted::Closed) => Code::Gone.number(),
        Err(Unaccepted::Full) => Code::Full.number(),
        Err(Unaccepted::NoRoom) => Code::TooLong.number(),
    }
}

/// Begins the next step of this work, and writes it. `to` is how far there is to be room, and other work doesn't read it. Fails with
/// `OutOfBounds` if no work has the number.
#[unsafe(no_mangle)]
pub extern "C" fn seryugo_store_begin(
    store: &mut Handle,
    work: u32,
    to: u64,
    step: &mut SeryugoStep,
) -> u32
    ensures { AsksOn (slice_get works work) to step.old step.new result store.old.owned store.new.owned }
{
    begin(store, Work::of(work), to, step)
}

fn begin(store: &mut Handle, work: Option<Work>, to: u64, step: &mut SeryugoStep) -> u32
    ensures { AsksOn work to step.old step.new result store.old.owned store.new.owned }
{
    match work {
        Some(work) => begin_work(store, work, to, step),
        None => Code::OutOfBounds.number(),
    }
}

fn begin_work(store: &mut Handle, work: Work, to: u64, step: &mut SeryugoStep) -> u32
    ensures { Asks work to step.old step.new result store.old.owned store.new.owned }
{
    with_kind!(store, Numbers(Store(store)) => begin_in(store, work, to, step))
}

fn begin_in(store: &mut Store, work: Work, to: u64, step: &mut SeryugoStep) -> u32
    ensures { AsksIn work to step.new result store.old store.new }
{
    *step = shown(match work {
        Work::Bytes => store.begin_store(false),
        Work::Closing => store.begin_store(true),
        Work::Room => store.begin_growth(to),
        Work::Sync => store.begin_sync(),
    });
    Code::Done.number()
}

fn shown(step: Step) -> SeryugoStep
    ensures { result ≡ shown_step step }
{
    let (kind, from, to) = match step {
        Step::Nothing => (0, 0, 0),
        Step::Cut(to) => (1, 0, to),
        Step::Grow(to) => (2, 0, to),
        Step::Store(from, to) => (3, from, to),
        Step::Sync => (4, 0, 0),
        Step::SyncFolder => (5, 0, 0),
    };
    SeryugoStep { kind, from, to }
}

/// Ends the sync that is under way, or the step on the file's bytes.
#[unsafe(no_mangle)]
pub extern "C" fn seryugo_store_end(store: &mut Handle, is_sync: bool, is_done: bool) -> u32
    ensures { EndsOn is_sync is_done result store.old.owned store.new.owned }
{
    with_kind!(store, Numbers(Store(store)) => end(store, is_sync, is_done))
}

fn end(store: &mut Store, is_sync: bool, is_done: bool) -> u32
    ensures { EndsIn is_sync is_done result store.old store.new }
{
    match is_sync {
        true => store.end_sync(is_done),
        false => store.end_store(is_done),
    }
    Code::Done.number()
}

/// What is read off a machine.
#[derive(Clone, Copy)]
pub enum Mark {
    /// How many bytes were accepted, how many of these are stored, how many synced, and how long the file is at least.
    Accepted,
    Stored,
    Synced,
    Grown,
    /// 1 if the file is open, 2 if it has failed for good, and else 0.
    Stage,
}

impl Mark {
    /// The mark that has this number in the header.
    fn of(number: u32) -> Option<Mark>
        ensures { result ≡ slice_get marks number }
    {
        match number {
            0 => Some(Mark::Accepted),
            1 => Some(Mark::Stored),
            2 => Some(Mark::Synced),
            3 => Some(Mark::Grown),
            4 => Some(Mark::Stage),
            _ => None,
        }
    }
}

/// Writes a mark of the machine. Fails with `OutOfBounds` if no mark has the number.
#[unsafe(no_mangle)]
pub extern "C" fn seryugo_store_mark(store: &mut Handle, mark: u32, place: &mut u64) -> u32
    ensures { TellsMarkOn (slice_get marks mark) place.old place.new result store.old.owned store.new.owned }
{
    tell(store, Mark::of(mark), place)
}

fn tell(store: &mut Handle, mark: Option<Mark>, place: &mut u64) -> u32
    ensures { TellsMarkOn mark place.old place.new result store.old.owned store.new.owned }
{
    match mark {
        Some(mark) => tell_mark(store, mark, place),
        None => Code::OutOfBounds.number(),
    }
}

fn tell_mark(store: &mut Handle, mark: Mark, place: &mut u64) -> u32
    ensures { TellsMark mark place.old place.new result store.old.owned store.new.owned }
{
    with_kind!(store, Numbers(Store(store)) => write_number(mark_of(store, mark), place))
}

fn mark_of(store: &Store, mark: Mark) -> u64
    ensures { result ≡ mark_of mark store.now }
{
    match mark {
        Mark::Accepted => store.accepted(),
        Mark::Stored => store.stored(),
        Mark::Synced => store.synced(),
        Mark::Grown => store.grown(),
        Mark::Stage => stage_number(store.stage()),
    }
}

fn stage_number(stage: Stage) -> u64
    ensures { result ≡ stage_number stage }
{
    match stage {
        Stage::Open => 1,
        Stage::Lost => 2,
        _ => 0,
    }
}
