//! The machine of an exchange of a journal's file for a short one. C does what it asks for.
ghost use Rattle.std.specs.Prelude.{◌≡◌, slice_get};
ghost use Rattle.cml_c.specs.{OpensExchange, Moves, EndsExchange, EndsExchangeIn, endings, way_number};
ghost use Rattle.cml_c.specs.{TellsExchange, TellsExchangeBy, machine_in, reading_of, readings, shown_move, MovesBy, MovesIn};

use crate::code::Code;
use crate::handle::{Handle, Slot};
use crate::owned::{Owned, Resource, with_kind};
use crate::rooms::write_handle;
use crate::stores::SeryugoStep;
use crate::telling::write_number;
use cml_store::{Exchange, Move, Store, Way};
use std::alloc::Global;

/// How a step ends.
#[derive(Clone, Copy)]
pub enum Ending {
    Failed,
    Done,
    /// It isn't begun: the exchange is cancelled, unless a step has begun.
    Cancelled,
}

impl Ending {
    /// The ending that has this number in the header.
    fn of(number: u32) -> Option<Ending>
        ensures { result ≡ slice_get endings number }
    {
        match number {
            0 => Some(Ending::Failed),
            1 => Some(Ending::Done),
            2 => Some(Ending::Cancelled),
            _ => None,
        }
    }
}

/// Writes a handle to the machine of an exchange. The new file begins with a text of `short` bytes, which stands for the old one's
/// first `taken`.
#[unsafe(no_mangle)]
pub extern "C" fn seryugo_exchange_open(
    alloc: Global,
    taken: u64,
    short: u64,
    exchange: &mut Slot,
) -> u32
    ensures { OpensExchange taken short result exchange.old exchange.new }
{
    match Box::new(alloc, Exchange::new(taken, short)) {
        Ok(opened) => write_handle(alloc, Owned::Numbers(Resource::Exchange(opened)), exchange),
        Err(_) => Code::NoMemory.number(),
    }
}

/// Begins the next step on the journal's name, and writes it. `from` and `to` lead to the machines of the old and the new file.
#[unsafe(no_mangle)]
pub extern "C" fn seryugo_exchange_begin(
    exchange: &mut Handle,
    from: &mut Handle,
    to: &mut Handle,
    step: &mut SeryugoStep,
) -> u32
    ensures from { from.new.owned ≡ from.old.owned }
    ensures to { to.new.owned ≡ to.old.owned }
    ensures moves { Moves (machine_in from.old.owned) (machine_in to.old.owned) step.old step.new result exchange.old.owned exchange.new.owned }
{
    match (machine_in(from), machine_in(to)) {
        (Some(old), Some(new)) => begin(exchange, &old, &new, step),
        _ => Code::WrongHandle.number(),
    }
}

/// The machine of a file that a handle leads to.
fn machine_in(handle: &mut Handle) -> Option<Store>
    ensures kept { handle.new.owned ≡ handle.old.owned }
    ensures found { result ≡ machine_in handle.old.owned }
{
    match handle.as_mut() {
        Owned::Numbers(Resource::Store(store)) => Some(**store),
        _ => None,
    }
}

fn begin(exchange: &mut Handle, old: &Store, new: &Store, step: &mut SeryugoStep) -> u32
    ensures { MovesBy old.now new.now step.old step.new result exchange.old.owned exchange.new.owned }
{
    with_kind!(exchange, Numbers(Exchange(exchange)) => begin_in(exchange, old, new, step))
}

fn begin_in(exchange: &mut Exchange, old: &Store, new: &Store, step: &mut SeryugoStep) -> u32
    ensures { MovesIn old.now new.now step.new result exchange.old exchange.new }
{
    *step = shown(exchange.begin(old, new));
    Code::Done.number()
}

fn shown(step: Move) -> SeryugoStep
    ensures { result ≡ shown_move step }
{
    let kind = match step {
        Move::Nothing => 0,
        Move::SyncFolder => 5,
        Move::Rename => 6,
    };
    SeryugoStep {
        kind,
        from: 0,
        to: 0,
    }
}

/// Ends the step that is under way, or cancels the exchange. Fails with `OutOfBounds` if no ending has the number.
#[unsafe(no_mangle)]
pub extern "C" fn seryugo_exchange_end(exchange: &mut Handle, ending: u32) -> u32
    ensures { EndsExchange (slice_get endings ending) result exchange.old.owned exchange.new.owned }
{
    match Ending::of(ending) {
        Some(ending) => {
            with_kind!(exchange, Numbers(Exchange(exchange)) => end(exchange, ending))
        }
        None => Code::OutOfBounds.number(),
    }
}

fn end(exchange: &mut Exchange, ending: Ending) -> u32
    ensures { EndsExchangeIn ending result exchange.old exchange.new }
{
    match ending {
        Ending::Failed => exchange.end(false),
        Ending::Done => exchange.end(true),
        Ending::Cancelled => {
            exchange.cancel();
        }
    }
    Code::Done.number()
}

/// What is read off an exchange.
#[derive(Clone, Copy)]
pub enum Reading {
    /// How many bytes of the old file a loss of power keeps.
    Synced,
    /// 1 if lines go to the new file alone, 2 if only another opening heals the file, 3 if the new file may be removed, and else 0.
    Way,
}

impl Reading {
    /// What has this number in the header.
    fn of(number: u32) -> Option<Reading>
        ensures { result ≡ slice_get readings number }
    {
        match number {
            0 => Some(Reading::Synced),
            1 => Some(Reading::Way),
            _ => None,
        }
    }
}

/// Writes what is read off an exchange. Fails with `OutOfBounds` if nothing has the number.
#[unsafe(no_mangle)]
pub extern "C" fn seryugo_exchange_mark(
    exchange: &mut Handle,
    from: &mut Handle,
    to: &mut Handle,
    mark: u32,
    place: &mut u64,
) -> u32
    ensures from { from.new.owned ≡ from.old.owned }
    ensures to { to.new.owned ≡ to.old.owned }
    ensures tells { TellsExchange (slice_get readings mark) (machine_in from.old.owned) (machine_in to.old.owned) place.old place.new result
        exchange.old.owned exchange.new.owned }
{
    match (Reading::of(mark), machine_in(from), machine_in(to)) {
        (None, _, _) => Code::OutOfBounds.number(),
        (Some(reading), Some(old), Some(new)) => tell(exchange, &old, &new, reading, place),
        _ => Code::WrongHandle.number(),
    }
}

fn tell(exchange: &mut Handle, old: &Store, new: &Store, reading: Reading, place: &mut u64) -> u32
    ensures { TellsExchangeBy reading old.now new.now place.old place.new result exchange.old.owned exchange.new.owned }
{
    with_kind!(exchange, Numbers(Exchange(exchange)) => write_number(read(exchange, old, new, reading), place))
}

fn read(exchange: &Exchange, old: &Store, new: &Store, reading: Reading) -> u64
    ensures { result ≡ reading_of reading exchange.now old.now new.now }
{
    match reading {
        Reading::Synced => exchange.synced(old, new),
        Reading::Way => way_number(exchange.way()),
    }
}

fn way_number(way: Way) -> u64
    ensures { result ≡ way_number way }
{
    match way {
        Way::Over => 1,
        Way::Lost => 2,
        Way::Left => 3,
        _ => 0,
    }
}
