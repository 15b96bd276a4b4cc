//! A journal's text is read back, and checked as it comes.
ghost use Rattle.std.specs.Prelude.{◌≡◌, [], IfOk, slice_get};
ghost use Rattle.cml_journal.specs.{IsSoFar};
ghost use Rattle.cml_c.specs.{number, OpensNumbers, OpensBytes, OpensReadingOf, TakesPart, TellsState, TellsThis, IsTold, EndsSo, told_halt, told_unended};
ghost use Rattle.cml_c.specs.{message_kinds};
ghost use Rattle.cml_c.specs.ReadJournals.{Takes, TellsFault, number_of_fault, reading_states};

use crate::code::Code;
use crate::handle::{Handle, Slot};
use crate::message_kind::MessageKind;
use crate::owned::{CheckOf, Owned, Resource, on_any_messages};
use crate::rooms::write_handle;
use crate::telling::write_number;
use cml_board::Message;
use cml_journal::{Halt, Unended, What, Written};
use std::alloc::{AllocError, Global};

/// Opens a reading of a journal with these messages, and writes a handle to it.
#[unsafe(no_mangle)]
pub extern "C" fn seryugo_open_reading(alloc: Global, messages: u32, reading: &mut Slot) -> u32
    ensures { OpensReadingOf (slice_get message_kinds messages) result reading.old reading.new }
{
    open(alloc, MessageKind::of(messages), reading)
}

fn open(alloc: Global, messages: Option<MessageKind>, reading: &mut Slot) -> u32
    ensures { OpensReadingOf messages result reading.old reading.new }
{
    match messages {
        Some(MessageKind::Numbers) => open_numbers(alloc, reading),
        Some(MessageKind::Bytes) => open_bytes(alloc, reading),
        None => Code::OutOfBounds.number(),
    }
}

fn open_numbers(alloc: Global, reading: &mut Slot) -> u32
    ensures { OpensNumbers result reading.old reading.new }
{
    match new_reading(alloc) {
        Ok(opened) => write_handle(
            alloc,
            Owned::Numbers(Resource::JournalCheck(opened)),
            reading,
        ),
        Err(_) => Code::NoMemory.number(),
    }
}

fn open_bytes(alloc: Global, reading: &mut Slot) -> u32
    ensures { OpensBytes result reading.old reading.new }
{
    match new_reading(alloc) {
        Ok(opened) => write_handle(alloc, Owned::Bytes(Resource::JournalCheck(opened)), reading),
        Err(_) => Code::NoMemory.number(),
    }
}

fn new_reading<M: Message + Written>(alloc: Global) -> Result<Box<CheckOf<M>>, AllocError>
    ensures { IfOk result (λ reading. IsSoFar M.VERSION M.meaning [] reading.value) }
{
    Ok(Box::new(alloc, CheckOf::with_logs(alloc)?)?)
}

/// Reads the next part of a journal's text, and checks the entries whose lines end there.
#[unsafe(no_mangle)]
pub extern "C" fn seryugo_reading_take_from(reading: &mut Handle, text: &[u8]) -> u32
    ensures { TakesPart text.now result reading.old.owned reading.new.owned }
{
    on_any_messages!(reading, JournalCheck(reading) => take_part(reading, text))
}

fn take_part<M: Message + Written>(reading: &mut CheckOf<M>, text: &[u8]) -> u32
    ensures { Takes M.VERSION M.meaning text.now result reading.old reading.new }
{
    match reading.advance(text) {
        Ok(()) => Code::Done.number(),
        Err(halt) => code_of_halt(halt).number(),
    }
}

/// The code of what a reading stopped by.
pub(crate) fn code_of_halt(halt: Halt) -> Code
    ensures { result ≡ told_halt halt }
{
    match halt {
        Halt::Unlawful(_) => Code::Unlawful,
        Halt::Fault(_, _) => Code::Fault,
        Halt::NoMemory => Code::NoMemory,
    }
}

/// What is read off a reading.
#[derive(Clone, Copy)]
pub enum ReadingState {
    /// How many entries were read and are lawful.
    Entries,
    /// How many lines were read to their ends, modulo 2^64.
    Lines,
    /// Whether the text so far is a whole journal.
    End,
    /// How many bytes of the text may be kept, modulo 2^64: those of its whole lines, but for a header without a line behind it.
    Kept,
    /// Which fault the reading stopped by.
    Fault,
}

impl ReadingState {
    /// The state that has this number in the header.
    fn of(number: u32) -> Option<ReadingState>
        ensures { result ≡ slice_get reading_states number }
    {
        match number {
            0 => Some(ReadingState::Entries),
            1 => Some(ReadingState::Lines),
            2 => Some(ReadingState::End),
            3 => Some(ReadingState::Kept),
            4 => Some(ReadingState::Fault),
            _ => None,
        }
    }
}

/// Writes how many entries or lines were read, how many bytes may be kept, or which fault the reading stopped by: `Nothing`, if by none.
/// Or says whether the text so far is a whole journal, and writes nothing: it fails with `TextOpen`, `Torn` or `NoJournal`, or with what
/// the reading stopped by. `OutOfBounds`: no state has the number `what`.
#[unsafe(no_mangle)]
pub extern "C" fn seryugo_reading_state(reading: &mut Handle, what: u32, number: &mut u64) -> u32
    ensures { TellsState (slice_get reading_states what) number.old number.new result reading.old.owned reading.new.owned }
{
    tell(reading, ReadingState::of(what), number)
}

fn tell(reading: &mut Handle, state: Option<ReadingState>, number: &mut u64) -> u32
    ensures { TellsState state number.old number.new result reading.old.owned reading.new.owned }
{
    match state {
        Some(state) => tell_by(reading, state, number),
        None => Code::OutOfBounds.number(),
    }
}

fn tell_by(reading: &mut Handle, state: ReadingState, number: &mut u64) -> u32
    ensures { TellsThis state number.old number.new result reading.old.owned reading.new.owned }
{
    on_any_messages!(reading, JournalCheck(reading) => tell_state(reading, state, number))
}

fn tell_state<M: Message + Written>(
    reading: &mut CheckOf<M>,
    state: ReadingState,
    number: &mut u64,
) -> u32
    ensures { IsTold M.VERSION M.meaning state number.old number.new result reading.old reading.new }
{
    match state {
        ReadingState::Entries => write_number(reading.entries(), number),
        ReadingState::Lines => write_number(reading.lines(), number),
        ReadingState::End => tell_end(reading),
        ReadingState::Kept => write_number(reading.kept(), number),
        ReadingState::Fault => tell_fault(reading, number),
    }
}

fn tell_fault<M: Message + Written>(reading: &mut CheckOf<M>, number: &mut u64) -> u32
    ensures { TellsFault number.old number.new result reading.old reading.new }
{
    match reading.halt() {
        Some(Halt::Fault(_, what)) => write_number(number_of_fault(what), number),
        _ => Code::Nothing.number(),
    }
}

/// The fault's number in the header.
fn number_of_fault(what: What) -> u64
    ensures { result ≡ number_of_fault what }
{
    match what {
        What::Short => 0,
        What::UnknownWord => 1,
        What::NoColon => 2,
        What::BadNumber => 3,
        What::BadMessage => 4,
        What::WrongReply => 5,
        What::BadBytes => 6,
        What::NoHeader => 7,
        What::OtherVersion => 8,
        What::OtherType => 9,
        What::Gap => 10,
        What::WrongEnd => 11,
        What::WrongSum => 12,
        What::TooMany => 13,
        What::TooLong => 14,
    }
}

fn tell_end<M: Message + Written>(reading: &mut CheckOf<M>) -> u32
    ensures { EndsSo M.VERSION M.meaning result reading.old reading.new }
{
    let unended = reading.unended();
    match reading.halt() {
        Some(halt) => code_of_halt(halt).number(),
        None => code_of_unended(unended).number(),
    }
}

fn code_of_unended(unended: Option<Unended>) -> Code
    ensures { result ≡ told_unended unended }
{
    match unended {
        None => Code::Done,
        Some(Unended::Open(_)) => Code::TextOpen,
        Some(Unended::Torn(_)) => Code::Torn,
        Some(Unended::NoJournal) => Code::NoJournal,
    }
}
