//! Journals are checked: a checker says how far one is a lawful history of one thread.
ghost use Rattle.std.specs.Prelude.{◌≡◌, IfOk, Ok, slice_get, ⊤};
ghost use Rattle.cml_board.specs.{no_entries};
ghost use Rattle.cml_c.specs.declared.owned.Owned.TheVariants as owned;
ghost use Rattle.cml_c.specs.{OpensAChecker, OpensCheckerOf, FeedsIn, FeedsFrom, FeedsTaken, FeedsJournal, TellsVerdict, told_verdict, OnAnyMessages, OnBoth};
ghost use Rattle.cml_c.specs.{message_kinds};
ghost use Rattle.cml_c.specs.{OnChecker};

use crate::code::Code;
use crate::handle::{Handle, Slot};
use crate::message_kind::MessageKind;
use crate::owned::{CheckerOf, Owned, Resource, on_any_messages, on_both};
use crate::rooms::write_handle;
use cml_board::{Entry, Message};
use std::alloc::{AllocError, Global};

/// Opens a checker of journals with these messages, and writes a handle to it.
#[unsafe(no_mangle)]
pub extern "C" fn seryugo_open_checker(alloc: Global, messages: u32, checker: &mut Slot) -> u32
    ensures { OpensCheckerOf (slice_get message_kinds messages) result checker.old checker.new }
{
    open(alloc, MessageKind::of(messages), checker)
}

fn open(alloc: Global, messages: Option<MessageKind>, checker: &mut Slot) -> u32
    ensures { OpensCheckerOf messages result checker.old checker.new }
{
    match messages {
        Some(MessageKind::Numbers) => open_numbers(alloc, checker),
        Some(MessageKind::Bytes) => open_bytes(alloc, checker),
        None => Code::OutOfBounds.number(),
    }
}

fn open_numbers(alloc: Global, checker: &mut Slot) -> u32
    ensures { OpensAChecker owned.Numbers result checker.old checker.new }
{
    match new_checker(alloc) {
        Ok(opened) => write_handle(alloc, Owned::Numbers(Resource::Checker(opened)), checker),
        Err(_) => Code::NoMemory.number(),
    }
}

fn open_bytes(alloc: Global, checker: &mut Slot) -> u32
    ensures { OpensAChecker owned.Bytes result checker.old checker.new }
{
    match new_checker(alloc) {
        Ok(opened) => write_handle(alloc, Owned::Bytes(Resource::Checker(opened)), checker),
        Err(_) => Code::NoMemory.number(),
    }
}

fn new_checker<M: Message>(alloc: Global) -> Result<Box<CheckerOf<M>>, AllocError>
    ensures { IfOk result (λ checker. checker.value ≡ Ok no_entries) }
{
    Ok(Box::new(alloc, CheckerOf::with_logs(alloc)?)?)
}

/// Checks the entries of a journal that was taken, from this place on.
#[unsafe(no_mangle)]
pub extern "C" fn seryugo_checker_feed_journal(
    checker: &mut Handle,
    journal: &mut Handle,
    place: u64,
) -> u32
    ensures { OnBoth (λ M sure. FeedsJournal place) result checker.old.owned checker.new.owned journal.old.owned journal.new.owned }
{
    on_both!(checker, journal => feed_journal(checker, journal, place))
}

fn feed_journal<M: Message>(checker: &mut Resource<M>, journal: &mut Resource<M>, place: u64) -> u32
    ensures { FeedsJournal place result checker.old checker.new journal.old journal.new }
{
    match checker {
        Resource::Checker(checker) => feed_taken(checker, journal, place),
        _ => Code::WrongHandle.number(),
    }
}

fn feed_taken<M: Message>(checker: &mut CheckerOf<M>, journal: &mut Resource<M>, place: u64) -> u32
    ensures { FeedsTaken place result journal.old journal.new checker.old checker.new }
{
    match journal {
        Resource::Journal(journal) => feed_entries(checker, journal, place),
        _ => Code::WrongHandle.number(),
    }
}

fn feed_entries<M: Message>(
    checker: &mut CheckerOf<M>,
    journal: &mut Vec<Entry<M>>,
    place: u64,
) -> u32
    ensures journal { journal.new ≡ journal.old }
    ensures feeds { FeedsFrom journal.old.items place result checker.old checker.new }
{
    feed_from(checker, journal, place)
}

fn feed_from<M: Message>(checker: &mut CheckerOf<M>, journal: &[Entry<M>], place: u64) -> u32
    ensures { FeedsFrom journal.now place result checker.old checker.new }
{
    match journal.get(place as usize..) {
        Some(rest) => feed(checker, rest),
        None => Code::NoSuch.number(),
    }
}

/// Checks these entries after those before.
pub(crate) fn feed<M: Message>(checker: &mut CheckerOf<M>, entries: &[Entry<M>]) -> u32
    ensures { FeedsIn entries.now result checker.old checker.new }
{
    if entries.len() as u64 > u64::MAX - checker.entries() {
        return Code::OutOfBounds.number();
    }
    match checker.feed(entries) {
        Ok(verdict) => code_of_verdict(verdict).number(),
        Err(_) => Code::NoMemory.number(),
    }
}

/// The code of a checker's verdict.
fn code_of_verdict(verdict: Result<(), u64>) -> Code
    ensures { result ≡ told_verdict verdict }
{
    match verdict {
        Ok(()) => Code::Done,
        Err(_) => Code::Unlawful,
    }
}

/// Writes how many entries were found lawful. Returns `Unlawful` if the entry after them is not.
#[unsafe(no_mangle)]
pub extern "C" fn seryugo_checker_verdict(checker: &mut Handle, count: &mut u64) -> u32
    ensures { OnAnyMessages (λ M sure. OnChecker (TellsVerdict result count.new))
        (count.new ≡ count.old) result checker.old.owned checker.new.owned }
{
    on_any_messages!(checker, Checker(checker) => tell_verdict(checker, count))
}

fn tell_verdict<M: Message>(checker: &mut CheckerOf<M>, count: &mut u64) -> u32
    ensures { TellsVerdict result count.new checker.old checker.new }
{
    *count = checker.entries();
    code_of_verdict(checker.verdict()).number()
}
