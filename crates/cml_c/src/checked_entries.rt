//! Entries from C are checked, wherever C has them from.
ghost use Rattle.std.specs.Prelude.{◌≡◌, slice_get, ⊤};
ghost use Rattle.cml_c.specs.{who_in, call_at, replies, entry_in, entry_with, entry_of, FeedsEntry, FeedsParts, OnNumbers, OnBytes};
ghost use Rattle.cml_c.specs.{OnChecker};

use crate::checkers::feed;
use crate::code::Code;
use crate::entries::{SeryugoEntry, SeryugoMaker};
use crate::handle::Handle;
use crate::messages::copied;
use crate::owned::{CheckerOf, Owned, Resource, with_kind};
use cml_board::{Ask, Bytes, Call, Entry, Give, Make, Message, Name, Reply, Who};
use cml_calls::shape_of_filled;
use std::alloc::Global;

/// Checks an entry of numbers after those before. What its kind doesn't have is not read.
#[unsafe(no_mangle)]
pub extern "C" fn seryugo_checker_feed(checker: &mut Handle, entry: &SeryugoEntry) -> u32
    ensures { OnNumbers (OnChecker (FeedsEntry (entry_in entry.now) result)) ⊤ result checker.old.owned checker.new.owned }
{
    with_kind!(checker, Numbers(Checker(checker)) => feed_number(checker, entry_in(entry)))
}

/// Copies an entry of bytes, and checks it after those before. What its kind doesn't have is not read.
#[unsafe(no_mangle)]
pub extern "C" fn seryugo_bytes_checker_feed_from(
    alloc: Global,
    checker: &mut Handle,
    maker: &SeryugoMaker,
    call: u32,
    object: u64,
    sent: &[u8],
    reply: u32,
    name: u64,
    got: &[u8],
) -> u32
    ensures { FeedsParts
        (record { maker = maker.now; call = call; object = object; sent = sent.now; reply = reply; name = name; got = got.now })
        checker.old.owned checker.new.owned result }
{
    let sent = match copied(alloc, sent) {
        Ok(sent) => sent,
        Err(code) => return code.number(),
    };
    let got = match copied(alloc, got) {
        Ok(got) => got,
        Err(code) => return code.number(),
    };
    let parts = Parts {
        maker: *maker,
        call,
        object,
        sent,
        reply,
        name,
        got,
    };
    feed_bytes(checker.as_mut(), parts.into_entry())
}

/// An entry of bytes, by its parts.
#[derive(Drop)]
pub struct Parts {
    pub maker: SeryugoMaker,
    pub call: u32,
    pub object: u64,
    pub sent: Bytes,
    pub reply: u32,
    pub name: u64,
    pub got: Bytes,
}

impl Parts {
    /// The entry that has these parts, if each kind is one.
    fn into_entry(self) -> Option<Entry<Bytes>>
        ensures { result ≡ entry_with self }
    {
        let call = call_of(self.call, Name(self.object), self.sent);
        let reply = reply_of(self.reply, Name(self.name), self.got);
        entry_of(who_of(&self.maker), call, reply)
    }
}

fn feed_number(checker: &mut CheckerOf<u64>, entry: Option<Entry<u64>>) -> u32
    ensures { FeedsEntry entry result checker.old checker.new }
{
    match entry {
        Some(entry) => feed(checker, &[entry]),
        None => Code::OutOfBounds.number(),
    }
}

fn feed_bytes(checker: &mut Owned, entry: Option<Entry<Bytes>>) -> u32
    ensures { OnBytes (OnChecker (FeedsEntry entry result)) ⊤ result checker.old checker.new }
{
    match checker {
        Owned::Bytes(Resource::Checker(checker)) => feed_bytes_to(checker, entry),
        _ => {
            drop(entry);
            Code::WrongHandle.number()
        }
    }
}

fn feed_bytes_to(checker: &mut CheckerOf<Bytes>, entry: Option<Entry<Bytes>>) -> u32
    ensures { FeedsEntry entry result checker.old checker.new }
{
    match entry {
        Some(entry) => feed(checker, &[entry]),
        None => Code::OutOfBounds.number(),
    }
}

fn entry_in(given: &SeryugoEntry) -> Option<Entry<u64>>
    ensures { result ≡ entry_in given.now }
{
    let call = call_of(given.call.kind, Name(given.call.object), given.call.message);
    let reply = reply_of(given.reply.kind, Name(given.reply.given), given.reply.given);
    entry_of(who_of(&given.maker), call, reply)
}

fn entry_of<M: Message>(
    who: Option<Who>,
    call: Option<Call<M>>,
    reply: Option<Reply<M>>,
) -> Option<Entry<M>>
    ensures { result ≡ entry_of who call reply }
{
    Some(Entry {
        who: who?,
        call: call?,
        reply: reply?,
    })
}

fn who_of(maker: &SeryugoMaker) -> Option<Who>
    ensures { result ≡ who_in maker.now }
{
    match maker.kind {
        0 => Some(Who::Seat(maker.number)),
        1 => Some(Who::Lane(maker.number)),
        2 => Some(Who::Feed(maker.number)),
        _ => None,
    }
}

pub(crate) fn call_of<M: Message>(number: u32, object: Name, message: M) -> Option<Call<M>>
    ensures { result ≡ call_at number object message }
{
    if let Some(make) = Make::of_number(number) {
        return Some(Call::make(make));
    }
    if let Some(give) = Give::of_number(number) {
        return Some(Call::give(give, object, message));
    }
    if let Some(ask) = Ask::of_number(number) {
        return Some(Call::ask(ask, object));
    }
    if number == shape_of_filled().number {
        return Some(Call::MVarInit(message));
    }
    None
}

fn reply_of<M: Message>(kind: u32, name: Name, message: M) -> Option<Reply<M>>
    ensures { result ≡ slice_get (replies name message) kind }
{
    Some(match kind {
        0 => Reply::Done,
        1 => Reply::Made(name),
        2 => Reply::Got(message),
        3 => Reply::Nothing,
        4 => Reply::Put,
        5 => Reply::Closed,
        _ => return None,
    })
}
