//! Messages of bytes: how they are copied from C, and how they are handed to C.
ghost use Rattle.std.specs.Prelude.{◌≡◌, ◌<◌, ◌≤◌, length, IfOk, IfErr, IsSome, option_map, option_copied};
ghost use Rattle.cml_c.specs.{number, IsHanded, NotCopied, HandsHeld, HandsShare};

use crate::code::Code;
use crate::keeper::{Held, Keeper, Share};
use cml_board::Bytes;
use std::alloc::{AllocError, Global};
use std::ptr;

/// The most bytes of a message that lie in the struct itself: as many as `cml_calls` keeps in one block. To copy them takes less
/// time than to allocate and to free what keeps more.
pub(crate) const IN_PLACE: usize = 78;

/// Where a message is written. Up to 78 bytes lie in the struct; more stay where they are until C frees the message.
#[repr(C)]
#[derive(Drop)]
pub struct SeryugoBytes {
    pub length: usize,
    pub block: *const u8,
    pub owner: Share,
    pub in_place: [u8; 78],
}

/// Frees what keeps a message of more than 78 bytes. Its bytes are freed once no clone is left, in a journal or elsewhere.
#[unsafe(no_mangle)]
pub extern "C" fn seryugo_bytes_release(owner: Keeper) {
    drop(owner);
}

/// Copies the bytes that C sends.
#[inline]
pub(crate) fn copied(alloc: Global, source: &[u8]) -> Result<Bytes, Code>
    ensures copied { IfOk result (λ bytes. bytes ≡ source.now) }
    ensures refused { IfErr result (λ code. NotCopied source.now (number code)) }
{
    match Bytes::from_slice(alloc, source) {
        Ok(Ok(bytes)) => Ok(bytes),
        Ok(Err(_)) => Err(Code::OutOfBounds),
        Err(_) => Err(Code::NoMemory),
    }
}

/// Where C finds these bytes, and how many they are. Empty ones are nowhere.
pub(crate) fn place_of(bytes: &[u8]) -> (*const u8, usize)
    ensures { result.1 ≡ length bytes.now }
{
    match bytes.first() {
        Some(first) => (ptr::from_ref(first), bytes.len()),
        None => (ptr::null(), 0),
    }
}

/// Hands over a share of what a variable holds.
pub(crate) fn hand_over_held(
    alloc: Global,
    found: Option<Option<&Bytes>>,
    message: &mut SeryugoBytes,
) -> u32
    ensures { HandsHeld (option_map option_copied found.entry) result message.old message.new }
{
    match found {
        Some(Some(held)) => hand_over_share(alloc, held, message),
        Some(None) => Code::Nothing.number(),
        None => Code::NoSuch.number(),
    }
}

fn hand_over_share(alloc: Global, held: &Bytes, message: &mut SeryugoBytes) -> u32
    ensures { HandsShare held.now result message.old message.new }
{
    if held.len() <= IN_PLACE {
        show_short(held.as_slice(), message);
        return Code::Done.number();
    }
    match held.clone() {
        Ok(share) => hand_over_new(alloc, share, message),
        Err(_) => Code::NoMemory.number(),
    }
}

/// Hands over a message, unless it is long, and there is no memory to keep it.
pub(crate) fn hand_over_new(alloc: Global, given: Bytes, message: &mut SeryugoBytes) -> u32
    ensures { HandsShare given result message.old message.new }
{
    if given.len() <= IN_PLACE {
        show_short(given.as_slice(), message);
        return Code::Done.number();
    }
    let Ok(block) = new_block(alloc) else {
        return Code::NoMemory.number();
    };
    keep_long(block, given, message);
    Code::Done.number()
}

/// Memory in which a message is kept.
#[inline(never)]
pub(crate) fn new_block(alloc: Global) -> Result<Box<Held>, AllocError> {
    Ok(Box::new(alloc, Held { bytes: None })?)
}

/// Hands a message over. A long one is kept in the spare block, whose memory was there before the message was taken. A short one
/// leaves the block there.
#[inline(always)]
pub(crate) fn hand_over(spare: &mut Option<Box<Held>>, message: Bytes, to: &mut SeryugoBytes)
    requires { IsSome spare.old }
    ensures { IsHanded message to.new }
{
    if message.len() <= IN_PLACE {
        return show_short(message.as_slice(), to);
    }
    match spare.take() {
        Some(block) => keep_long(block, message, to),
        None => unreachable!(),
    }
}

/// Keeps a long message in the block, and writes where it is.
#[inline(never)]
fn keep_long(mut block: Box<Held>, message: Bytes, to: &mut SeryugoBytes)
    requires { 78 < length message }
    ensures { IsHanded message to.new }
{
    let (at, length) = place_of(message.as_slice());
    *block = Held {
        bytes: Some(message),
    };
    to.length = length;
    to.block = at;
    to.owner = Keeper::new(block).into_slot();
}

/// Writes a short message into the struct. What keeps a long one isn't read then, and is left as it was.
#[inline]
pub(crate) fn show_short(bytes: &[u8], to: &mut SeryugoBytes)
    requires { length bytes.now ≤ 78 }
    ensures { IsHanded bytes.now to.new }
{
    to.in_place[..bytes.len()].copy_from_slice(bytes);
    to.length = bytes.len();
    to.block = ptr::null();
}
