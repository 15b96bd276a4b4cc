//! The objects of a board, and what a call does to one of them.
ghost use Rattle.std.specs.Prelude.{◌≡◌, ℕ, ◌-◌, ◌%◌, ◌<◌, length, false, Some, IsSome, OnOk, OnErr, IfOk, slice_get};
ghost use Rattle.std.specs.Option.{option_map};
ghost use Rattle.cml_log.specs.Log.{Log};
ghost use Rattle.cml_log.specs.{lent, next_of, IsOpen, place_of, owed_items, Opens};
ghost use Rattle.cml_board.specs.{map_log, log_in, cursor_in, held_in, with_held, pushed, advanced, shut, OpensIn, kind_by, variable_call};
ghost use Rattle.cml_board.specs.{begun_as};

use crate::call::{Call, Name};
use crate::message::Message;
use cml_calls::Kind;
use cml_log::{Back, Key, MessageLog};
use std::alloc::{AllocError, Global};
use std::mem;

/// An object: the messages of a mailbox or of a channel, a port, or a variable and what it holds.
#[derive(Drop)]
pub enum Object<M, L> {
    /// The cursor's place is that of the next message to be received.
    Mailbox(L, Key),
    Channel(L),
    Port(Port),
    Variable(Form, Option<M>),
}

/// A port of a channel, with the place of the first message that it receives.
#[derive(Clone, Copy)]
pub struct Port {
    pub channel: Name,
    pub start: u64,
    pub reading: Reading,
}

/// How a port reads its channel.
#[derive(Clone, Copy)]
pub enum Reading {
    /// By this cursor of the channel's log.
    Open(Key),
    /// Not any more: it was closed when it had received this many messages.
    Closed(u64),
}

/// How often a variable is filled.
#[derive(Clone, Copy)]
pub enum Form {
    /// An i-variable: once.
    Once,
    /// An m-variable: whenever it is empty, and it can be emptied.
    Mutable,
}

impl Form {
    pub fn kind(self) -> Kind
        ensures { result ≡ kind_by (begun_as self) }
    {
        match self {
            Form::Once => Kind::IVar,
            Form::Mutable => Kind::MVar,
        }
    }

    /// The call that makes an empty variable.
    pub fn call<M>(self) -> Call<M>
        ensures { result ≡ variable_call self }
    {
        match self {
            Form::Once => Call::NewIVar,
            Form::Mutable => Call::NewMVar,
        }
    }
}

/// The log of an object that has one.
#[inline]
pub fn log_in<M, L: MessageLog<M>>(object: &Object<M, L>) -> &L
    requires { IsSome (log_in (map_log L.log object.now)) }
    ensures { log_in (map_log L.log object.now) ≡ Some (L.log result.now) }
{
    match object {
        Object::Mailbox(log, _) => log,
        Object::Channel(log) => log,
        Object::Port(_) | Object::Variable(_, _) => unreachable!(),
    }
}

/// Adds a message to the object's log. If it fails, it returns the message.
#[inline(always)]
pub fn push<M, L: MessageLog<M>>(object: &mut Object<M, L>, message: M) -> Result<(), Back<M>>
    requires stands { IsSome (log_in (map_log L.log object.old)) }
    requires room { (log : Log M) → log_in (map_log L.log object.old) ≡ Some log → next_of log < 18446744073709551614 }
    ensures ok { OnOk result (map_log L.log object.new ≡ map_log (pushed L.CHUNK message) (map_log L.log object.old)) }
    ensures err { OnErr result (map_log L.log object.new ≡ map_log L.log object.old) }
    ensures refused { OnErr result
        ((log : Log M) → log_in (map_log L.log object.old) ≡ Some log → next_of log % L.CHUNK ≡ L.CHUNK - 1) }
{
    match object {
        Object::Mailbox(log, _) => log.push(message),
        Object::Channel(log) => log.push(message),
        Object::Port(_) | Object::Variable(_, _) => unreachable!(),
    }
}

/// A message equal to the one at a cursor's place.
#[inline(always)]
pub fn share_first<M: Message, L: MessageLog<M>>(
    log: &L,
    alloc: Global,
    key: Key,
) -> Result<M, AllocError>
    requires opened { IsOpen (L.log log.now) key }
    requires owed { 0 < length (owed_items (L.log log.now) key) }
    ensures copy { IfOk result (λ copy. slice_get (owed_items (L.log log.now) key) 0 ≡ Some copy) }
    ensures sure { OnErr result (M.SURE ≡ false) }
{
    match log.peek(key) {
        Some(message) => message.share(alloc),
        None => unreachable!(),
    }
}

/// Messages equal to those behind these references, in order.
pub fn share_each<M: Message>(alloc: Global, messages: &Vec<&M>) -> Result<Vec<M>, AllocError>
    ensures { IfOk result (λ shared. shared.items ≡ lent messages.now.items) }
{
    let mut shared = Vec::with_capacity(alloc, messages.len())?;
    for message in messages {
        shared.push_reserved(message.share(alloc)?);
    }
    Ok(shared)
}

// Moves the message at a cursor's place out of a log. If it owns no memory, or the log doesn't part with it, shares the equal one
// that was noted, and moves the cursor past it: a second look at the log would take longer.
#[inline(always)]
fn take_first<M: Message, L: MessageLog<M>>(
    log: &mut L,
    alloc: Global,
    key: Key,
    noted: &M,
) -> Result<M, AllocError>
    requires opened { IsOpen (L.log log.old) key }
    requires owed { 0 < length (owed_items (L.log log.old) key) }
    requires first { slice_get (owed_items (L.log log.old) key) 0 ≡ Some noted.now }
    ensures same { IfOk result (λ message. message ≡ noted.now) }
    ensures ok { OnOk result (L.log log.new ≡ advanced L.CHUNK key (L.log log.old)) }
    ensures err { OnErr result (L.log log.new ≡ L.log log.old) }
    ensures sure { OnErr result (M.SURE ≡ false) }
{
    if M::owns_memory()
        && let Some(message) = log.take(key)
    {
        return Ok(message);
    }
    let message = noted.share(alloc)?;
    log.advance(key);
    Ok(message)
}

/// Takes the message at a cursor's place out of the object's log, and moves the cursor past it. `noted` is equal to it. If another
/// cursor may still read that message, it returns an equal one.
#[inline(always)]
pub fn take<M: Message, L: MessageLog<M>>(
    object: &mut Object<M, L>,
    alloc: Global,
    key: Key,
    noted: &M,
) -> Result<M, AllocError>
    requires stands { IsSome (log_in (map_log L.log object.old)) }
    requires opened { (log : Log M) → log_in (map_log L.log object.old) ≡ Some log → IsOpen log key }
    requires owed { (log : Log M) → log_in (map_log L.log object.old) ≡ Some log → 0 < length (owed_items log key) }
    requires first { (log : Log M) → log_in (map_log L.log object.old) ≡ Some log
        → slice_get (owed_items log key) 0 ≡ Some noted.now }
    ensures same { IfOk result (λ message. message ≡ noted.now) }
    ensures ok { OnOk result (map_log L.log object.new ≡ map_log (advanced L.CHUNK key) (map_log L.log object.old)) }
    ensures err { OnErr result (map_log L.log object.new ≡ map_log L.log object.old) }
    ensures sure { OnErr result (M.SURE ≡ false) }
{
    match object {
        Object::Mailbox(log, _) => take_first(log, alloc, key, noted),
        Object::Channel(log) => take_first(log, alloc, key, noted),
        Object::Port(_) | Object::Variable(_, _) => unreachable!(),
    }
}

/// Closes a cursor of the object's log.
pub fn shut<M, L: MessageLog<M>>(object: &mut Object<M, L>, key: Key)
    requires stands { IsSome (log_in (map_log L.log object.old)) }
    requires opened { (log : Log M) → log_in (map_log L.log object.old) ≡ Some log → IsOpen log key }
    ensures { map_log L.log object.new ≡ map_log (shut L.CHUNK key) (map_log L.log object.old) }
{
    match object {
        Object::Mailbox(log, _) => log.close_cursor(key),
        Object::Channel(log) => log.close_cursor(key),
        Object::Port(_) | Object::Variable(_, _) => unreachable!(),
    }
}

/// Opens a cursor at the end of a channel's log.
pub fn open_cursor<M, L: MessageLog<M>>(object: &mut Object<M, L>) -> Result<Key, AllocError>
    requires stands { IsSome (log_in (map_log L.log object.old)) }
    ensures ok { IfOk result (λ key. OpensIn (map_log L.log object.old) (map_log L.log object.new) key next_of) }
    ensures err { OnErr result (map_log L.log object.new ≡ map_log L.log object.old) }
{
    match object {
        Object::Mailbox(log, _) => log.open_cursor(),
        Object::Channel(log) => log.open_cursor(),
        Object::Port(_) | Object::Variable(_, _) => unreachable!(),
    }
}

/// Opens a cursor of a channel's log at another cursor's place.
pub fn copy_cursor<M, L: MessageLog<M>>(
    object: &mut Object<M, L>,
    key: Key,
) -> Result<Key, AllocError>
    requires stands { IsSome (log_in (map_log L.log object.old)) }
    requires opened { (log : Log M) → log_in (map_log L.log object.old) ≡ Some log → IsOpen log key }
    ensures ok { IfOk result (λ copy. OpensIn (map_log L.log object.old) (map_log L.log object.new) copy (λ log. place_of log key)) }
    ensures err { OnErr result (map_log L.log object.new ≡ map_log L.log object.old) }
{
    match object {
        Object::Mailbox(log, _) => log.copy_cursor(key),
        Object::Channel(log) => log.copy_cursor(key),
        Object::Port(_) | Object::Variable(_, _) => unreachable!(),
    }
}

/// The object whose log the object of this name reads, and its cursor there.
#[inline]
pub fn cursor_in<M, L>(object: &Object<M, L>, name: Name) -> Option<(Name, Key)>
    ensures { option_map (λ cursor. (cursor.0.0, cursor.1)) result ≡ cursor_in name.0 object.now }
{
    match object {
        Object::Mailbox(_, key) => Some((name, *key)),
        Object::Channel(_) | Object::Variable(_, _) => None,
        Object::Port(port) => match port.reading {
            Reading::Open(key) => Some((port.channel, key)),
            Reading::Closed(_) => None,
        },
    }
}

/// Gives a variable another value, or none, and returns what it held.
pub fn hold<M, L>(object: &mut Object<M, L>, value: Option<M>) -> Option<M>
    requires { IsSome (held_in object.old) }
    ensures was { held_in object.old ≡ Some result }
    ensures now { object.new ≡ with_held value object.old }
{
    match object {
        Object::Variable(_, held) => mem::replace(held, value),
        Object::Mailbox(_, _) | Object::Channel(_) | Object::Port(_) => unreachable!(),
    }
}
