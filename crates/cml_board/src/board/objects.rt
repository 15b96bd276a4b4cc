//! What a call does to the objects of a board, by their names.
ghost use Rattle.std.specs.Prelude.{◌≡◌, ◌-◌, ◌%◌, ◌<◌, ◌≤◌, ◌++◌, ◌∷◌, [], false, Some, OnOk, OnErr, IfOk, slice_get};
ghost use Rattle.cml_log.specs.Log.{Log};
ghost use Rattle.cml_log.specs.{empty_log, next_of, owed_items, place_of};
ghost use Rattle.cml_board.specs.declared.object.Object.TheVariants.{Channel, Variable};
ghost use Rattle.cml_board.specs.{HasSource, AddsMade, seen_all, log_at, on_log, pushed, advanced, HasLog, HasRoomAt, HasCursor, HasOwed};
ghost use Rattle.cml_board.specs.{HasPort, HasVariable, AddsMailbox, AddsPort, ClosesPort, SetsHeld};

use super::note::Making;
use crate::call::Name;
use crate::message::Message;
use crate::object::{self, Form, Object, Port, Reading};
use cml_log::{Back, Key, MessageLog};
use std::alloc::{AllocError, Global};

#[inline]
pub fn log_at<M, L: MessageLog<M>>(objects: &Vec<Object<M, L>>, name: Name) -> &L
    requires { HasLog (seen_all L.log objects.now.items) name.0 }
    ensures { log_at (seen_all L.log objects.now.items) name.0 ≡ Some (L.log result.now) }
{
    object::log_in(&objects[name.0 as usize])
}

/// Adds a message to a log. If it fails, it returns the message.
#[inline(always)]
pub fn push_at<M, L: MessageLog<M>>(
    objects: &mut Vec<Object<M, L>>,
    name: Name,
    message: M,
) -> Result<(), Back<M>>
    requires { HasRoomAt (seen_all L.log objects.old.items) name.0 }
    ensures ok { OnOk result
        (seen_all L.log objects.new.items ≡ on_log (pushed L.CHUNK message) (seen_all L.log objects.old.items) name.0) }
    ensures err { OnErr result (seen_all L.log objects.new.items ≡ seen_all L.log objects.old.items) }
    ensures refused { OnErr result
        ((log : Log M) → log_at (seen_all L.log objects.old.items) name.0 ≡ Some log → next_of log % L.CHUNK ≡ L.CHUNK - 1) }
{
    object::push(&mut objects[name.0 as usize], message)
}

/// Takes the message at a cursor's place out of a log, and moves the cursor past it. `noted` is equal to it.
#[inline(always)]
pub fn take_at<M: Message, L: MessageLog<M>>(
    objects: &mut Vec<Object<M, L>>,
    alloc: Global,
    name: Name,
    key: Key,
    noted: &M,
) -> Result<M, AllocError>
    requires owed { HasOwed (seen_all L.log objects.old.items) name.0 key }
    requires first { (log : Log M) → log_at (seen_all L.log objects.old.items) name.0 ≡ Some log
        → slice_get (owed_items log key) 0 ≡ Some noted.now }
    ensures same { IfOk result (λ message. message ≡ noted.now) }
    ensures ok { OnOk result
        (seen_all L.log objects.new.items ≡ on_log (advanced L.CHUNK key) (seen_all L.log objects.old.items) name.0) }
    ensures err { OnErr result (seen_all L.log objects.new.items ≡ seen_all L.log objects.old.items) }
    ensures sure { OnErr result (M.SURE ≡ false) }
{
    object::take(&mut objects[name.0 as usize], alloc, key, noted)
}

fn add_mailbox<M, L: MessageLog<M>>(
    objects: &mut Vec<Object<M, L>>,
    alloc: Global,
) -> Result<(), AllocError>
    ensures ok { OnOk result (AddsMailbox (seen_all L.log objects.old.items) (seen_all L.log objects.new.items)) }
    ensures err { OnErr result (seen_all L.log objects.new.items ≡ seen_all L.log objects.old.items) }
{
    objects.reserve(1)?;
    let mut log = L::new(alloc)?;
    let key = log.open_cursor()?;
    objects.push_reserved(Object::Mailbox(log, key));
    Ok(())
}

fn add_channel<M, L: MessageLog<M>>(
    objects: &mut Vec<Object<M, L>>,
    alloc: Global,
) -> Result<(), AllocError>
    ensures ok { OnOk result (seen_all L.log objects.new.items ≡ seen_all L.log objects.old.items ++ Channel empty_log ∷ []) }
    ensures err { OnErr result (seen_all L.log objects.new.items ≡ seen_all L.log objects.old.items) }
{
    objects.reserve(1)?;
    let log = L::new(alloc)?;
    objects.push_reserved(Object::Channel(log));
    Ok(())
}

/// Adds a port at the end of a channel.
fn add_port<M, L: MessageLog<M>>(
    objects: &mut Vec<Object<M, L>>,
    channel: Name,
) -> Result<(), AllocError>
    requires { HasLog (seen_all L.log objects.old.items) channel.0 }
    ensures ok { OnOk result (AddsPort (seen_all L.log objects.old.items) (seen_all L.log objects.new.items) channel.0 next_of) }
    ensures err { OnErr result (seen_all L.log objects.new.items ≡ seen_all L.log objects.old.items) }
{
    objects.reserve(1)?;
    let source = &mut objects[channel.0 as usize];
    let start = object::log_in(source).next();
    let key = object::open_cursor(source)?;
    let reading = Reading::Open(key);
    objects.push_reserved(Object::Port(Port {
        channel,
        start,
        reading,
    }));
    Ok(())
}

/// Adds a port at the place of a cursor of its channel.
fn add_copy<M, L: MessageLog<M>>(
    objects: &mut Vec<Object<M, L>>,
    channel: Name,
    key: Key,
) -> Result<(), AllocError>
    requires { HasCursor (seen_all L.log objects.old.items) channel.0 key }
    ensures ok { OnOk result
        (AddsPort (seen_all L.log objects.old.items) (seen_all L.log objects.new.items) channel.0 (λ log. place_of log key)) }
    ensures err { OnErr result (seen_all L.log objects.new.items ≡ seen_all L.log objects.old.items) }
{
    objects.reserve(1)?;
    let source = &mut objects[channel.0 as usize];
    let start = object::log_in(source).place(key);
    let copy = object::copy_cursor(source, key)?;
    let reading = Reading::Open(copy);
    objects.push_reserved(Object::Port(Port {
        channel,
        start,
        reading,
    }));
    Ok(())
}

/// Closes a port. From then on it records how many messages it had received.
pub fn close_port<M: Drop, L: MessageLog<M>>(
    objects: &mut Vec<Object<M, L>>,
    name: Name,
    channel: Name,
    start: u64,
    key: Key,
)
    requires { HasPort (seen_all L.log objects.old.items) name.0 channel.0 start key }
    ensures { ClosesPort L.CHUNK (seen_all L.log objects.old.items) (seen_all L.log objects.new.items) name.0 channel.0 start key }
{
    let source = &mut objects[channel.0 as usize];
    let received = object::log_in(source).place(key) - start;
    object::shut(source, key);
    let reading = Reading::Closed(received);
    objects[name.0 as usize] = Object::Port(Port {
        channel,
        start,
        reading,
    });
}

/// Adds a variable that holds this.
pub fn add_variable<M: Drop, L: MessageLog<M>>(
    objects: &mut Vec<Object<M, L>>,
    form: Form,
    held: Option<M>,
) -> Result<(), AllocError>
    ensures ok { OnOk result (seen_all L.log objects.new.items ≡ seen_all L.log objects.old.items ++ Variable form held ∷ []) }
    ensures err { OnErr result (seen_all L.log objects.new.items ≡ seen_all L.log objects.old.items) }
{
    objects.reserve(1)?;
    objects.push_reserved(Object::Variable(form, held));
    Ok(())
}

/// Adds the object that a call makes.
pub fn add_made<M: Drop, L: MessageLog<M>>(
    objects: &mut Vec<Object<M, L>>,
    alloc: Global,
    making: Making,
) -> Result<(), AllocError>
    requires { HasSource (seen_all L.log objects.old.items) making }
    ensures ok { OnOk result (AddsMade making (seen_all L.log objects.old.items) (seen_all L.log objects.new.items)) }
    ensures err { OnErr result (seen_all L.log objects.new.items ≡ seen_all L.log objects.old.items) }
{
    match making {
        Making::Mailbox => add_mailbox(objects, alloc),
        Making::Channel => add_channel(objects, alloc),
        Making::Port(channel) => add_port(objects, channel),
        Making::Copy(_, channel, key) => add_copy(objects, channel, key),
        Making::Variable(form) => add_variable(objects, form, None),
    }
}

/// Gives a variable another value, or none, and returns what it held.
pub fn hold_at<M, L: MessageLog<M>>(
    objects: &mut Vec<Object<M, L>>,
    name: Name,
    value: Option<M>,
) -> Option<M>
    requires { HasVariable (seen_all L.log objects.old.items) name.0 }
    ensures { SetsHeld (seen_all L.log objects.old.items) (seen_all L.log objects.new.items) name.0 result value }
{
    object::hold(&mut objects[name.0 as usize], value)
}
