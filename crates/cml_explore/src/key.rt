//! What two orders have alike that lead to one state.

use crate::walk::{Binding, Walk};
use cml_board::{Name, Text};
use cml_calls::Kind;
use std::alloc::{AllocError, Global};

/// The key of the state that a walk is at: how far each thread is, and what the object of each name has. Two walks of a script with
/// one key can go on alike, and end alike. Objects count by their names, since their numbers depend on the order.
pub(crate) fn key_of(alloc: Global, walk: &Walk<'_, '_>) -> Result<String, AllocError> {
    let mut key = String::new(alloc);
    add_counts(&mut key, &walk.counts)?;
    for at in 0..walk.bindings.len() {
        add_object(&mut key, walk, at)?;
    }
    Ok(key)
}

/// Adds how far each thread is.
fn add_counts(key: &mut String, counts: &[usize]) -> Result<(), AllocError> {
    for count in counts {
        if *count != 0 {
            write!(key, "{count}")?;
        }
        key.push_str(",")?;
    }
    Ok(())
}

/// Adds what the object of the name at this position has.
fn add_object(key: &mut String, walk: &Walk<'_, '_>, at: usize) -> Result<(), AllocError> {
    match walk.bindings.get(at) {
        Some(Binding::Made(object)) => {
            let object = *object;
            key.push_str(" ;")?;
            add_contents(key, walk, object)
        }
        Some(Binding::Closed(_)) => key.push_str(" ;closed"),
        Some(Binding::Unbound) | None => key.push_str(" ;"),
    }
}

/// Adds what this object has. How much was sent to it follows from how far the threads are.
fn add_contents(key: &mut String, walk: &Walk<'_, '_>, object: Name) -> Result<(), AllocError> {
    match walk.board.kind(object) {
        Some(Kind::Mailbox) => add_owed(key, walk, object),
        Some(Kind::Port) => {
            add_port(key, walk, object)?;
            add_owed(key, walk, object)
        }
        Some(Kind::IVar | Kind::MVar) => add_held(key, walk, object),
        Some(Kind::Channel) | None => Ok(()),
    }
}

/// Adds where a port starts. If it is closed, it is owed nothing, and how much it received counts.
fn add_port(key: &mut String, walk: &Walk<'_, '_>, port: Name) -> Result<(), AllocError> {
    let start = walk.board.start_of(port).unwrap_or(0);
    write!(key, " {start}")?;
    if walk.board.is_open(port) == Some(false) {
        let got = walk.board.got_count(port).unwrap_or(0);
        write!(key, " closed {got}")?;
    }
    Ok(())
}

/// Adds the messages that are still to be received, in order.
fn add_owed(key: &mut String, walk: &Walk<'_, '_>, object: Name) -> Result<(), AllocError> {
    for message in walk.board.share_owed(object)? {
        add_message(key, &message)?;
    }
    Ok(())
}

/// Adds what a variable holds.
fn add_held(key: &mut String, walk: &Walk<'_, '_>, variable: Name) -> Result<(), AllocError> {
    match walk.board.held(variable) {
        Some(Some(message)) => add_message(key, message),
        Some(None) | None => Ok(()),
    }
}

/// Adds a message. It has no space, and all that follows it begins with one. What is no message doesn't begin with `=`.
fn add_message(key: &mut String, message: &Text) -> Result<(), AllocError> {
    write!(key, " ={message}")
}
