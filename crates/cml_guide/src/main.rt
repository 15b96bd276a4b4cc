//! Short examples of calls, each of which prints its result. `docs/GUIDE.md` quotes them, word for word.
#![tactic(auto)]

mod boards;
mod calls;
mod clients;
mod examples;
mod journals;
mod lanes;
mod passing;
mod requests;
mod rooms;
mod server;
mod sinks;
mod threads;

use std::alloc::Global;
use std::fmt::Debug;
use std::io;
use std::sync::Wait;
use std::thread::Threads;

/// Prints each example's name and its result.
macro_rules! show_each {
    ($rt:ident, $arguments:tt; $($module:ident::$example:ident),+) => {{
        $(show($rt, concat!(stringify!($module), "::", stringify!($example)), $module::$example $arguments)?;)+
        Ok(())
    }};
}

fn main(rt: HostRuntime) -> io::Result<()> {
    show_boards(&rt)?;
    show_rest(&rt)?;
    show_threads(&rt, rt.alloc())
}

/// Prints the result of an example.
fn show<R: Print, T: Debug + Drop>(rt: &R, name: &str, outcome: T) -> io::Result<()> {
    println!(rt; "{name}: {outcome:?}")
}

fn show_boards(rt: &HostRuntime) -> io::Result<()> {
    show_each!(rt, (rt.alloc()); boards::in_order, boards::received_later, boards::counted)
}

fn show_rest(rt: &HostRuntime) -> io::Result<()> {
    show_each!(rt, (rt.alloc());
        requests::kept, journals::restored, rooms::received_in_turn)
}

fn show_threads<R: Threads + Wait + Sync + Print>(rt: &R, alloc: Global) -> io::Result<()> {
    show_each!(rt, (rt, alloc);
        passing::passed_on, lanes::collected, server::ran_on, sinks::counted_by_four)
}
