//! A caller that records what it makes. It performs the first threads of some scripts alone. The test compares how each ended
//! and, if all was done, its journal.
ghost use Rattle.std.specs.Prelude.{◌≤◌, ◌^◌};

mod performing;
mod rings;
mod teller;

use super::same;
use cml_board::{Entry, Text};
use cml_script::{Stop, read_script};
use performing::{Performed, perform};
use std::alloc::{AllocError, Global};
use std::test::Fail;

/// A script, how many entries its journal takes, and what its first thread ends as.
struct Case {
    name: &'static str,
    script: &'static str,
    limit: u64,
    told: &'static str,
}

/// A thread that sends more by a lane than the lane has room for, and receives one message. It also polls a feed with room
/// for one, before it is owed anything and for each of two. And another thread's step, which is not performed.
const NUMBERS: &str = "cml 1\nmailbox m\nchannel c\nthread A\nthread B\nfeed A f c 1\nlane A m 2\n\
    A send m 5\nA send m 6\nA send m 7\nA recv m\n\
    A poll f\nA multicast c 8\nA multicast c 9\nA poll f\nA poll f\nB send m 1\n";

const NUMBERS_DONE: &str = "Seat(0) NewMailbox Made(Name(0))
Seat(0) NewChannel Made(Name(1))
Feed(0) NewPort(Name(1)) Made(Name(2))
Lane(0) Send(Name(0), \"5\") Done
Lane(0) Send(Name(0), \"6\") Done
Lane(0) Send(Name(0), \"7\") Done
Seat(1) Recv(Name(0)) Got(\"5\")
Seat(1) Cast(Name(1), \"8\") Done
Seat(1) Cast(Name(1), \"9\") Done
Feed(0) Recv(Name(2)) Got(\"8\")
Feed(0) Recv(Name(2)) Got(\"9\")
";

/// The scene with words: a thread with a lane and a variable that holds a message from the beginning.
const WORDS: &str = "cml 2\nmailbox m\nmvar v 05\nthread A\nlane A m 1\n\
    A send m =\nA send m done\nA swap v A\nA recv m\nA get v\n";

const WORDS_DONE: &str = "Seat(0) NewMailbox Made(Name(0))
Seat(0) MVarInit(\"05\") Made(Name(1))
Lane(0) Send(Name(0), \"=\") Done
Lane(0) Send(Name(0), \"done\") Done
Seat(1) Swap(Name(1), \"A\") Got(\"05\")
Seat(1) Recv(Name(0)) Got(\"=\")
Seat(1) Get(Name(1)) Got(\"A\")
";

const CASES: &[Case] = &[
    Case {
        name: "numbers",
        script: NUMBERS,
        limit: 100,
        told: NUMBERS_DONE,
    },
    Case {
        name: "a declared object is refused",
        script: NUMBERS,
        limit: 2,
        told: "undeclared: JournalFull",
    },
    Case {
        name: "the drain of the full lane is refused",
        script: NUMBERS,
        limit: 3,
        told: "Ok(Full)",
    },
    Case {
        name: "the pump for the last poll is refused",
        script: NUMBERS,
        limit: 10,
        told: "Ok(Full)",
    },
    Case {
        name: "words",
        script: WORDS,
        limit: 100,
        told: WORDS_DONE,
    },
];

#[test]
fn performs_the_first_threads_of_scripts(rt: HostRuntime) -> Result<(), Fail> {
    for case in CASES.iter() {
        same(&rt, told(rt.alloc(), case)?, case.told, case.name);
    }
    Ok(())
}

/// Performs a script's first thread, and tells what comes of it.
fn told(alloc: Global, case: &Case) -> Result<String, AllocError> {
    match performed_of(alloc, case.script, case.limit.max(1).min(4_294_967_296)) {
        Some(performed) => shown(alloc, &performed),
        None => String::from_str(alloc, "nothing"),
    }
}

/// What becomes of a script, unless memory or the script is at fault.
fn performed_of(alloc: Global, script: &str, limit: u64) -> Option<Performed>
    requires least { 1 ≤ limit }
    requires most { limit ≤ 2 ^ 32 }
{
    let script = read_script(alloc, script.as_bytes()).ok()?;
    perform(alloc, &script, limit).ok()
}

/// How it ended, or its journal if all was done.
fn shown(alloc: Global, performed: &Performed) -> Result<String, AllocError> {
    match performed {
        Err((_, refusal)) => format!(in alloc; "undeclared: {refusal:?}"),
        Ok((teller, Ok(Stop::Done))) => shown_journal(alloc, teller.board().journal()),
        Ok((_, stop)) => format!(in alloc; "{stop:?}"),
    }
}

fn shown_journal(alloc: Global, journal: &[Entry<Text>]) -> Result<String, AllocError> {
    let mut text = String::new(alloc);
    add_entries(&mut text, journal)?;
    Ok(text)
}

fn add_entries(text: &mut String, journal: &[Entry<Text>]) -> Result<(), AllocError> {
    for Entry { who, call, reply } in journal.iter() {
        writeln!(text, "{who:?} {call:?} {reply:?}")?;
    }
    Ok(())
}
