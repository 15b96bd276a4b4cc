//! `cml`: replays, runs or explores the script on standard input, or checks or compacts the journal there, and writes to standard
//! output what came of it.
#![tactic(auto)]

ghost use Rattle.std.specs.Prelude.{◌≡◌};
ghost use Rattle.cml.specs.{wanted_by};

mod asked;
mod check;
mod command_line;
mod ending;
mod progress;

use asked::Order;
use check::Wanted;
use cml_explore::{explore, explore_journal};
use cml_grammar::shell::{NoOrder, end, words};
use cml_script::{Form, OpenGate, replay, replay_journal, run, run_journal};
use command_line::order;
use ending::Ending;
use progress::{Heard, Person};
use std::process::ExitCode;
use std::sync::Wait;
use std::thread::Threads;

fn main(rt: HostRuntime) -> ExitCode {
    let ended = obey(&rt, &rt);
    ExitCode::from(end(&rt, "cml", ended))
}

/// Does what the program's words ask for, with threads from `system`.
fn obey<R: Threads + Wait + Sync>(rt: &HostRuntime, system: &R) -> Result<Ending, NoOrder> {
    let alloc = rt.alloc();
    let words = words(rt)?;
    let (input, output) = (&mut rt.stdin(), &mut rt.stdout());
    Ok(match order(alloc, words.as_slice())? {
        Order::Replay(limit, Form::Report) => {
            Ending::Performed(replay(alloc, input, output, limit))
        }
        Order::Replay(limit, Form::Journal) => {
            Ending::Performed(replay_journal(alloc, input, output, limit))
        }
        Order::Run(limit, Form::Report) => {
            Ending::Performed(run(system, alloc, input, output, limit, &OpenGate))
        }
        Order::Run(limit, Form::Journal) => {
            Ending::Performed(run_journal(system, alloc, input, output, limit, &OpenGate))
        }
        Order::Explore(states, Form::Report) => {
            Ending::Explored(explore(alloc, input, output, states))
        }
        Order::Explore(states, Form::Journal) => {
            Ending::Explored(explore_journal(alloc, input, output, states))
        }
        Order::Check(state) => check_input(rt, system, wanted(state)),
        Order::Compact => check_input(rt, system, Wanted::Compacted),
    })
}

/// Checks the journal on standard input. A person at a terminal sees how much is read.
fn check_input<S: Wait>(rt: &HostRuntime, system: &S, wanted: Wanted) -> Ending {
    let mut journal = Heard::new(rt.stdin(), Person::new(rt));
    let output = &mut rt.stdout();
    Ending::Checked(check::check(system, rt.alloc(), &mut journal, output, wanted))
}

/// What is wanted of a journal that is checked.
fn wanted(state: bool) -> Wanted
    ensures { result ≡ wanted_by state }
{
    if state {
        Wanted::State
    } else {
        Wanted::Verdict
    }
}
