//! Scripts of threads, run by threads of the system on a switchboard. What needs no thread is that of `cml_report` and
//! `cml_replay`.
#![tactic(auto)]

mod caller;
mod declaring;
mod gate;
mod rings;
mod running;
mod worker;
mod workers;

pub use caller::{Caller, Seated};
pub use cml_grammar::{Fault, Script, What, read_script};
pub use cml_replay::{
    play, replay, replay_journal, replay_text, reports_tell_what_is_left, schedules_are_one,
    scripts_have_a_schedule, stalled_threads_wait,
};
pub use cml_report::{
    Ending, Form, Plan, Played, Route, Stop, Tally, Verdict, audit, conclude, status_of,
};
pub use declaring::declare;
pub use gate::{Gate, OpenGate};
pub use running::{run, run_journal};
pub use worker::work;
pub use workers::{Ended, perform_in_threads};
