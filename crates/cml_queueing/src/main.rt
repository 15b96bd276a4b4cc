//! `cml_queueing`: customers, a line and servers, simulated on one board. It writes how long customers waited, the board's journal,
//! or a report of the first hundred events.
#![tactic(auto)]

mod asked;
mod decimal;
mod demand;
mod ending;
mod exponential;
mod figures;
mod keeper;
mod performing;
mod report;
mod simulating;
mod simulation;
mod station;

use asked::asked_by;
use cml_grammar::shell::{NoOrder, end, words};
use ending::Ending;
use performing::perform;
use std::process::ExitCode;

fn main(rt: HostRuntime) -> ExitCode {
    let ended = obey(&rt);
    ExitCode::from(end(&rt, "cml_queueing", ended))
}

/// Does what the program's words ask for.
fn obey(rt: &HostRuntime) -> Result<Ending, NoOrder> {
    let alloc = rt.alloc();
    let words = words(rt)?;
    let asked = asked_by(alloc, words.as_slice())?;
    match perform(alloc, &asked, &mut rt.stdout()) {
        Ok(_simulation) => Ok(Ending::Done),
        Err(ending) => Ok(ending),
    }
}
