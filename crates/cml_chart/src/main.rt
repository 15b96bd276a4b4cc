//! `cml_chart`: draws the report on standard input as a sequence chart, on standard output.
#![tactic(auto)]

mod chart;
mod command_line;
mod drawing;
mod ending;
mod following;
mod journal;
mod marks;
mod picture;
mod plain;
mod plan;
mod report;
mod svg;

use cml_grammar::shell::{NoOrder, end, words};
use command_line::order_of;
use drawing::{draw, draw_by_script};
use ending::Ending;
use std::fs;
use std::io::ErrorKind;
use std::process::ExitCode;

fn main(rt: HostRuntime) -> ExitCode {
    let ended = obey(&rt);
    ExitCode::from(end(&rt, "cml_chart", ended))
}

/// Draws the report in the way that the program's words ask for, by the script in a file if they name one.
fn obey(rt: &HostRuntime) -> Result<Ending, NoOrder> {
    let alloc = rt.alloc();
    let words = words(rt)?;
    let order = order_of(alloc, words.as_slice())?;
    let (input, output) = (&mut rt.stdin(), &mut rt.stdout());
    let Some(path) = order.script else {
        return Ok(draw(alloc, None, input, output, &order));
    };
    Ok(match fs::open(rt, path) {
        Ok(mut script) => draw_by_script(alloc, &mut script, input, output, &order),
        Err(error) if error.kind() == ErrorKind::OutOfMemory => Ending::NoMemory,
        Err(_) => Ending::ScriptReadFault,
    })
}
