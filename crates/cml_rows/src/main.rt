//! Performs tables of calls on a board, a floor or a hall: it writes each line of standard input again, with its outcome
//! after `: `. A call that ran out of memory is made once more, and the line then says so. With the word `texts` the
//! messages are texts, the digits of the tables' numbers. With the word `cut` or `take` the journal is cut after each line
//! if it can be. `cut` drops its entries; `take` keeps them, and in the end checks them piece by piece. With `cut_open` or
//! `take_open` it is cut after each line, also while lanes and feeds are open. With `file PATH` it performs a journal's lines on a
//! switchboard in a file of numbers, and with `file PATH bytes` in one of bytes.
#![tactic(auto)]

mod cutting;
mod facts;
mod feeding;
mod floors;
mod fussy;
mod ground;
mod ground_table;
mod halls;
mod kept;
mod moving;
mod numbered;
mod outcome;
mod performing;
mod rings;
mod table;
mod told;
mod words;

use cml_board::{Bytes, Text};
use cutting::Way;
use fussy::Fussy;
use numbered::{Maker, Numbered};
use std::alloc::AllocError;
use std::process::ExitCode;
use std::sync::atomic::AtomicU64;
use std::{env, io};
use told::Told;

/// The program's order: the kind of messages, and the kind of cuts.
#[derive(Clone, Copy)]
struct Order {
    messages: Messages,
    way: Option<Way>,
}

/// The kind of messages.
#[derive(Clone, Copy)]
enum Messages {
    Blocks,
    Texts,
}

fn main(rt: HostRuntime) -> io::Result<ExitCode> {
    let words = env::args(&rt)?.collect::<Vec<String>>(rt.alloc())?;
    match words.get(1..).unwrap_or(&[]) {
        [word, path] if word.as_str() == "file" => {
            kept::open::<u64, HostRuntime>(&rt, path.as_str())?;
        }
        [word, path, _] if word.as_str() == "file" => {
            kept::open::<Bytes, HostRuntime>(&rt, path.as_str())?;
        }
        words => return perform_tables(&rt, words),
    }
    Ok(ExitCode::SUCCESS)
}

fn perform_tables(rt: &HostRuntime, words: &[String]) -> io::Result<ExitCode> {
    let Some(order) = order_of(words) else {
        eprintln!(rt; "usage: cml_rows [texts] [cut | take | cut_open | take_open]")?;
        eprintln!(rt; "       cml_rows file FILE [bytes]")?;
        return Ok(ExitCode::from(2));
    };
    match order.messages {
        Messages::Blocks => perform_blocks(rt, order.way)?,
        Messages::Texts => perform_texts(rt, order.way)?,
    }
    Ok(ExitCode::SUCCESS)
}

fn order_of(words: &[String]) -> Option<Order> {
    match words.split_first() {
        Some((word, rest)) if word.as_str() == "texts" => with_cuts(Messages::Texts, rest),
        _ => with_cuts(Messages::Blocks, words),
    }
}

fn with_cuts(messages: Messages, words: &[String]) -> Option<Order> {
    let way = match words {
        [] => None,
        [word] => Some(Way::of_word(word.as_str())?),
        _ => return None,
    };
    Some(Order { messages, way })
}

fn perform_blocks(rt: &HostRuntime, way: Option<Way>) -> io::Result<()> {
    let live = AtomicU64::new(0);
    let first = Fussy::new(rt.alloc(), &live, 0)?;
    perform(rt, &Maker::new(rt.alloc(), first), way)
}

fn perform_texts(rt: &HostRuntime, way: Option<Way>) -> io::Result<()> {
    let first = Text::of_number(rt.alloc(), 0)?;
    perform(rt, &Maker::new(rt.alloc(), first), way)
}

/// Performs all cases of standard input.
fn perform<M: Numbered>(rt: &HostRuntime, maker: &Maker<M>, way: Option<Way>) -> io::Result<()> {
    let mut case = Vec::new(rt.alloc());
    for line in rt.lines(rt.alloc()) {
        let line = line?;
        if line.starts_with("==") {
            perform_case(rt, maker, case.as_slice(), way)?;
            case.clear();
        }
        case.push(line)?;
    }
    perform_case(rt, maker, case.as_slice(), way)
}

/// Performs the lines of one case, and reports messages that still live when all is dropped.
fn perform_case<M: Numbered, R: Print>(
    rt: &R,
    maker: &Maker<M>,
    lines: &[String],
    way: Option<Way>,
) -> io::Result<()> {
    let told = told_of(maker, lines, way)?;
    print!(rt; "{told}")
}

fn told_of<M: Numbered>(
    maker: &Maker<M>,
    lines: &[String],
    way: Option<Way>,
) -> Result<String, AllocError> {
    let mut told = Told::new(maker.alloc);
    perform_begun(&mut told, maker, lines, way);
    let live = maker.live();
    if live > 0 {
        told.say("live in the end: ");
        told.show(&live);
        told.say("\n");
    }
    told.end()
}

/// Performs the lines of one case on the board, floor or hall that its first line begins.
fn perform_begun<M: Numbered>(
    told: &mut Told,
    maker: &Maker<M>,
    lines: &[String],
    way: Option<Way>,
) {
    match beginning(lines) {
        Some("floor") => floors::perform(told, maker, lines, way),
        Some("hall") => halls::perform(told, maker, lines, way),
        _ => table::perform(told, maker, lines, way),
    }
}

/// The first word of the first line that asks for something.
fn beginning(lines: &[String]) -> Option<&str> {
    let line = words::first_line(lines)?;
    let (line, _) = line.split_once(':').unwrap_or((line, ""));
    let (word, _) = line.split_once(' ').unwrap_or((line, ""));
    Some(word)
}
