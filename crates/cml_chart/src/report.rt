//! Reports of runs: what a text says, line by line, and what is wrong with it. Each line is kept as a whole. All texts are
//! parts of the report that was read.
mod faults;
mod lines;
mod reading;

use cml_grammar::Verb;
pub(crate) use faults::{Fault, What};
pub(crate) use lines::{makes_port, replies_to};
pub(crate) use reading::read_report;

/// Who acts in a line of the first part: a thread by its name, a lane or a feed by its number.
#[derive(Clone, Copy)]
pub(crate) enum Actor<'a> {
    Thread(&'a str),
    Lane(&'a str),
    Feed(&'a str),
}

/// A line of the first part: what an actor did with an object, and the reply.
#[derive(Clone, Copy)]
pub(crate) struct Act<'a> {
    pub(crate) actor: Actor<'a>,
    pub(crate) verb: Verb,
    /// The step's word.
    pub(crate) word: &'a str,
    /// The object that is used, or the port that is made.
    pub(crate) object: &'a str,
    /// The message that is given, or the channel or port of which a port is made.
    pub(crate) with: Option<&'a str>,
    /// The reply's word, or the message that came: in version 2 with `=` before it.
    pub(crate) reply: &'a str,
    pub(crate) line: &'a str,
}

/// A line of the second part: an object, and its state at the end.
#[derive(Clone, Copy)]
pub(crate) struct Object<'a> {
    /// The kind's word.
    pub(crate) kind: &'a str,
    pub(crate) name: &'a str,
    pub(crate) line: &'a str,
}

/// The last line: how the run stopped.
#[derive(Clone, Copy)]
pub(crate) struct End<'a> {
    /// How the run stopped: `done`, `stalled`, `full` or `held`.
    pub(crate) stop: &'a str,
    pub(crate) line: &'a str,
}

/// A line of a report.
#[derive(Clone, Copy)]
pub(crate) enum Line<'a> {
    Act(Act<'a>),
    Object(Object<'a>),
    End(End<'a>),
}

/// A whole report.
#[derive(Drop)]
pub(crate) struct Report<'a> {
    pub(crate) acts: Vec<Act<'a>>,
    pub(crate) objects: Vec<Object<'a>>,
    pub(crate) end: End<'a>,
}
