//! The words of the command line, by `clap`, which also writes the help.
use clap::{Arg, ArgAction, ArgMatches, Command, Error, value_parser};
use std::alloc::{AllocError, Global};
use std::convert::AsStr;

const ABOUT: &str = "Simulates customers, a line and servers on one board";

const LONG_ABOUT: &str = "Simulates customers, a line and servers on one board.

Customers arrive at random, wait in one line, and are served in the order of their arrival. The times
between arrivals and the service times are exponential. Time is simulated: a run takes as long as the
processor needs. The same words give the same run.";

const AFTER_HELP: &str = "Examples:
  cml_queueing --servers 4 --load 0.7
  cml_queueing --servers 2 --arrivals 1.5 --service 1 --customers 500 --journal | cml check
  cml_queueing --servers 2 --load 0.8 --customers 500 --report | cml_chart --text

Exit status:
  0  the simulation ended (also for help)
  3  the words are not understood, or ask for what can't be simulated; standard error says which
  4  standard output can't be written
  5  no memory
  7  the board refused a call, or a customer was not served (this would be a bug)";

const LOAD_HELP: &str =
    "Arrivals in the time in which all servers together serve one customer: a decimal below 1";

const SERVICE_HELP: &str = "Customers that one server serves in it";

const JOURNAL_HELP: &str = "Writes the board's journal in place of the figures";

const REPORT_HELP: &str =
    "Writes a report of the first 100 events in place of the figures, for cml_chart";

/// What is written.
#[derive(Clone, Copy)]
pub(crate) enum Form {
    Figures,
    Journal,
    Report,
}

/// What the program's words ask for. Load and rates are still words.
#[derive(Clone, Copy)]
pub(crate) struct Asked<'a> {
    pub(crate) servers: u64,
    pub(crate) customers: u64,
    pub(crate) seed: u64,
    pub(crate) load: Option<&'a str>,
    pub(crate) arrivals: Option<&'a str>,
    pub(crate) service: Option<&'a str>,
    pub(crate) form: Form,
}

/// Returns what the program's words ask for. The first word is the program's own name.
pub(crate) fn asked_by<'a, S: AsStr>(alloc: Global, words: &'a [S]) -> Result<Asked<'a>, Error> {
    let matches = command(alloc)?.try_get_matches_from(words)?;
    Ok(asked_in(&matches))
}

fn asked_in<'a>(matches: &ArgMatches<'a>) -> Asked<'a> {
    Asked {
        servers: matches.get_one::<u64>("servers").unwrap_or(1),
        customers: matches.get_one::<u64>("customers").unwrap_or(0),
        seed: matches.get_one::<u64>("seed").unwrap_or(0),
        load: matches.get_str("load"),
        arrivals: matches.get_str("arrivals"),
        service: matches.get_str("service"),
        form: form_in(matches),
    }
}

fn form_in(matches: &ArgMatches<'_>) -> Form {
    if matches.get_flag("journal") {
        return Form::Journal;
    }
    if matches.get_flag("report") {
        return Form::Report;
    }
    Form::Figures
}

fn command<'a>(alloc: Global) -> Result<Command<'a>, AllocError> {
    add_forms(alloc, add_rates(alloc, add_counts(alloc, texts(alloc))?)?)
}

/// Returns a command without options.
fn texts<'a>(alloc: Global) -> Command<'a> {
    Command::new(alloc, "cml_queueing")
        .about(ABOUT)
        .long_about(LONG_ABOUT)
        .after_help(AFTER_HELP)
}

/// Adds the options whose values are whole numbers.
fn add_counts<'a>(alloc: Global, command: Command<'a>) -> Result<Command<'a>, AllocError> {
    command
        .arg(servers(alloc))?
        .arg(customers(alloc))?
        .arg(seed(alloc))
}

fn servers<'a>(alloc: Global) -> Arg<'a> {
    valued(alloc, "servers", "C", "How many servers there are")
        .value_parser(value_parser!(u64).range(1..=1_024))
        .default_value("1")
}

fn customers<'a>(alloc: Global) -> Arg<'a> {
    valued(alloc, "customers", "N", "How many customers arrive")
        .value_parser(value_parser!(u64).range(0..=1_000_000_000))
        .default_value("1000000")
}

fn seed<'a>(alloc: Global) -> Arg<'a> {
    valued(alloc, "seed", "S", "The seed of the random numbers")
        .value_parser(value_parser!(u64))
        .default_value("1")
}

/// Adds the options whose values are decimals.
fn add_rates<'a>(alloc: Global, command: Command<'a>) -> Result<Command<'a>, AllocError> {
    let command = add(command, load(alloc))?;
    let arrivals = valued(alloc, "arrivals", "RATE", "Arrivals in a unit of time");
    let command = add(command, arrivals.requires_arg("service"))?;
    let service = valued(alloc, "service", "RATE", SERVICE_HELP);
    add(command, service.requires_arg("arrivals"))
}

fn load<'a>(alloc: Global) -> Result<Arg<'a>, AllocError> {
    without_rates(valued(alloc, "load", "RHO", LOAD_HELP))
}

fn without_rates(load: Arg<'_>) -> Result<Arg<'_>, AllocError> {
    load.conflicts_with("arrivals")?.conflicts_with("service")
}

/// Adds an option that may lack memory. So one function alone drops a command early.
fn add<'a>(
    command: Command<'a>,
    arg: Result<Arg<'a>, AllocError>,
) -> Result<Command<'a>, AllocError> {
    command.arg(arg?)
}

/// Returns an option that has a value.
fn valued<'a>(alloc: Global, name: &'a str, value: &'a str, help: &'a str) -> Arg<'a> {
    named(alloc, name, help).value_name(value)
}

fn named<'a>(alloc: Global, name: &'a str, help: &'a str) -> Arg<'a> {
    Arg::new(alloc, name).long(name).help(help)
}

/// Adds the options that say what is written.
fn add_forms<'a>(alloc: Global, command: Command<'a>) -> Result<Command<'a>, AllocError> {
    let journal = flag(alloc, "journal", JOURNAL_HELP);
    let command = add(command, journal.conflicts_with("report"))?;
    command.arg(flag(alloc, "report", REPORT_HELP))
}

fn flag<'a>(alloc: Global, name: &'a str, help: &'a str) -> Arg<'a> {
    named(alloc, name, help).action(ArgAction::SetTrue)
}
