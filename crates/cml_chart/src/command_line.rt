//! The words of the command line, by `clap`, which also writes the help.
ghost use Rattle.std.specs.Prelude.{◌≡◌, map, codes, IfOk, false};
ghost use Rattle.clap.specs.Words.{app_of, found_of, new_app, FailsBy, rows_of, rule_of};
ghost use Rattle.cml_chart.specs.{drawing_usage, usage, faults_of, options_in, text_rule, numbered_rule, script_rule, IsAsked};

use clap::{Arg, ArgAction, ArgMatches, Command, Error, value_parser};
use std::alloc::{AllocError, Global};
use std::convert::AsStr;

const ABOUT: &str =
    "Draws the report or the journal on standard input as a sequence chart, on standard output";

const LONG_ABOUT: &str =
    "Draws the report or the journal on standard input as a sequence chart, on standard output.

The chart has a column for each thread, lane, feed and object, and a row for each line of the
report's first part: an arrow between the column of who did it and that of the object. An arrow is
dashed if a call found nothing. Under each object is how it was left, and at the foot how the
run ended. A report of cml run or cml replay is such a report.

A journal, as cml check takes it, is drawn too. Its seats are seat0, seat1 and so on, and its objects
mailbox0, channel1 and so on, by their numbers. The journal must be lawful.

With --script the chart has a column for each thread of the script. Under each thread that has steps
left is its next step: the one after the last that the report has.

It is drawn as SVG, or with --text as lines of text.";

const AFTER_HELP: &str = "Example:
  cml run < chat_room.cml | cml_chart --script chat_room.cml > chat_room.svg

Exit status:
  0  the chart was written (also for help)
  2  the input is no report and no journal, or not one of the script: standard error names the
     first line that isn't one of it; or the script has a fault
  3  the words of the command line are not understood
  4  standard input or the script can't be read, or standard output can't be written
  5  no memory
  7  the journal is not lawful";

/// How a report is to be drawn, and which of its rows.
#[derive(Clone, Copy)]
pub(crate) struct Order<'a> {
    /// As lines of text, and not as SVG.
    pub(crate) text: bool,
    /// The first row, from 1. Without it, the first of all.
    pub(crate) from: Option<u64>,
    /// The last row. Without it, at most 500 rows are drawn.
    pub(crate) to: Option<u64>,
    /// The file with the script that the report is of.
    pub(crate) script: Option<&'a str>,
}

/// What the program's words ask for. The first word is the program's own name.
pub(crate) fn order_of<'a, S: AsStr>(alloc: Global, words: &'a [S]) -> Result<Order<'a>, Error>
    ensures fails { FailsBy (faults_of (map S.text words.now)) result }
    ensures asked { IfOk result (λ order. IsAsked (options_in (map S.text words.now)) order) }
{
    let matches = matches(alloc, words)?;
    Ok(order_in(&matches))
}

fn matches<'a, S: AsStr>(alloc: Global, words: &'a [S]) -> Result<ArgMatches<'a>, Error>
    ensures fails { FailsBy (faults_of (map S.text words.now)) result }
    ensures found { IfOk result (λ matches. rows_of (found_of matches) ≡ options_in (map S.text words.now)) }
{
    command(alloc)?.try_get_matches_from(words)
}

/// What the program's words ask for, once they are understood.
fn order_in<'a>(matches: &ArgMatches<'a>) -> Order<'a>
    ensures { IsAsked (rows_of (found_of matches.now)) result }
{
    Order {
        text: matches.get_flag("text"),
        from: matches.get_one::<u64>("from"),
        to: matches.get_one::<u64>("to"),
        script: matches.get_str("script"),
    }
}

fn command<'a>(alloc: Global) -> Result<Command<'a>, AllocError>
    ensures { IfOk result (λ command. app_of command ≡ usage) }
{
    drawing_command(alloc)?.arg(script(alloc))
}

/// The program with the options of how a report is to be drawn.
fn drawing_command<'a>(alloc: Global) -> Result<Command<'a>, AllocError>
    ensures { IfOk result (λ command. app_of command ≡ drawing_usage) }
{
    bare_command(alloc)
        .arg(text(alloc))?
        .arg(numbered(alloc, "from", "K", "The first row that is drawn, from 1"))?
        .arg(numbered(
            alloc,
            "to",
            "L",
            "The last row that is drawn; without it 500 rows at the most",
        ))
}

/// The program without an option.
fn bare_command<'a>(alloc: Global) -> Command<'a>
    ensures { app_of result ≡ new_app (codes "cml_chart") }
{
    Command::new(alloc, "cml_chart")
        .about(ABOUT)
        .long_about(LONG_ABOUT)
        .after_help(AFTER_HELP)
}

fn text<'a>(alloc: Global) -> Arg<'a>
    ensures { (rule_of result ≡ text_rule) × (result.global ≡ false) }
{
    Arg::new(alloc, "text")
        .long("text")
        .action(ArgAction::SetTrue)
        .help("Draws lines of text in place of SVG")
}

/// An option whose value is the number of a row.
fn numbered<'a>(alloc: Global, name: &'a str, value: &'a str, help: &'a str) -> Arg<'a>
    ensures { (rule_of result ≡ numbered_rule name.now) × (result.global ≡ false) }
{
    Arg::new(alloc, name)
        .long(name)
        .value_parser(value_parser!(u64).range(1..=4_294_967_296))
        .value_name(value)
        .help(help)
}

fn script<'a>(alloc: Global) -> Arg<'a>
    ensures { (rule_of result ≡ script_rule) × (result.global ≡ false) }
{
    Arg::new(alloc, "script")
        .long("script")
        .value_name("FILE")
        .help("The script that the report is of: shows the next step of each thread")
}
