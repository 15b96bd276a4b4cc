//! The words of the command line, by `clap`, which also writes the help.
ghost use Rattle.std.specs.Prelude.{◌≡◌, ◌⊎◌, ◌≤◌, ◌^◌, ℕ, Bool, IfOk, IfErr, IfSome, IsErrAnd, MatchResult, Some, codes, false, map};
ghost use Rattle.clap.specs.Words.{app_of, found_of, FailsBy, kind_of, new_app, one_text, rule_of, subcommand_of, with_rule};
ghost use Rattle.clap.specs.Words.{subcommand_rows_of, with_subcommand};
ghost use Rattle.clap.specs.declared.builder.command.Command.TheViews.{out-Command as fields_of};
ghost use Rattle.cml_grammar.specs.{error_status};
ghost use Rattle.cml.specs.{usage, faults_of, form_if, limit_of, limit_rule, flag_rule, script_shape, performing, exploring, checking, compacting, AsksFor};
ghost use Rattle.cml.specs.{AsksHelp, Finds, FindsFlag, FindsLimit, HasOrder, Reads};

use crate::asked::Order;
use clap::error::ErrorKind;
use clap::{Arg, ArgAction, ArgMatches, Command, Error, value_parser};
use cml_script::Form;
use std::alloc::{AllocError, Global};
use std::convert::AsStr;

/// How many entries a journal takes where the words don't say it.
const DEFAULT_LIMIT: u64 = 65_536;

const DEFAULT_LIMIT_TEXT: &str = "65536";

/// How many states an exploration keeps where the words don't say it.
const DEFAULT_STATES: u64 = 500_000;

const DEFAULT_STATES_TEXT: &str = "500000";

const LIMIT_HELP: &str =
    "How many entries the journal of all that was done takes, from 1 to 4294967296";

const ABOUT: &str = "Performs a script of threads that send each other messages";

const LONG_ABOUT: &str = "Performs a script of threads that send each other messages.

A script declares mailboxes, channels, ports, variables and threads, and lists the steps that each
thread takes. Its messages are numbers where its first line is cml 1, and words where that is cml 2.
It is replayed one step at a time, with the same report each time, or it is run, each of its threads
as a thread of the operating system.";

const REPLAY_ABOUT: &str =
    "Replays the script on standard input and writes its report to standard output";

const REPLAY_LONG_ABOUT: &str =
    "Replays the script on standard input and writes its report to standard output.

It is replayed on one thread, always with the first step in text order that is its thread's next
and needn't wait. So the same script gives the same report each time.

A script with lanes or feeds needs threads: it is not replayed, but run. Messages are numbers in a
script whose first line is cml 1, and words of up to 64 bytes where that is cml 2; reports write =
before these.

The whole script is read and performed before anything is written.";

const RUN_ABOUT: &str =
    "Runs the script on standard input with real threads and writes its report to standard output";

const RUN_LONG_ABOUT: &str =
    "Runs the script on standard input with real threads and writes its report to standard output.

Each of the script's threads is a thread of the operating system, and all share one switchboard. So
the order of the report's lines differs from run to run.

Before anything is written the journal is audited against the script.";

const STATES_HELP: &str = "How many states are kept at most, from 1 to 4294967296";

const EXPLORE_ABOUT: &str =
    "Writes all endings that the script on standard input can have, in whatever order its threads go";

const EXPLORE_LONG_ABOUT: &str =
    "Writes all endings that the script on standard input can have, in whatever order its threads go.

Each thread's next step may be the next one, if it needn't wait. Two orders that leave each thread at
the same step, and all objects alike, lead to one state. An ending is how such orders end: done or
stalled, which step each thread waits at, and what a report says of the objects.

Each ending is written once, with its report and with the journal of the first order that leads to it.
The last line is all: and how many endings and states there are, or not all: if there are more states
than the limit. A script with lanes or feeds is not explored.";

const EXPLORE_JOURNAL_HELP: &str =
    "Writes only the journal of the first ending that isn't done, or of the first if all are done";

const CHECK_ABOUT: &str =
    "Checks whether the journal on standard input is a lawful history of one thread";

const CHECK_LONG_ABOUT: &str =
    "Checks whether the journal on standard input is a lawful history of one thread.

A journal is the text that cml replay --journal and cml run --journal write. It is read as it comes,
in memory for the objects, for what waits in them, and for one line.

It writes lawful N if all N entries are lawful. Otherwise it writes unlawful at K: and the first
entry that isn't, where K counts the entries before it, and answer: with the right answer to its
call.";

const COMPACT_ABOUT: &str =
    "Writes a short journal that leaves what the journal on standard input leaves";

const COMPACT_LONG_ABOUT: &str =
    "Writes a short journal that leaves what the journal on standard input leaves.

The short journal makes the same objects, with the same numbers. Then mailboxes and open ports are
owed the same messages, and variables hold the same. So whatever may follow the one journal may
follow the other, and each later call has the same answer.

It begins at nothing. It has an entry for each object and for each message that is still to be
received, and one for each of these that a faster port has received. One seat makes all of them. It
is written only if the journal that was read is whole and lawful.";

const JOURNAL_HELP: &str = "Writes the journal as text in place of the report";

const STATE_HELP: &str =
    "Writes the lines of the objects too, as a report has them, with numbers for names";

const AFTER_HELP: &str = "Example, hello.cml:
  cml 1
  mailbox letters
  thread Ann
  thread Ben
  Ben recv letters
  Ann send letters 5
  Ben poll letters

Its report, by cml replay < hello.cml:
  Ann send letters 5: done
  Ben recv letters: 5
  Ben poll letters: none
  mailbox letters: sent 1 got 1 waits 0
  end: done 3

Exit status:
  0  done: every step was performed (also for help)
  1  stalled: steps are left, and each of their threads waits
  2  the script or the journal has a fault, which standard error names
  3  the words of the command line are not understood
  4  standard input can't be read, or standard output can't be written
  5  no memory
  6  the journal is full
  7  the journal is not lawful (of a script this would be a bug)";

const EXPLORE_AFTER_HELP: &str = "Example, hello.cml:
  cml 1
  mailbox letters
  thread Ann
  thread Ben
  Ben poll letters
  Ann send letters 5

By cml explore < hello.cml:
  ending 1: done
  Ann send letters 5: done
  Ben poll letters: 5
  mailbox letters: sent 1 got 1 waits 0
  end: done 2
  journal 1
  seat 0 mailbox: made 0
  seat 1 send 0 5: done
  seat 2 poll 0: 5
  end 3
  ending 2: done
  Ben poll letters: none
  Ann send letters 5: done
  mailbox letters: sent 1 got 0 waits 1
  end: done 2
  journal 1
  seat 0 mailbox: made 0
  seat 2 poll 0: none
  seat 1 send 0 5: done
  end 3
  all: endings 2 states 5

Exit status:
  0  all endings were written, and each is done (also for help)
  1  all were written, and one is stalled
  2  the script has a fault, which standard error names
  3  the words of the command line are not understood
  4  standard input can't be read, or standard output can't be written
  5  no memory
  6  all were written, and at one the journal is full
  7  an ending is not lawful (this would be a bug)
  8  there are more states than the limit
With --journal it is 0, 1 or 6 as that ending is done, stalled or full.";

const CHECK_AFTER_HELP: &str = "Example, letters.journal:
  journal 1
  seat 0 mailbox: made 0
  seat 1 send 0 5: done
  seat 0 recv 0: 6
  end 3

By cml check < letters.journal:
  unlawful at 2: seat 0 recv 0: 6
  answer: 5

Exit status:
  0  the journal is lawful (also for help)
  2  the input is no journal, or it begins after a cut: standard error names the line
  3  the words of the command line are not understood
  4  standard input can't be read, or standard output can't be written
  5  no memory
  7  the journal is not lawful";

const COMPACT_AFTER_HELP: &str = "Example, letters.journal:
  journal 1
  seat 0 mailbox: made 0
  seat 1 send 0 5: done
  seat 1 send 0 7: done
  seat 0 recv 0: 5
  end 4

By cml compact < letters.journal:
  journal 1
  seat 1 mailbox: made 0
  seat 1 send 0 7: done
  end 2

Exit status:
  0  the short journal was written (also for help)
  2  the input is no journal, or it begins after a cut: standard error names the line. Or a line
     of the short journal would be too long
  3  the words of the command line are not understood
  4  standard input can't be read, or standard output can't be written
  5  no memory
  7  the journal is not lawful";

/// What the program's words ask for. The first word is the program's own name.
#[tactic(auto, using(crate::proofs::CommandLineLemmas::told, crate::proofs::CommandLineLemmas::told_asked, crate::proofs::CommandLineLemmas::told_range, crate::proofs::CommandLineLemmas::told_help, crate::proofs::CommandLineLemmas::told_others))]
pub(crate) fn order<S: AsStr>(alloc: Global, words: &[S]) -> Result<Order, Error>
    // Just these words are understood, each as the order that it asks for.
    ensures understood { IfOk result (λ order. AsksFor (map S.text words.now) order) }
    ensures asked { (asked : Order) → AsksFor (map S.text words.now) asked
        → MatchResult result (λ order. order ≡ asked) (λ error. kind_of error ≡ ErrorKind.OutOfMemory) }
    ensures range { IfOk result (λ order. IfSome (limit_of order) (λ limit. (1 ≤ limit) × (limit ≤ 2 ^ 32))) }

    ensures help { AsksHelp (map S.text words.now) → IsErrAnd result (λ error.
        (kind_of error ≡ ErrorKind.DisplayHelp) ⊎ (kind_of error ≡ ErrorKind.OutOfMemory)) }
    ensures kinds { FailsBy (faults_of (map S.text words.now)) result }

    // All other words are a usage fault, unless they ask for help.
    ensures others { ((order : Order) → ¬ (AsksFor (map S.text words.now) order)) → IsErrAnd result (λ error.
        (error_status (kind_of error) ≡ 3)
        ⊎ ((kind_of error ≡ ErrorKind.DisplayHelp) ⊎ (kind_of error ≡ ErrorKind.OutOfMemory))) }
{
    read(alloc, words)
}

/// The order that `clap` finds in the words.
fn read<S: AsStr>(alloc: Global, words: &[S]) -> Result<Order, Error>
    ensures { Reads (map S.text words.now) result }
{
    // One of the subcommands is required, and their options have defaults.
    let matches = matches(alloc, words)?;
    match order_in(&matches) {
        Some(order) => Ok(order),
        None => unreachable!(),
    }
}

fn matches<'a, S: AsStr>(alloc: Global, words: &'a [S]) -> Result<ArgMatches<'a>, Error>
    ensures fails { FailsBy (faults_of (map S.text words.now)) result }
    ensures found { IfOk result (λ matches. subcommand_rows_of matches ≡ subcommand_of usage (map S.text words.now)) }
{
    command(alloc)?.try_get_matches_from(words)
}

/// The subcommand, with its options.
fn order_in(matches: &ArgMatches<'_>) -> Option<Order>
    ensures { (order : Order) → HasOrder (subcommand_rows_of matches.now) order → result ≡ Some order }
{
    let (name, found) = matches.subcommand()?;
    order_of(name, found)
}

/// The order that the subcommand of this name gives, by its options.
fn order_of(name: &str, found: &ArgMatches<'_>) -> Option<Order>
    ensures { (order : Order) → Finds name.now (one_text (found_of found.now)) order → result ≡ Some order }
{
    match name {
        "replay" => Some(Order::Replay(limit_in(found), form_in(found))),
        "run" => Some(Order::Run(limit_in(found), form_in(found))),
        "explore" => Some(Order::Explore(states_in(found), form_in(found))),
        "check" => Some(Order::Check(is_set(found, "state"))),
        "compact" => Some(Order::Compact),
        _ => None,
    }
}

/// The number of `--limit`.
fn limit_in(found: &ArgMatches<'_>) -> u64
    ensures { (limit : ℕ) → FindsLimit (one_text (found_of found.now)) (codes "limit") limit → result ≡ limit }
{
    found.get_one::<u64>("limit").unwrap_or(DEFAULT_LIMIT)
}

/// The number of `--states`.
fn states_in(found: &ArgMatches<'_>) -> u64
    ensures { (states : ℕ) → FindsLimit (one_text (found_of found.now)) (codes "states") states → result ≡ states }
{
    found.get_one::<u64>("states").unwrap_or(DEFAULT_STATES)
}

/// The journal, if `--journal` is there.
fn form_in(found: &ArgMatches<'_>) -> Form
    ensures { (set : Bool) → FindsFlag (one_text (found_of found.now)) (codes "journal") set → result ≡ form_if set }
{
    if is_set(found, "journal") {
        Form::Journal
    } else {
        Form::Report
    }
}

/// Whether an option without a value is there.
fn is_set(found: &ArgMatches<'_>, name: &str) -> bool
    ensures { (set : Bool) → FindsFlag (one_text (found_of found.now)) name.now set → result ≡ set }
{
    found.get_flag(name)
}

fn command<'a>(alloc: Global) -> Result<Command<'a>, AllocError>
    ensures { IfOk result (λ command. app_of command ≡ usage) }
{
    let program = Command::new(alloc, "cml")
        .about(ABOUT)
        .long_about(LONG_ABOUT)
        .after_help(AFTER_HELP)
        .subcommand_required(true)
        .arg_required_else_help(true)
        .bin_name("cml")?;
    let program = add_scripts(alloc, program)?;
    add_journals(alloc, program)
}

/// Adds the subcommands that read a script.
fn add_scripts<'a>(alloc: Global, program: Command<'a>) -> Result<Command<'a>, AllocError>
    ensures { IfOk result (λ command. app_of command ≡ with_subcommand (with_subcommand (with_subcommand (app_of program.entry)
        (performing (codes "replay"))) (performing (codes "run"))) (exploring (codes "explore"))) }
{
    let program = add_performing(alloc, program, "replay", REPLAY_ABOUT, REPLAY_LONG_ABOUT)?;
    let program = add_performing(alloc, program, "run", RUN_ABOUT, RUN_LONG_ABOUT)?;
    add_exploring(alloc, program, "explore")
}

/// What the help says of a subcommand of scripts, and of its option `--journal`.
#[derive(Clone, Copy)]
struct Help<'a> {
    about: &'a str,
    long_about: &'a str,
    after: &'a str,
    journal: &'a str,
}

/// Adds a subcommand that performs a script.
fn add_performing<'a>(
    alloc: Global,
    program: Command<'a>,
    name: &'a str,
    about: &'a str,
    long_about: &'a str,
) -> Result<Command<'a>, AllocError>
    ensures { IfOk result (λ command. app_of command ≡ with_subcommand (app_of program.entry) (performing name.now)) }
{
    let limit = limit(alloc, "limit", DEFAULT_LIMIT_TEXT, LIMIT_HELP);
    let help = Help {
        about,
        long_about,
        after: AFTER_HELP,
        journal: JOURNAL_HELP,
    };
    let subcommand = of_script(alloc, name, limit, help)?;
    program.subcommand(subcommand)
}

/// Adds a subcommand that explores a script.
fn add_exploring<'a>(
    alloc: Global,
    program: Command<'a>,
    name: &'a str,
) -> Result<Command<'a>, AllocError>
    ensures { IfOk result (λ command. app_of command ≡ with_subcommand (app_of program.entry) (exploring name.now)) }
{
    let limit = limit(alloc, "states", DEFAULT_STATES_TEXT, STATES_HELP);
    let help = Help {
        about: EXPLORE_ABOUT,
        long_about: EXPLORE_LONG_ABOUT,
        after: EXPLORE_AFTER_HELP,
        journal: EXPLORE_JOURNAL_HELP,
    };
    let subcommand = of_script(alloc, name, limit, help)?;
    program.subcommand(subcommand)
}

/// A subcommand whose options are this limit and `--journal`.
fn of_script<'a>(
    alloc: Global,
    name: &'a str,
    limit: Arg<'a>,
    help: Help<'a>,
) -> Result<Command<'a>, AllocError>
    requires local { limit.global ≡ false }
    ensures shape { IfOk result (λ command. app_of command
        ≡ with_rule (with_rule (new_app name.now) (rule_of limit.entry)) (flag_rule (codes "journal"))) }
    ensures local { IfOk result (λ command. (fields_of command).has_globals ≡ false) }
{
    Command::new(alloc, name)
        .about(help.about)
        .long_about(help.long_about)
        .after_help(help.after)
        .arg(limit)?
        .arg(flag(alloc, "journal", help.journal))
}

/// Adds the subcommands that read a journal.
fn add_journals<'a>(alloc: Global, program: Command<'a>) -> Result<Command<'a>, AllocError>
    ensures { IfOk result (λ command. app_of command ≡ with_subcommand (with_subcommand (app_of program.entry) checking) compacting) }
{
    let program = add_check(alloc, program)?;
    add_compact(alloc, program)
}

/// Adds the subcommand whose one option is `--state`.
fn add_check<'a>(alloc: Global, program: Command<'a>) -> Result<Command<'a>, AllocError>
    ensures { IfOk result (λ command. app_of command ≡ with_subcommand (app_of program.entry) checking) }
{
    let subcommand = Command::new(alloc, "check")
        .about(CHECK_ABOUT)
        .long_about(CHECK_LONG_ABOUT)
        .after_help(CHECK_AFTER_HELP)
        .arg(flag(alloc, "state", STATE_HELP))?;
    program.subcommand(subcommand)
}

/// Adds the subcommand that has no option.
fn add_compact<'a>(alloc: Global, program: Command<'a>) -> Result<Command<'a>, AllocError>
    ensures { IfOk result (λ command. app_of command ≡ with_subcommand (app_of program.entry) compacting) }
{
    let subcommand = Command::new(alloc, "compact")
        .about(COMPACT_ABOUT)
        .long_about(COMPACT_LONG_ABOUT)
        .after_help(COMPACT_AFTER_HELP);
    program.subcommand(subcommand)
}

/// An option without a value.
fn flag<'a>(alloc: Global, name: &'a str, help: &'a str) -> Arg<'a>
    ensures { (rule_of result ≡ flag_rule name.now) × (result.global ≡ false) }
{
    Arg::new(alloc, name)
        .long(name)
        .action(ArgAction::SetTrue)
        .help(help)
}

/// An option whose value is a number, with a default.
fn limit<'a>(alloc: Global, name: &'a str, default: &'a str, help: &'a str) -> Arg<'a>
    ensures { (rule_of result ≡ limit_rule name.now default.now) × (result.global ≡ false) }
{
    Arg::new(alloc, name)
        .long(name)
        .value_name("N")
        .value_parser(value_parser!(u64).range(1..=4_294_967_296))
        .default_value(default)
        .help(help)
}
