//! The end of a program: its exit status, and what it says on standard error.
ghost use Rattle.std.specs.Prelude.{◌≡◌, MatchResult};
ghost use Rattle.clap.specs.Words.{kind_of};
ghost use Rattle.cml_grammar.specs.{error_status, EndsUnordered, IsShowing};

use crate::shell::ending::Ending;
use crate::shell::opening::NoOrder;
use clap::Error;
use clap::error::ErrorKind;

/// Ends the program of this name: prints on standard error what standard output does not say, and returns the exit status.
/// Help goes to standard output.
pub fn end<E: Ending>(rt: &HostRuntime, program: &str, ended: Result<E, NoOrder>) -> u8
    ensures { MatchResult ended (λ ending. result ≡ E.status ending) (λ why. EndsUnordered why result) }
{
    match ended {
        Ok(ending) => tell(rt, &ending),
        Err(NoOrder::NoMemory) => tell(rt, &E::no_memory()),
        Err(NoOrder::Words(error)) => show::<E>(rt, &error),
        Err(why) => {
            let _unheard = eprintln!(rt; "{program}: {why}");
            3
        }
    }
}

/// Shows the help, or what is wrong with the words.
fn show<E: Ending>(rt: &HostRuntime, error: &Error) -> u8
    ensures { IsShowing (kind_of error.now) result }
{
    if error.kind() == ErrorKind::OutOfMemory {
        return tell(rt, &E::no_memory());
    }
    if error.print(rt).is_err() && !error.use_stderr() {
        return tell(rt, &E::write_fault());
    }
    status_of_error(error)
}

/// Prints on standard error how the program ended, unless standard output says it.
fn tell<E: Ending>(rt: &HostRuntime, ending: &E) -> u8
    ensures { result ≡ E.status ending.now }
{
    if ending.is_shown() {
        let _unheard = eprintln!(rt; "{ending}");
    }
    ending.status()
}

/// Returns the exit status for words that were not understood, or that ask for help.
pub fn status_of_error(error: &Error) -> u8
    ensures { result ≡ error_status (kind_of error.now) }
{
    match error.kind() {
        ErrorKind::OutOfMemory => 5,
        ErrorKind::DisplayHelp => 0,
        _ => 3,
    }
}
