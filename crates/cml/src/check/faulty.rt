//! What is said of a line with a fault.
ghost use Rattle.std.specs.Prelude.{◌≡◌, IfOk, codes, string_bytes};
ghost use Rattle.cml_journal.specs.declared.stop.Stop.TheVariants as stop;
ghost use Rattle.cml.specs.{EndsAs, expected_text};

use crate::check::ending::Ending;
use cml_board::Message;
use cml_journal::{Check, What, Written};
use std::alloc::{AllocError, Global};

/// The headers that a journal may begin with.
const HEADERS: &str = "`journal 1`, `journal 2`, `journal 3` or `journal 4`";

/// How a check ends that has stopped at this fault.
pub(crate) fn fault_of<M: Message + Written>(
    alloc: Global,
    check: &Check<M>,
    line: u64,
    what: What,
) -> Result<Ending, AllocError>
    ensures { IfOk result (λ ending. EndsAs M.VERSION M.text check.now (stop.Fault line what) ending) }
{
    let expected = expected_in(alloc, check, what)?;
    let found = check.found()?;
    Ok(Ending::Fault(line, what, expected, found))
}

/// What is expected in place of a line with this fault.
fn expected_in<M: Message + Written>(
    alloc: Global,
    check: &Check<M>,
    what: What,
) -> Result<String, AllocError>
    ensures { IfOk result (λ expected. string_bytes expected ≡ expected_text M.VERSION check.now.state what) }
{
    match what {
        What::TooLong => check.due(what),
        _ if check.lines() == 0 => any_header(alloc),
        _ => check.due(what),
    }
}

fn any_header(alloc: Global) -> Result<String, AllocError>
    ensures { IfOk result (λ header. string_bytes header ≡ codes "`journal 1`, `journal 2`, `journal 3` or `journal 4`") }
{
    let mut header = String::new(alloc);
    header.push_str(HEADERS)?;
    Ok(header)
}
