//! The right answer to the call of an unlawful entry.
ghost use Rattle.std.specs.Prelude.{◌≡◌, Some, IfOk, string_bytes};
ghost use Rattle.cml_board.specs.{Expected, expected_of};
ghost use Rattle.cml.specs.{answer_text, EndsAs};

use crate::check::ending::Ending;
use crate::check::faulty::fault_of;
use cml_board::{Expected, Message, Refusal};
use cml_journal::{Check, Stop, Written, write_reply};
use std::alloc::{AllocError, Global};

/// How a check ends that this stopped.
pub(crate) fn ending_of<M: Message + Written>(alloc: Global, check: &Check<M>, stop: Stop) -> Ending
    ensures { EndsAs M.VERSION M.text check.now stop result }
{
    match stop {
        Stop::Unlawful(at, line) => match answer_in(alloc, check) {
            Ok(answer) => Ending::Unlawful(at, line, answer),
            Err(AllocError) => Ending::NoMemory,
        },
        Stop::Fault(line, what) => match fault_of(alloc, check, line, what) {
            Ok(ending) => ending,
            Err(AllocError) => Ending::NoMemory,
        },
        Stop::NoMemory => Ending::NoMemory,
    }
}

/// The right answer to the call of the first unlawful entry.
fn answer_in<M: Message + Written>(alloc: Global, check: &Check<M>) -> Result<String, AllocError>
    ensures { IfOk result (λ answer. (expected : Expected M) → expected_of check.now.checker ≡ Some expected
        → string_bytes answer ≡ answer_text M.text expected) }
{
    match check.expected() {
        Some(expected) => answer_text(alloc, expected),
        None => Ok(String::new(alloc)),
    }
}

/// An answer in the words of a journal's line, that the call waits, or why it is refused.
fn answer_text<M: Written>(alloc: Global, expected: &Expected<M>) -> Result<String, AllocError>
    ensures { IfOk result (λ answer. string_bytes answer ≡ answer_text M.text expected.now) }
{
    let mut answer = String::new(alloc);
    match expected {
        Expected::Reply(reply) => write_reply(&mut answer, reply)?,
        Expected::WouldWait => answer.push_str("waits")?,
        Expected::Refused(Refusal::NoSuch) => answer.push_str("no such object")?,
        Expected::Refused(_) => answer.push_str("wrong kind")?,
    }
    Ok(answer)
}
