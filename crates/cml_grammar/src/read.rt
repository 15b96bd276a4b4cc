//! A text is cut into lines, and read line by line.
ghost use Rattle.std.specs.Prelude.{◌≡◌, ◌==◌, ◌≤◌, ◌<◌, ◌∷◌, [], position, length, MatchOption, IfOk, IfErr};
ghost use Rattle.cml_grammar.specs.{parts_of, start, version_in, version_of, fault_at_end, IsFaultOf, Says, IsScript};

use crate::fault::{Fault, What};
use crate::reading::{Reading, version_in};
use crate::script::Script;
use std::alloc::Global;

/// The most bytes that a script may have.
const MAX_BYTES: usize = 1_048_576;

/// Reads a script. Takes time in proportion to the text's length, whatever the text is.
pub fn read_script(alloc: Global, text: &[u8]) -> Result<Script, Fault>
    ensures script { IfOk result (λ script. IsScript text.now script) }
    ensures fault { IfErr result (λ fault. IsFaultOf text.now fault) }
{
    if text.len() > MAX_BYTES {
        return Err(What::TooLong.at(0));
    }
    let reading = read_lines(alloc, text)?;
    Ok(reading.into_script())
}

/// Reads all lines, up to the least with a fault.
fn read_lines(alloc: Global, text: &[u8]) -> Result<Reading, Fault>
    requires { length text.now ≤ 1048576 }
    ensures script { IfOk result (λ script. IsScript text.now script) }
    ensures few { IfOk result (λ script. length script.declarations ≤ 1048576) }
    ensures narrow { IfOk result (λ script. length script.lanes ≤ 1048576) }
    ensures short { IfOk result (λ script. length script.steps ≤ 1048576) }
    ensures fault { IfErr result (λ fault. IsFaultOf text.now fault) }
{
    let mut reading = Reading::new(alloc, version_of(text));
    let mut rest = text;
    let mut number = 1;
    while let Some((line, later)) = cut_line(rest) {
        if let Err(what) = reading.read_line(alloc, number, line) {
            return Err(what.at(number));
        }
        rest = later;
        number += 1;
    }
    match fault_at_end(number, rest) {
        Some(fault) => Err(fault),
        None => Ok(reading),
    }
}

/// The version that the first line asks for.
fn version_of(text: &[u8]) -> u64
    ensures { result ≡ version_of text.now }
{
    match cut_line(text) {
        Some((line, _)) => version_in(line),
        None => version_in(text),
    }
}

/// Cuts off the first line: returns it without its line end, and what follows. Returns `None` if there is no line end.
pub fn cut_line(text: &[u8]) -> Option<(&[u8], &[u8])>
    ensures { MatchOption result
        (parts_of text.now ≡ text.now ∷ [])
        (λ cut. (parts_of text.now ≡ cut.0.now ∷ parts_of cut.1.now) × (length cut.1.now < length text.now)) }
{
    let end = line_end(text)?;
    Some((&text[..end], &text[end + 1..]))
}

fn line_end(text: &[u8]) -> Option<usize>
    ensures { result ≡ position (λ byte. byte == 10) text.now }
{
    text.iter().position(|byte| *byte == b'\n')
}

/// What is wrong with what follows the last line end.
fn fault_at_end(number: u64, rest: &[u8]) -> Option<Fault>
    ensures { result ≡ fault_at_end number rest.now }
{
    if !rest.is_empty() {
        return Some(What::NoLineEnd.at(number));
    }
    (number == 1).then_some(What::BadHeader.at(number))
}
