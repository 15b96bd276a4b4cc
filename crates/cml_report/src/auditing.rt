//! How a given journal is judged, by the rules of boards and by a script.
ghost use Rattle.std.specs.Prelude.{◌≤◌, ◌^◌, length, reverse, IfOk, MatchOption};
ghost use Rattle.cml_report.specs.{IsOfScript, IsFirstForeign, Judges};

use crate::follower::Follower;
use crate::verdict::Verdict;
use cml_board::{Entry, Text, check};
use cml_grammar::Script;
use std::alloc::{AllocError, Global};

/// Says whether a journal is lawful and a script's, or where it first is not. A script's journal has the declared objects
/// first, and then the steps of its threads, each thread's in order. A journal that breaks off is judged as far as it goes.
/// It takes memory in proportion to the script and the journal, and as much time as making the journal's calls again.
pub fn audit(alloc: Global, script: &Script, entries: &[Entry<Text>]) -> Result<Verdict, AllocError>
    requires { length entries.now ≤ 2 ^ 32 }
    ensures { IfOk result (λ verdict. Judges script.now entries.now verdict) }
{
    if let Err(k) = check(alloc, entries)? {
        return Ok(Verdict::Unlawful(k));
    }
    let verdict = match first_foreign(alloc, script, entries)? {
        Some(k) => Verdict::Foreign(k),
        None => Verdict::Lawful,
    };
    Ok(verdict)
}

/// The position of the first entry that is not the script's, if there is one.
fn first_foreign(
    alloc: Global,
    script: &Script,
    entries: &[Entry<Text>],
) -> Result<Option<usize>, AllocError>
    ensures { IfOk result (λ first. MatchOption first (IsOfScript script.now (reverse entries.now))
        (IsFirstForeign script.now entries.now)) }
{
    let mut follower = Follower::new(alloc, script, entries)?;
    for (k, entry) in entries.iter().enumerate() {
        if !follower.is_own(entry) {
            return Ok(Some(k));
        }
        follower.follow();
    }
    Ok(None)
}
