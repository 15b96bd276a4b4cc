//! A script's first thread, after the declared objects.
ghost use Rattle.std.specs.Prelude.{◌≡◌, ◌≤◌, ◌^◌, Ok, IfOk};
ghost use Rattle.cml_script.specs.{Declares};
ghost use Rattle.cml_tests.specs.{IsPerformed};

use super::teller::Teller;
use cml_board::Refusal;
use cml_grammar::Script;
use cml_script::{OpenGate, Plan, Stop, declare, work};
use std::alloc::{AllocError, Global};

/// What became of a script: its first thread stopped, or a declared object could not be made. Each with who made the calls.
pub type Performed = Result<(Teller, Result<Stop, AllocError>), (Teller, Refusal)>;

/// Makes a script's declared objects on a new floor, and performs its first thread's steps.
pub fn perform(alloc: Global, script: &Script, limit: u64) -> Result<Performed, AllocError>
    requires least { 1 ≤ limit }
    requires most { limit ≤ 2 ^ 32 }
    ensures { IfOk result (λ performed. IsPerformed script.now performed) }
{
    let plan = Plan::new(alloc, script)?;
    let mut teller = Teller::new(alloc, limit)?;
    match declare(&plan, &mut teller) {
        Ok(()) => Ok(perform_first(alloc, &plan, teller)),
        Err(refusal) => Ok(Err((teller, refusal))),
    }
}

/// Performs the first thread's steps, once the declared objects are made.
fn perform_first(alloc: Global, plan: &Plan<'_>, teller: Teller) -> Performed
    requires { Declares plan.now teller (Ok tt) }
    ensures { IsPerformed plan.now result }
{
    let mut teller = teller.at_seat(1);
    let stop = work(alloc, plan, 0, &OpenGate, &mut teller);
    Ok((teller, stop))
}
