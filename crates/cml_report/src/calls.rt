//! The calls that steps ask for.
ghost use Rattle.std.specs.Prelude.{◌≡◌, ◌↔◌, None, IsTrue, IfOk};
ghost use Rattle.cml_board.specs.{Fits, answer, want_in};
ghost use Rattle.cml_grammar.specs.{used_by};
ghost use Rattle.cml_report.specs.{call_on};

use cml_board::{Board, BoardLog, Call, Give, Message, Name, Text, Want, calls_wait_by_want};
use cml_grammar::Action;
use std::alloc::AllocError;

/// The position of the name that a step uses.
pub fn used_by(action: &Action) -> usize
    ensures { result ≡ used_by action.now }
{
    match action {
        Action::Give(_, at, _) | Action::Ask(_, at) => *at,
    }
}

/// Makes the call of a step on its name's object, with a copy of its message. Fails only for want of memory.
pub fn call_on(action: &Action, object: Name) -> Result<Call<Text>, AllocError>
    ensures { IfOk result (λ call. call ≡ call_on action.now object) }
{
    match action {
        Action::Give(give, _, message) => Ok(Call::give(*give, object, message.clone()?)),
        Action::Ask(ask, _) => Ok(Call::ask(*ask, object)),
    }
}

/// Returns what that call waits for, if it blocks.
pub fn want_on(action: &Action, object: Name) -> Option<Want>
    ensures { result ≡ want_in (call_on action.now object) }
{
    match action {
        // It waits for the same, whatever message it gives.
        Action::Give(give, _, _) => Call::give(*give, object, ()).want(),
        Action::Ask(ask, _) => Call::<()>::ask(*ask, object).want(),
    }
}

/// Says whether that call fits the object, and would block.
pub fn would_wait(board: &Board<Text, BoardLog<Text>>, action: &Action, object: Name) -> bool
    ensures { IsTrue result
        ↔ (Fits board.now.history (call_on action.now object) × (answer board.now.history (call_on action.now object) ≡ None)) }
{
    // A call waits just where one with its want does.
    calls_wait_by_want::<Text>();
    match want_on(action, object) {
        Some(want) => board.waits(want),
        None => false,
    }
}

/// Says whether a call is the one that a step makes on this object.
pub fn is_call_on(action: &Action, object: Name, call: &Call<Text>) -> bool
    ensures { IsTrue result ↔ (call_on action.now object ≡ call.now) }
{
    match (action, call) {
        (Action::Ask(ask, _), _) => Call::ask(*ask, object).same(call),
        (Action::Give(Give::Send, _, wanted), Call::Send(name, message))
        | (Action::Give(Give::Cast, _, wanted), Call::Cast(name, message))
        | (Action::Give(Give::Put, _, wanted), Call::Put(name, message))
        | (Action::Give(Give::Swap, _, wanted), Call::Swap(name, message)) => {
            object == *name && wanted.same(message)
        }
        _ => false,
    }
}
