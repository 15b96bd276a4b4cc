//! What a thread does.
ghost use Rattle.std.specs.Prelude.{◌≡◌, ◌+◌, ◌<◌, ◌^◌, ◌⊎◌, ◌&&◌, not, true, Option, Some, Ok, length, IfSome, IfOk, IfErr, OnOk};
ghost use Rattle.std.specs.Option.{option_map};
ghost use Rattle.cml_board.specs.{entries_in};
ghost use Rattle.cml_report.specs.{History, step_call, AreBindings, route_at};
ghost use Rattle.cml_script.specs.{Made, BeginsAt, IsOpening, IsUnheld, Works, waits, with_refused, stop_of, first_of, ending_with};
ghost use Rattle.cml_script.specs.{IsAfter, IsAt, IsRefusedSo, closed_if};
ghost use Rattle.cml_grammar.specs.{IsCapacity};

use crate::caller::Caller;
use crate::gate::Gate;
use cml_board::{Call, Refusal, Text};
use cml_grammar::Action;
use cml_report::{Binding, Plan, Route, Stop, bind, call_on, used_by};
use std::alloc::{AllocError, Global};

/// How far a thread has come.
#[derive(Drop)]
struct Course {
    // What steps gave their names.
    bindings: Vec<Binding>,
    // How many objects were declared, and steps performed by the thread's seat.
    made: usize,
    // Whether the thread may have a lane open.
    is_sending: bool,
}

/// A step that a thread performs now.
#[derive(Clone, Copy)]
struct Turn<'a, 's> {
    plan: &'a Plan<'s>,
    thread: usize,
    step: usize,
}

/// Performs the steps of a thread, in order, once the declared objects are made. It stops at the first that fails, or when
/// the gate says no. It closes its lanes before a step that may block, and when it ends. After a failure it leaves them to
/// its caller.
pub fn work<C: Caller, G: Gate>(
    alloc: Global,
    plan: &Plan<'_>,
    thread: usize,
    gate: &G,
    caller: &mut C,
) -> Result<Stop, AllocError>
    requires thread { thread < 64 }
    requires goes_on { C.goes_on caller.old ≡ true }
    requires begins { BeginsAt (thread + 1) (C.made caller.old) }
    ensures works { (first : History) → IsOpening plan.now first
        → IfSome (C.made caller.new) (λ made. Works plan.now (thread + 1) made result first) }
    ensures open { G.opens gate.now ≡ true → IsUnheld result }
{
    let mut course = Course {
        bindings: plan.unbound(alloc)?,
        made: plan.declared(),
        is_sending: false,
    };
    for nth in 0..plan.script().steps().len() {
        let Some(step) = plan.turn(thread, nth) else {
            return close(&course, caller, Stop::Done);
        };
        if !gate.before(thread, nth) {
            return close(&course, caller, Stop::Held);
        }
        let turn = Turn { plan, thread, step };
        if let Err(refusal) = perform(&turn, &mut course, caller) {
            return stop_of(refusal);
        }
        gate.after(thread, nth);
    }
    close(&course, caller, Stop::Done)
}

/// Closes the lanes that are open when a thread ends. A failure may make that another ending.
fn close<C: Caller>(course: &Course, caller: &mut C, stop: Stop) -> Result<Stop, AllocError>
    requires { C.goes_on caller.old ≡ true }
    ensures held { IsUnheld (Ok stop) → IsUnheld result }
    ensures ends { ((result ≡ Ok stop) × (C.made caller.new ≡ closed_if course.now.is_sending (C.made caller.old)))
        ⊎ ((course.now.is_sending ≡ true) × ((refusal : Refusal)
        × (C.made caller.new ≡ option_map (with_refused refusal) (C.made caller.old)) × (result ≡ ending_with stop refusal))) }
{
    if !course.is_sending {
        return Ok(stop);
    }
    match caller.close_lanes() {
        Ok(()) => Ok(stop),
        Err(refusal) => first_of(Ok(stop), stop_of(refusal)),
    }
}

/// Performs a step of the thread, by its seat or by a ring.
fn perform<C: Caller>(
    turn: &Turn<'_, '_>,
    course: &mut Course,
    caller: &mut C,
) -> Result<(), Refusal>
    requires goes_on { C.goes_on caller.old ≡ true }
    requires at { IsAt turn.now course.old (C.made caller.old) }
    ensures goes_on { OnOk result (C.goes_on caller.new ≡ true) }
    ensures way { OnOk result (IsAfter turn.now course.new (C.made caller.new)) }
    ensures refused { IfErr result (λ refusal. IsRefusedSo refusal (C.made caller.old) (C.made caller.new)) }
{
    match turn.plan.route(turn.step) {
        Route::Seat => perform_seated(turn, course, caller),
        Route::Lane(capacity) => send_apart(turn, capacity, course, caller),
        Route::Feed(feed) => caller.poll_apart(feed),
    }
}

/// Performs a step by the thread's seat.
fn perform_seated<C: Caller>(
    turn: &Turn<'_, '_>,
    course: &mut Course,
    caller: &mut C,
) -> Result<(), Refusal>
    requires goes_on { C.goes_on caller.old ≡ true }
    requires at { IsAt turn.now course.old (C.made caller.old) }
    requires called { route_at turn.now.plan.now turn.now.step ≡ Route.Seat }
    ensures goes_on { OnOk result (C.goes_on caller.new ≡ true) }
    ensures way { OnOk result (IsAfter turn.now course.new (C.made caller.new)) }
    ensures refused { IfErr result (λ refusal. IsRefusedSo refusal (C.made caller.old) (C.made caller.new)) }
{
    let Ok(call) = call_of(turn, course) else {
        return Err(caller.lack_memory());
    };
    close_before(&call, course, caller)?;
    let answer = caller.call(call)?;
    let given = turn.plan.given(turn.step);
    bind(&mut course.bindings, given, answer.call(), answer.reply());
    course.made += 1;
    Ok(())
}

/// Closes what lanes are open before a call that may wait.
fn close_before<C: Caller>(
    call: &Call<Text>,
    course: &mut Course,
    caller: &mut C,
) -> Result<(), Refusal>
    requires { C.goes_on caller.old ≡ true }
    ensures goes_on { OnOk result (C.goes_on caller.new ≡ true) }
    ensures made { OnOk result (C.made caller.new ≡ closed_if (course.old.is_sending && waits call.now) (C.made caller.old)) }
    ensures refused { IfErr result (λ refusal. C.made caller.new ≡ option_map (with_refused refusal) (C.made caller.old)) }
    ensures course { OnOk result (course.new ≡ record course.old { is_sending = course.old.is_sending && not (waits call.now) }) }
{
    if course.is_sending && may_wait(call) {
        caller.close_lanes()?;
        course.is_sending = false;
    }
    Ok(())
}

/// Whether a call blocks if it cannot be answered.
fn may_wait(call: &Call<Text>) -> bool
    ensures { result ≡ waits call.now }
{
    call.shape().blocks
}

/// Performs a step by the thread's lane.
fn send_apart<C: Caller>(
    turn: &Turn<'_, '_>,
    capacity: usize,
    course: &mut Course,
    caller: &mut C,
) -> Result<(), Refusal>
    requires goes_on { C.goes_on caller.old ≡ true }
    requires at { IsAt turn.now course.old (C.made caller.old) }
    requires laid { route_at turn.now.plan.now turn.now.step ≡ Route.Lane capacity }
    requires capacity { IsCapacity capacity }
    ensures goes_on { OnOk result (C.goes_on caller.new ≡ true) }
    ensures way { OnOk result (IsAfter turn.now course.new (C.made caller.new)) }
    ensures refused { IfErr result (λ refusal. C.made caller.new ≡ option_map (with_refused refusal) (C.made caller.old)) }
{
    match &turn.plan.script().steps()[turn.step].action {
        Action::Give(_, at, message) => {
            let Ok(message) = message.clone() else {
                return Err(caller.lack_memory());
            };
            course.is_sending = true;
            caller.send_apart(turn.plan.number(*at), capacity, message)
        }
        Action::Ask(_, _) => unreachable!(),
    }
}

/// The call of a step that the thread's seat performs next, with a copy of its message.
fn call_of(turn: &Turn<'_, '_>, course: &Course) -> Result<Call<Text>, AllocError>
    requires called { route_at turn.now.plan.now turn.now.step ≡ Route.Seat }
    requires at { (made : Option Made) × IsAt turn.now course.now made }
    ensures { IfOk result (λ call. (history : History) → entries_in history ≡ course.now.made
        → AreBindings turn.now.plan.now history course.now.bindings.items
        → step_call turn.now.plan.now history turn.now.step ≡ Some call) }
{
    let plan = turn.plan;
    let action = &plan.script().steps()[turn.step].action;
    let object = plan.object(used_by(action), course.made as u64, &course.bindings);
    let call = call_on(action, object.unwrap())?;
    Ok(call)
}

/// Returns how a thread stops after this refusal.
pub fn stop_of(refusal: Refusal) -> Result<Stop, AllocError>
    ensures { result ≡ stop_of refusal }
{
    match refusal {
        Refusal::JournalFull => Ok(Stop::Full),
        Refusal::NoMemory => Err(AllocError),
        // No thread could let it go on.
        Refusal::Stalled
        | Refusal::Gone
        | Refusal::Busy
        | Refusal::NoSuch
        | Refusal::WrongKind
        | Refusal::Unseen => Ok(Stop::Stalled),
    }
}

/// Returns the ending that counts, of the endings of two threads.
pub fn first_of(
    one: Result<Stop, AllocError>,
    other: Result<Stop, AllocError>,
) -> Result<Stop, AllocError>
    ensures { result ≡ first_of one other }
{
    match (one?, other?) {
        (Stop::Full, _) | (_, Stop::Full) => Ok(Stop::Full),
        (Stop::Held, _) | (_, Stop::Held) => Ok(Stop::Held),
        (Stop::Stalled, _) | (_, Stop::Stalled) => Ok(Stop::Stalled),
        (Stop::Done, Stop::Done) => Ok(Stop::Done),
    }
}
