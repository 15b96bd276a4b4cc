//! Whether what lanes moved is what a script's threads sent by them.
ghost use Rattle.std.specs.Prelude.{◌≡◌, ◌↔◌, ◌<◌, ◌≤◌, ℕ, false, [], Some, length, drop, reverse, slice_get, IsTrue, MatchOption};
ghost use Rattle.std.specs.Option.{option_map_or, option_and_then};
ghost use Rattle.std.specs.List.{list_any};
ghost use Rattle.cml_report.specs.{IsKnown, AreSentInOrder, IsOnLine, AreOnLines, IsInOrderAt, IsInOrder, IsNextLaid, IsNotSent, IsSent};
ghost use Rattle.cml_report.specs.{IsAstray, IsBehind, call_to, is_laid_to, is_moved_on, is_moved_to, is_lane_of, is_sent_to, sends_to};

use crate::calls::{is_call_on, used_by};
use crate::follower::sent_to;
use crate::plan::Plan;
use crate::snapshot::is_lane;
use cml_board::{Call, Entry, Name, Text, Who};

/// Whether what lanes moved is what threads sent by them. `lanes` tells by lane which seat opened it. It goes through the journal
/// and the steps once for each lane line.
pub fn are_sent_in_order(plan: &Plan<'_>, lanes: &[u64], journal: &[Entry<Text>]) -> bool
    ensures { IsTrue result ↔ AreSentInOrder plan.now lanes.now (reverse journal.now) }
{
    // Its contract says what is so of each script.
    let _declared = plan.declared();
    are_on_lines(plan, lanes, journal) && are_in_order(plan, lanes, journal)
}

/// Whether each message that a lane moved was moved on some lane line.
fn are_on_lines(plan: &Plan<'_>, lanes: &[u64], journal: &[Entry<Text>]) -> bool
    requires { IsKnown plan.now }
    ensures { IsTrue result ↔ AreOnLines plan.now lanes.now (reverse journal.now) }
{
    for entry in journal {
        if !may_be(plan, lanes, entry) {
            return false;
        }
    }
    true
}

/// Whether the entry is no lane's, or was moved on some lane line.
fn may_be(plan: &Plan<'_>, lanes: &[u64], entry: &Entry<Text>) -> bool
    requires { IsKnown plan.now }
    ensures { IsTrue result ↔ IsOnLine plan.now lanes.now entry.now }
{
    !is_lane(entry.who) || is_on_line(plan, lanes, entry)
}

/// Whether the entry was moved on some lane line.
fn is_on_line(plan: &Plan<'_>, lanes: &[u64], entry: &Entry<Text>) -> bool
    requires { IsKnown plan.now }
    ensures { result ≡ list_any (is_moved_on plan.now lanes.now entry.now) plan.now.lanes }
{
    for lane in plan.script().lanes() {
        if is_moved_to(lanes, lane.seat, plan.number(lane.target), entry) {
            return true;
        }
    }
    false
}

/// Whether on each lane line the messages were moved that its thread sends, in order.
fn are_in_order(plan: &Plan<'_>, lanes: &[u64], journal: &[Entry<Text>]) -> bool
    requires { IsKnown plan.now }
    ensures { IsTrue result ↔ ((k : ℕ) → k < length plan.now.lanes → IsInOrderAt plan.now lanes.now (reverse journal.now) k) }
{
    for lane in plan.script().lanes() {
        if !is_in_order(plan, lanes, journal, lane.seat, lane.target) {
            return false;
        }
    }
    true
}

/// Whether what the lanes of a thread moved to an object is the beginning of what the thread sends to it by lanes.
fn is_in_order(
    plan: &Plan<'_>,
    lanes: &[u64],
    journal: &[Entry<Text>],
    seat: u64,
    at: usize,
) -> bool
    requires { at < length plan.now.declarations }
    ensures { IsTrue result ↔ IsInOrder plan.now lanes.now (reverse journal.now) seat at }
{
    let mut from = 0;
    for entry in journal {
        match behind_entry(plan, lanes, seat, at, from, entry) {
            Some(next) => from = next,
            None => return false,
        }
    }
    true
}

/// From which step on the thread sends by lanes to the object what comes after this entry, if the entry may come.
fn behind_entry(
    plan: &Plan<'_>,
    lanes: &[u64],
    seat: u64,
    at: usize,
    from: usize,
    entry: &Entry<Text>,
) -> Option<usize>
    requires at { at < length plan.now.declarations }
    requires from { from ≤ length plan.now.steps }
    ensures { MatchOption result (IsAstray plan.now lanes.now seat at from entry.now) (IsBehind plan.now lanes.now seat at from entry.now) }
{
    if !is_moved_to(lanes, seat, plan.number(at), entry) {
        return Some(from);
    }
    behind_sent(plan, seat, at, from, &entry.call)
}

/// The position after the next step that the thread sends by a lane to the object, if this is the step's call.
fn behind_sent(
    plan: &Plan<'_>,
    seat: u64,
    at: usize,
    from: usize,
    call: &Call<Text>,
) -> Option<usize>
    requires at { at < length plan.now.declarations }
    requires from { from ≤ length plan.now.steps }
    ensures { MatchOption result (IsNotSent plan.now seat at from call.now) (IsSent plan.now seat at from call.now) }
{
    match next_sent(plan, seat, at, from) {
        Some(i) => has_call(plan, at, i, call).then_some(i + 1),
        None => None,
    }
}

/// Whether the step at this position, on the object, has this call.
fn has_call(plan: &Plan<'_>, at: usize, i: usize, call: &Call<Text>) -> bool
    requires at { at < length plan.now.declarations }
    requires i { i < length plan.now.steps }
    ensures { IsTrue result ↔ (option_and_then (call_to plan.now at) (slice_get plan.now.steps i) ≡ Some call.now) }
{
    let action = &plan.script().steps()[i].action;
    is_call_on(action, plan.number(at), call)
}

/// The position of the next step that the thread sends by a lane to the object.
fn next_sent(plan: &Plan<'_>, seat: u64, at: usize, from: usize) -> Option<usize>
    requires { from ≤ length plan.now.steps }
    ensures { MatchOption result (sends_to plan.now seat at (drop from plan.now.steps) ≡ []) (IsNextLaid plan.now seat at from) }
{
    for i in from..plan.script().steps().len() {
        if is_laid_to(plan, seat, at, i) {
            return Some(i);
        }
    }
    None
}

/// Whether the step at this position is one that the thread sends by a lane to the object.
fn is_laid_to(plan: &Plan<'_>, seat: u64, at: usize, i: usize) -> bool
    requires { i < length plan.now.steps }
    ensures { result ≡ option_map_or (is_laid_to plan.now seat at) (slice_get plan.now.steps i) false }
{
    let step = &plan.script().steps()[i];
    step.seat == seat && (plan.route(i).is_by_lane() && used_by(&step.action) == at)
}

/// Whether a lane of the thread with this seat moved a message to this object.
fn is_moved_to(lanes: &[u64], seat: u64, object: Name, entry: &Entry<Text>) -> bool
    ensures { result ≡ is_moved_to lanes.now seat object.0 entry.now }
{
    is_lane_of(lanes, seat, entry.who) && is_sent_to(object, &entry.call)
}

/// Whether it is a lane that the thread with this seat opened.
fn is_lane_of(lanes: &[u64], seat: u64, who: Who) -> bool
    ensures { result ≡ is_lane_of lanes.now seat who }
{
    match who {
        Who::Lane(lane) => match lanes.get(lane as usize) {
            Some(opener) => *opener == seat,
            None => false,
        },
        Who::Seat(_) | Who::Feed(_) => false,
    }
}

/// Whether it is a send or a multicast to this object.
fn is_sent_to(object: Name, call: &Call<Text>) -> bool
    ensures { result ≡ is_sent_to object.0 call.now }
{
    match sent_to(call) {
        Some(target) => target == object,
        None => false,
    }
}
