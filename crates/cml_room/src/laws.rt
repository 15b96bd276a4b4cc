//! Laws of runs of a room's calls. Each call's contract says which step of a run it is: `IsMade` in `specs/Running.antt`.
ghost use Rattle.std.specs.Prelude.{◌≡◌, ◌≤◌, ◌⊎◌, ℕ, false, length, List, ◌∷◌, Option, Some, None};
ghost use Rattle.cml_room.specs.{GivesInTurn, RoomShown, NoneDue, is_due, RoomCall, NextDue, AreMade, HasAsked, NobodyForgotten};
ghost use Rattle.cml_room.specs.{AnotherAsksNext, AllWouldWait, is_returned, was_woken};

use crate::room::Room;
use cml_board::Message;
use cml_log::MessageLog;

/// Shows that, after any run of calls since the room was made or restored, a seat counts as woken just if a `next_due` returned
/// it and it has not asked since.
pub fn woken_is_returned<M>()
    ensures { (calls : List RoomCall) (first last : RoomShown M) → NoneDue first → AreMade calls first last
        → (seat : ℕ) → was_woken last.notices seat ≡ is_returned calls seat }
{}

/// Shows that no seat is returned twice until it asks: a `next_due` returns only a seat that no earlier one returned since it last
/// asked.
pub fn next_due_returns_anew<M>()
    ensures { (calls : List RoomCall) (first last : RoomShown M) (seat : ℕ) → NoneDue first
        → AreMade (NextDue (Some seat) ∷ calls) first last
        → is_returned calls seat ≡ false }
{}

/// Shows that `next_due`, called again and again, ends: it returns no more seats than there are, and then none.
pub fn next_due_ends<M>()
    ensures { (givens : List ℕ) (first last : RoomShown M) → GivesInTurn givens first last → length givens ≤ length first.seats }
{}

/// Shows that a seat which has just asked isn't due, also if it waits, unless all that wait are due. So it isn't woken at once.
pub fn asked_is_not_due<M>()
    ensures { (seat : ℕ) (old new : RoomShown M) → HasAsked seat old.notices new.notices → new.all_due ≡ false → is_due new seat ≡ false }
{}

/// Shows that nobody is left asleep. Take any run of calls since the room was made or restored, and then a `next_due` that
/// returned none. Then each seat that waits was returned by a `next_due`, and has not asked since: it asks
/// next. Or it may sleep: what it waits for isn't there, and the journal has room, or another seat that waits for the
/// very same was returned, and has not asked since; and there is no stall.
///
/// It doesn't say that the thread of a seat which was returned does ask. That is for the caller.
pub fn nobody_is_left_asleep<M: Message, L: MessageLog<M>>(room: &Room<M, L>)
    ensures { (calls : List RoomCall) (first : RoomShown M) → NoneDue first → AreMade (NextDue None ∷ calls) first room.now
        → NobodyForgotten calls room.now }
{
    // That who isn't due sleeps rightly is a fact of each room, which the contract of `board` tells.
    let _board = room.board();
}

/// Shows that one `next_due` after each call is enough, whatever it returns. Take any run of calls since the room was made or
/// restored, of which the last is a `next_due`. Then a seat that was returned still waits, and has not asked since: its thread was
/// woken. Or each seat that waits would wait again if it asked now, and there is no stall. So call `next_due` once after each
/// call, and wake the thread of the seat that it returns: the thread asks, and calls `next_due` in turn. Once no woken thread is
/// left to ask, nobody is left asleep.
pub fn one_next_due_is_enough<M: Message, L: MessageLog<M>>(room: &Room<M, L>)
    ensures { (calls : List RoomCall) (given : Option ℕ) (first : RoomShown M) → NoneDue first
        → AreMade (NextDue given ∷ calls) first room.now
        → AnotherAsksNext (NextDue given ∷ calls) room.now ⊎ AllWouldWait room.now }
{
    // As above.
    let _board = room.board();
}
