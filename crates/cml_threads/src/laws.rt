//! Laws of runs of calls in a hall.
ghost use Rattle.std.specs.Prelude.{◌≡◌, ℕ, ◌+◌, ◌<◌, ◌≤◌, ◌⊎◌, Bool, true, List, ◌∷◌, Option, None};
ghost use Rattle.cml_board.specs.{Call};
ghost use Rattle.cml_board.specs.declared.outcome.Refusal.TheVariants.{NoMemory};
ghost use Rattle.cml_lanes.specs.{FloorShown, HoldsUp, Starves, added_since, TakesEntryAlone, LaneTakesEntryAlone, FeedTakesEntryAlone};
ghost use Rattle.cml_lanes.specs.{FloorCall, AreCalled};
ghost use Rattle.cml_board.specs.declared.outcome.Outcome.TheVariants.{Refused};
ghost use Rattle.cml_room.specs.{RoomShown, NoneDue};
ghost use Rattle.cml_room.specs.Running as room;
ghost use Rattle.cml_threads.specs.{Sitting, Hosted, floor_of, room_of, MayAsk, MayAskAgain, Asks, HallCall, AreMade, keeps_entries};

use crate::hall::Hall;
use cml_board::Message;
use cml_log::MessageLog;
use std::sync::ledger::Ledger;

/// Shows that calls of a floor do to the hall's floor what the hall's calls do. So each law of runs on a floor holds in a hall.
pub fn halls_call_their_floor<M>()
    ensures { (chunk : ℕ) (sure : Bool) (calls : List (HallCall M)) (old new : Hosted M)
        → AreMade chunk sure calls old new
        → (under : List (FloorCall M)) × AreCalled chunk sure under (floor_of old) (floor_of new) }
{}

/// Shows that over a run of calls in a hall only added entries use up reserved memory, one each, of any seat, lane or feed.
/// Suppose that fewer entries were added than were reserved, and that only the next entry needs memory. Then no seat's call,
/// made for the first time or again, fails for want of memory, and no lane or feed stops. `take_journal` hands the reserved
/// memory over.
pub fn reserved_lasts_in_a_hall<M>()
    ensures lasts { (chunk : ℕ) (sure : Bool) (calls : List (HallCall M)) (old new : Hosted M)
        → AreMade chunk sure calls old new
        → keeps_entries calls ≡ true
        → old.board.reserved ≤ new.board.reserved + added_since old.board new.board }
    ensures asks { (chunk : ℕ) (sure : Bool) (calls : List (HallCall M)) (old new after : Hosted M)
        (seat left : Sitting) (call back : Call M)
        → AreMade chunk sure calls old new
        → keeps_entries calls ≡ true
        → added_since old.board new.board < old.board.reserved
        → TakesEntryAlone chunk sure new.board.history call
        → ¬ (Asks chunk sure (MayAsk new seat.number) new after seat left call (Refused NoMemory back)) }
    ensures again { (chunk : ℕ) (sure : Bool) (calls : List (HallCall M)) (old new after : Hosted M)
        (seat left : Sitting) (call back : Call M)
        → AreMade chunk sure calls old new
        → keeps_entries calls ≡ true
        → added_since old.board new.board < old.board.reserved
        → TakesEntryAlone chunk sure new.board.history call
        → ¬ (Asks chunk sure (MayAskAgain new seat.number call) new after seat left call (Refused NoMemory back)) }
    ensures lanes { (chunk : ℕ) (sure : Bool) (calls : List (HallCall M)) (old new : Hosted M) (after : FloorShown M) (lane count : ℕ)
        → AreMade chunk sure calls old new
        → keeps_entries calls ≡ true
        → added_since old.board after.board < old.board.reserved
        → LaneTakesEntryAlone chunk sure after lane
        → ¬ (HoldsUp chunk sure lane count (floor_of new) after NoMemory) }
    ensures feeds { (chunk : ℕ) (sure : Bool) (calls : List (HallCall M)) (old new : Hosted M) (after : FloorShown M) (feed count : ℕ)
        → AreMade chunk sure calls old new
        → keeps_entries calls ≡ true
        → added_since old.board after.board < old.board.reserved
        → FeedTakesEntryAlone chunk sure after feed
        → ¬ (Starves chunk sure feed count (floor_of new) after NoMemory) }
{}

/// Shows that nobody is left asleep in a hall, as `cml_room::nobody_is_left_asleep` shows it of a room.
pub fn nobody_is_left_asleep_in_a_hall<M: Message, L: MessageLog<M>, Led: Ledger>(
    hall: &Hall<M, L, Led>,
)
    ensures { (calls : List room.RoomCall) (first : RoomShown M) → NoneDue first
        → room.AreMade (room.NextDue None ∷ calls) first (room_of hall.now)
        → room.NobodyForgotten calls (room_of hall.now) }
{
    // That who isn't due sleeps rightly is a fact of each hall, which the contract of `board` tells.
    let _board = hall.board();
}

/// Shows that one `next_due` after each call of a hall is enough, as `cml_room::one_next_due_is_enough` shows it of a room. A
/// switchboard makes it so: each of its calls ends by one.
pub fn one_next_due_is_enough_in_a_hall<M: Message, L: MessageLog<M>, Led: Ledger>(
    hall: &Hall<M, L, Led>,
)
    ensures { (calls : List room.RoomCall) (given : Option ℕ) (first : RoomShown M) → NoneDue first
        → room.AreMade (room.NextDue given ∷ calls) first (room_of hall.now)
        → room.AnotherAsksNext (room.NextDue given ∷ calls) (room_of hall.now) ⊎ room.AllWouldWait (room_of hall.now) }
{
    // As above.
    let _board = hall.board();
}
