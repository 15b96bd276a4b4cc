//! Laws of runs of calls on a floor.
ghost use Rattle.std.specs.Prelude.{◌≡◌, ℕ, ◌+◌, ◌<◌, ◌≤◌, Bool, true, false, List, length};
ghost use Rattle.cml_board.specs.{Call};
ghost use Rattle.cml_board.specs.declared.outcome.Outcome.TheVariants.{Refused};
ghost use Rattle.cml_board.specs.declared.outcome.Refusal.TheVariants.{NoMemory};
ghost use Rattle.cml_lanes.specs.{laned, fed, FloorShown, is_open_lane, is_open_feed, HoldsUp, Starves, added_since, TakesEntryAlone};
ghost use Rattle.cml_lanes.specs.{LaneTakesEntryAlone, FeedTakesEntryAlone, FloorCall, AppliesSeat, AreCalled, keeps_journal};

/// Shows that a closed lane stays closed, whatever is called on its floor, and its number gets no more entries.
pub fn closed_lanes_get_no_entry<M>()
    ensures { (chunk : ℕ) (sure : Bool) (calls : List (FloorCall M)) (old new : FloorShown M) (number : ℕ)
        → AreCalled chunk sure calls old new
        → number < length old.lanes
        → is_open_lane old number ≡ false
        → (is_open_lane new number ≡ false) × (laned new.board.history number ≡ laned old.board.history number) }
{}

/// Shows that an ended feed stays ended, whatever is called on its floor, and its number gets no more entries.
pub fn ended_feeds_get_no_entry<M>()
    ensures { (chunk : ℕ) (sure : Bool) (calls : List (FloorCall M)) (old new : FloorShown M) (number : ℕ)
        → AreCalled chunk sure calls old new
        → number < length old.feeds
        → is_open_feed old number ≡ false
        → (is_open_feed new number ≡ false) × (fed new.board.history number ≡ fed old.board.history number) }
{}

/// Shows that over a run of calls on a floor only added entries use up reserved memory, one each. Suppose that fewer entries
/// were added than were reserved, and that only the next entry needs memory. Then no seat's call fails for want of memory,
/// and no lane or feed stops. `take_journal` hands the reserved memory over; a cut keeps it. `HoldsUp` and `Starves` say what
/// a failed `drain` and a failed `pump` do.
pub fn reserved_lasts_on_a_floor<M>()
    ensures lasts { (chunk : ℕ) (sure : Bool) (calls : List (FloorCall M)) (old new : FloorShown M)
        → AreCalled chunk sure calls old new
        → keeps_journal calls ≡ true
        → old.board.reserved ≤ new.board.reserved + added_since old.board new.board }
    ensures seats { (chunk : ℕ) (sure : Bool) (calls : List (FloorCall M)) (old new after : FloorShown M) (seat : ℕ) (call back : Call M)
        → AreCalled chunk sure calls old new
        → keeps_journal calls ≡ true
        → added_since old.board new.board < old.board.reserved
        → TakesEntryAlone chunk sure new.board.history call
        → ¬ (AppliesSeat chunk sure seat call new after (Refused NoMemory back)) }
    ensures lanes { (chunk : ℕ) (sure : Bool) (calls : List (FloorCall M)) (old new after : FloorShown M) (lane count : ℕ)
        → AreCalled chunk sure calls old new
        → keeps_journal calls ≡ true
        → added_since old.board after.board < old.board.reserved
        → LaneTakesEntryAlone chunk sure after lane
        → ¬ (HoldsUp chunk sure lane count new after NoMemory) }
    ensures feeds { (chunk : ℕ) (sure : Bool) (calls : List (FloorCall M)) (old new after : FloorShown M) (feed count : ℕ)
        → AreCalled chunk sure calls old new
        → keeps_journal calls ≡ true
        → added_since old.board after.board < old.board.reserved
        → FeedTakesEntryAlone chunk sure after feed
        → ¬ (Starves chunk sure feed count new after NoMemory) }
{}
