//! Laws of histories that leave the same to later calls.
ghost use Rattle.std.specs.Prelude.{List, ◌++◌};
ghost use Rattle.cml_board.specs.{Entry, Lawful};
ghost use Rattle.cml_compact.specs.{LeavesTheSame, FollowedAlike};

/// Does nothing, and says: if two lawful histories leave the same, then the same entries may follow both, and both leave the
/// same after them. So each call is answered alike, for as long as both have the same calls.
pub fn same_is_answered_alike<M>()
    ensures followed { (old new : List (Entry M)) → Lawful old → Lawful new → LeavesTheSame old new → FollowedAlike old new }
    ensures leaves { (old new since : List (Entry M)) → Lawful new → LeavesTheSame old new
        → Lawful (since ++ old) → LeavesTheSame (since ++ old) (since ++ new) }
{}
