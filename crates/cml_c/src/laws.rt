//! Laws of what C is shown.
ghost use Rattle.std.specs.Prelude.{◌≡◌, ℕ, List, Some};
ghost use Rattle.cml_board.specs.{Entry};
ghost use Rattle.cml_c.specs.{entry_in, entry_with, parts_of, flat};

/// Shows that an entry which C was shown, and feeds to a checker, is the same entry there.
pub fn entries_go_round()
    ensures numbers { (entry : Entry ℕ) → entry_in (flat entry) ≡ Some entry }
    ensures bytes { (entry : Entry (List ℕ)) → entry_with (parts_of entry) ≡ Some entry }
{}
