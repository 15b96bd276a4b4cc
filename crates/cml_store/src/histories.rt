//! Laws of the machine and a journal's entries. A file's text is whole if it is read without a fault, and neither half a line nor
//! a header alone is at its end.
ghost use Rattle.std.specs.Prelude.{◌≡◌, ◌<◌, ◌^◌, ℕ, List, Ok, length};
ghost use Rattle.cml_board.specs.{Entry};
ghost use Rattle.cml_journal.specs.{State, waiting_at, reading};
ghost use Rattle.cml_store.specs.Disk.{MayLeave};
ghost use Rattle.cml_store.specs.Recovery.{recovered};
ghost use Rattle.cml_store.specs.Texts.{is_whole_text, is_front_text, KeepsEntries};
ghost use Rattle.cml_store.specs.World.{Event, fresh, run, MayRun, MayRead};

use cml_journal::Written;

/// Shows that whatever is accepted, fails, is killed or loses power, in any order and at any moment, recovery accepts the file. The
/// entries that it gives begin those that were accepted, so they are lawful if those are.
pub fn histories_stay<M: Written>()
    // After a loss of power they have all that were synced.
    ensures lost { (limit growth : ℕ) (events : List Event) → let whole = is_whole_text M.VERSION M.meaning in
        let front = is_front_text M.VERSION M.meaning in
        MayRun whole front limit growth (fresh whole front limit growth) events
        → let w = run whole front limit growth (fresh whole front limit growth) events in
        (c : List ℕ) → MayLeave w.disk c → KeepsEntries M.VERSION M.meaning w.synced w.text c }
    // After a kill they have all that were stored.
    ensures killed { (limit growth : ℕ) (events : List Event) → let whole = is_whole_text M.VERSION M.meaning in
        let front = is_front_text M.VERSION M.meaning in
        MayRun whole front limit growth (fresh whole front limit growth) events
        → let w = run whole front limit growth (fresh whole front limit growth) events in
        (c : List ℕ) → MayRead whole front limit growth w c → KeepsEntries M.VERSION M.meaning w.stored w.text c }
{}

/// Shows that recovery keeps as many bytes of a file as a reader counts, if the reader finds no fault; and these have the same
/// entries. So one reading is enough.
pub fn kept_is_recovered<M: Written>()
    ensures { (c : List ℕ) (state : State) (entries : List (Entry M)) → length c < 2 ^ 64
        → reading M.VERSION M.meaning (waiting_at 0) c ≡ Ok (state, entries)
        → let kept = recovered (is_whole_text M.VERSION M.meaning) c in
        (length kept ≡ state.kept)
        × ((last : State) × (reading M.VERSION M.meaning (waiting_at 0) kept ≡ Ok (last, entries))) }
{}
