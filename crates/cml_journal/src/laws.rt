//! Laws of the definitions, each the contract of a function that does nothing.
ghost use Rattle.std.specs.Prelude.{◌≡◌, ℕ, ◌+◌, ◌^◌, ◌<◌, ◌∷◌, ◌++◌, List, Option, Ok, Err, Some, None, length};
ghost use Rattle.std.specs.List.{flat_map, AllByRecursion};
ghost use Rattle.cml_board.specs.{Entry};
ghost use Rattle.cml_journal.specs.{line_of, HasLine, entry_in, text_of, stream_lines, What, State, fresh, end_of, behind, printed, reading};
ghost use Rattle.cml_journal.specs.{IsReadable, IsJournalOf, IsTextOf, IsSealedRead, MaybeSum, waiting_at, Sum};

use crate::written::Written;

/// Shows that the line of an entry is read as this entry, and that two entries with the same line are the same.
pub fn lines_are_entries<M: Written>()
    ensures read { (entry : Entry M) → HasLine M.fits entry → entry_in M.meaning (line_of M.text entry) ≡ Ok entry }
    ensures same { (one other : Entry M) → HasLine M.fits one → HasLine M.fits other
        → line_of M.text one ≡ line_of M.text other → one ≡ other }
{}

/// Shows that a stream may be cut anywhere: a reader of its front, and then of the rest, gives the entries of both. A fault
/// in the front is the fault of both.
pub fn streams_may_be_cut<M: Written>()
    ensures on { (state next : State) (front rest : List ℕ) (entries : List (Entry M))
        → reading M.VERSION M.meaning state front ≡ Ok (next, entries)
        → reading M.VERSION M.meaning state (front ++ rest) ≡ behind entries (reading M.VERSION M.meaning next rest) }
    ensures fault { (state : State) (front rest : List ℕ) (what : What)
        → reading M.VERSION M.meaning state front ≡ Err what
        → reading M.VERSION M.meaning state (front ++ rest) ≡ Err what }
{}

/// Shows that a stream that was read to its end is, up to its first byte 0, the writing of exactly these entries, in pieces that
/// follow each other: in plain ones, or in sealed ones of which each names the sum of the one before.
pub fn streams_are_pieces<M: Written>()
    ensures { (bytes : List ℕ) (state : State) (entries : List (Entry M)) (end : ℕ)
        → reading M.VERSION M.meaning fresh bytes ≡ Ok (state, entries)
        → end_of state ≡ Some end
        → (from : ℕ) × (pieces : List (List (Entry M)))
        × IsTextOf M.VERSION M.text from pieces (printed bytes)
        × (entries ≡ flat_map (λ piece. piece) pieces)
        × (end ≡ from + length entries) }
{}

/// Shows the same of a journal that was read from position 0 on. If it is sealed, its first header names no sum.
pub fn journals_are_pieces<M: Written>()
    ensures { (bytes : List ℕ) (state : State) (entries : List (Entry M)) (end : ℕ)
        → reading M.VERSION M.meaning (waiting_at 0) bytes ≡ Ok (state, entries)
        → end_of state ≡ Some end
        → (pieces : List (List (Entry M)))
        × IsJournalOf M.VERSION M.text pieces (printed bytes)
        × (entries ≡ flat_map (λ piece. piece) pieces)
        × (end ≡ length entries) }
{}

/// Shows that the writing of pieces is read to its end, and gives exactly these entries.
pub fn pieces_are_read<M: Written>()
    ensures { (from : ℕ) (piece : List (Entry M)) (pieces : List (List (Entry M))) → M.VERSION < 2 ^ 64
        → AllByRecursion (AllByRecursion (IsReadable M.text M.fits)) (piece ∷ pieces)
        → from + length (flat_map (λ piece. piece) (piece ∷ pieces)) < 2 ^ 64
        → (state : State)
        × (reading M.VERSION M.meaning fresh (text_of (stream_lines M.VERSION M.text from (piece ∷ pieces)))
        ≡ Ok (state, flat_map (λ piece. piece) (piece ∷ pieces)))
        × (end_of state ≡ Some (from + length (flat_map (λ piece. piece) (piece ∷ pieces)))) }
{}

/// Shows the same of sealed pieces, after any piece or as a chain that begins, and that a reader then has the sum of the last.
pub fn sealed_pieces_are_read<M: Written>()
    ensures behind { (after : Option Sum) (from : ℕ) (piece : List (Entry M)) (pieces : List (List (Entry M)))
        → M.VERSION + 2 < 2 ^ 64 → MaybeSum after
        → AllByRecursion (AllByRecursion (IsReadable M.text M.fits)) (piece ∷ pieces)
        → from + length (flat_map (λ piece. piece) (piece ∷ pieces)) < 2 ^ 64
        → IsSealedRead M.VERSION M.text M.meaning fresh after from (piece ∷ pieces) }
    ensures begins { (piece : List (Entry M)) (pieces : List (List (Entry M))) → M.VERSION + 2 < 2 ^ 64
        → AllByRecursion (AllByRecursion (IsReadable M.text M.fits)) (piece ∷ pieces)
        → length (flat_map (λ piece. piece) (piece ∷ pieces)) < 2 ^ 64
        → IsSealedRead M.VERSION M.text M.meaning (waiting_at 0) None 0 (piece ∷ pieces) }
{}
