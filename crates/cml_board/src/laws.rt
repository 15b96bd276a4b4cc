//! What follows from the definitions.
ghost use Rattle.std.specs.Prelude.{◌≡◌, ℕ, ◌+◌, ◌<◌, ◌≤◌, ◌||◌, ◌↔◌, Some, None, Bool, true, false, not, List, reverse, slice_get};
ghost use Rattle.cml_board.specs.{Entry, Call, Want, Lawful, Fits, answer, want_in, Waits, IsLawfulEverywhere, parts_of, call_of, row_of};
ghost use Rattle.cml_board.specs.{may_have, makes_object, fills_chunk, shares, Refuses, Step, Runs, answered_count};
ghost use Rattle.cml_board.specs.declared.parts.Parts.{Parts};
ghost use Rattle.cml_board.specs.Shown.{Shown};
ghost use Rattle.cml_board.specs.declared.outcome.Refusal.TheVariants.{NoMemory};

/// Shows when a journal is a lawful history: exactly if at every position the call fits the entries before it, and its
/// reply is the answer there and not a wait.
pub fn lawful_at_every_position<M>()
    ensures each { (history : List (Entry M)) → Lawful history → IsLawfulEverywhere (reverse history) }
    ensures only { (history : List (Entry M)) → IsLawfulEverywhere (reverse history) → Lawful history }
{}

/// Shows that over a run of calls only answered calls use up reserved memory, one entry each. So while some is left, a call
/// that needs no other memory does not fail for want of memory.
pub fn reserved_lasts<M>()
    ensures lasts { (chunk : ℕ) (sure : Bool) (steps : List (Step M)) (old new : Shown M)
        → Runs chunk sure steps old new
        → old.reserved ≤ new.reserved + answered_count steps }
    ensures serves { (chunk : ℕ) (sure : Bool) (steps : List (Step M)) (old new : Shown M)
        → Runs chunk sure steps old new
        → answered_count steps < old.reserved
        → (call : Call M)
        → makes_object new.history call ≡ false
        → fills_chunk chunk new.history call ≡ false
        → (sure || not (shares new.history call)) ≡ true
        → ¬ (Refuses chunk sure new call NoMemory) }
{}

/// Shows that a call fits and waits exactly if it has a want, and a call with that want waits. So the message of a swap makes
/// no difference, and a caller can keep a waiting call's want without the call.
pub fn calls_wait_by_want<M>()
    ensures wanting { (history : List (Entry M)) (call : Call M) (on : Want)
        → want_in call ≡ Some on
        → (Fits history call × (answer history call ≡ None)) ↔ Waits history on }
    ensures others { (history : List (Entry M)) (call : Call M)
        → want_in call ≡ None
        → ¬ (answer history call ≡ None) }
{}

/// Shows that each entry of a lawful history has a reply that its call may have, by the table of calls.
pub fn replies_suit_calls<M>()
    ensures { (history : List (Entry M)) → Lawful history
        → (k : ℕ) (entry : Entry M) → slice_get history k ≡ Some entry
        → may_have (row_of entry.call) entry.reply ≡ true }
{}

/// Shows that a call is its parts: its row in the table, its object and its message. What is taken apart can be put together
/// again, and the other way round. So what holds of each row holds of each call.
pub fn calls_are_their_parts<M>()
    ensures calls { (call : Call M) → call_of (parts_of call) ≡ call }
    ensures parts { (parts : Parts M) → parts_of (call_of parts) ≡ parts }
{}
