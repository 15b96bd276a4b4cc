//! Laws over every schedule. `whole` says which texts are whole, and `front` which are fronts of such a text.
ghost use Rattle.std.specs.Prelude.{◌≡◌, ◌⊎◌, ◌+◌, ◌≤◌, ℕ, List, [], ◌++◌, Bool, true, false, length, take};
ghost use Rattle.cml_store.specs.declared.stage.Stage.TheVariants.{Open, Lost};
ghost use Rattle.cml_store.specs.declared.step.Step.TheVariants.{Nothing, Store};
ghost use Rattle.cml_store.specs.Disk.{MayLeave};
ghost use Rattle.cml_store.specs.Machine.{State, is_open, rests, storing_of, storing_begun, store_asked, syncing_of, syncing_begun, sync_asked, syncing_ended};
ghost use Rattle.cml_store.specs.Recovery.{IsPrinted, printed, recovered};
ghost use Rattle.cml_store.specs.World.{World, Event, AllInside, AllKeepMemory, fresh, run, MayRun, MayRead, IsPast};

/// Shows that whatever is accepted, fails, is killed or loses power, in any order and at any moment: after a loss of power recovery
/// keeps a front of the text that was accepted, with all of it that was synced.
pub fn synced_survives_power_loss()
    ensures safe { (whole front : List ℕ → Bool) (limit growth : ℕ) (events : List Event) → whole [] ≡ true
        → MayRun whole front limit growth (fresh whole front limit growth) events
        → let w = run whole front limit growth (fresh whole front limit growth) events in
        (c : List ℕ) → MayLeave w.disk c → IsPast whole front limit growth w.synced w c }
    // No more of it is cut off, but zeros, than may be accepted and not synced: a file of which more would be is damaged.
    ensures few { (whole front : List ℕ → Bool) (limit growth : ℕ) (events : List Event) → whole [] ≡ true
        → MayRun whole front limit growth (fresh whole front limit growth) events
        → let w = run whole front limit growth (fresh whole front limit growth) events in
        (c : List ℕ) → MayLeave w.disk c → length (printed c) ≤ length (recovered whole c) + limit }
{}

/// Shows the same of a kill and of all that was stored. After a sync that failed, or a loss of power, only what is synced counts as
/// stored.
pub fn stored_survives_kills()
    ensures safe { (whole front : List ℕ → Bool) (limit growth : ℕ) (events : List Event) → whole [] ≡ true
        → MayRun whole front limit growth (fresh whole front limit growth) events
        → let w = run whole front limit growth (fresh whole front limit growth) events in
        (c : List ℕ) → MayRead whole front limit growth w c → IsPast whole front limit growth w.stored w c }
    ensures few { (whole front : List ℕ → Bool) (limit growth : ℕ) (events : List Event) → whole [] ≡ true
        → MayRun whole front limit growth (fresh whole front limit growth) events
        → let w = run whole front limit growth (fresh whole front limit growth) events in
        (c : List ℕ) → MayRead whole front limit growth w c → length (printed c) ≤ length (recovered whole c) + limit }
{}

/// Shows what the marks are, and that they stay.
pub fn marks_stay()
    // They are what an open store tells.
    ensures told { (whole front : List ℕ → Bool) (limit growth : ℕ) (events : List Event) → whole [] ≡ true
        → MayRun whole front limit growth (fresh whole front limit growth) events
        → let w = run whole front limit growth (fresh whole front limit growth) events in
        is_open w.store.stage ≡ true → (w.synced ≡ w.store.synced) × (w.disk.failing ≡ false → w.stored ≡ w.store.stored) }
    // The text, and what of it is stored and synced, are whole.
    ensures whole { (whole front : List ℕ → Bool) (limit growth : ℕ) (events : List Event) → whole [] ≡ true
        → MayRun whole front limit growth (fresh whole front limit growth) events
        → let w = run whole front limit growth (fresh whole front limit growth) events in
        (w.synced ≤ w.stored) × (w.stored ≤ length w.text)
        × (whole w.text ≡ true) × (whole (take w.stored w.text) ≡ true) × (whole (take w.synced w.text) ≡ true) }
    // What is synced stays so, and stays what it is, whatever happens later.
    ensures synced { (whole front : List ℕ → Bool) (limit growth : ℕ) (before later : List Event) → whole [] ≡ true
        → MayRun whole front limit growth (fresh whole front limit growth) before
        → let w = run whole front limit growth (fresh whole front limit growth) before in MayRun whole front limit growth w later
        → let v = run whole front limit growth w later in (w.synced ≤ v.synced) × (take w.synced v.text ≡ take w.synced w.text) }
    // So does what is stored, if no sync fails, the system fails to write nothing, and power isn't lost.
    ensures stored { (whole front : List ℕ → Bool) (limit growth : ℕ) (before later : List Event) → whole [] ≡ true
        → MayRun whole front limit growth (fresh whole front limit growth) before
        → let w = run whole front limit growth (fresh whole front limit growth) before in MayRun whole front limit growth w later
        → AllKeepMemory later
        → let v = run whole front limit growth w later in (w.stored ≤ v.stored) × (take w.stored v.text ≡ take w.stored w.text) }
{}

/// Shows that bytes are stored only where the file has room for them, as memory that is mapped must have.
pub fn stores_lie_inside()
    ensures { (whole front : List ℕ → Bool) (limit growth : ℕ) (events : List Event) (from to : ℕ) → whole [] ≡ true
        → MayRun whole front limit growth (fresh whole front limit growth) events
        → let w = run whole front limit growth (fresh whole front limit growth) events in
        storing_of w.store ≡ Store from to → (from ≤ to) × (to ≤ length w.disk.seen) }
{}

/// Shows that recovery refuses nothing that such a run leaves, if what begins as a whole text isn't refused.
pub fn nothing_left_is_refused()
    ensures { (whole front : List ℕ → Bool) (limit growth : ℕ) (events : List Event) → whole [] ≡ true
        → ((text : List ℕ) (n : ℕ) → whole text ≡ true → front (take n text) ≡ true)
        → MayRun whole front limit growth (fresh whole front limit growth) events
        → let w = run whole front limit growth (fresh whole front limit growth) events in
        (c : List ℕ) → MayLeave w.disk c ⊎ MayRead whole front limit growth w c → front (printed c) ≡ true }
{}

/// Shows that what is no journal, or has failed for good with no step under way, is not touched.
pub fn refused_is_untouched()
    ensures { (whole front : List ℕ → Bool) (limit growth : ℕ) (w : World) (events : List Event) → w.store.stage ≡ Lost
        → storing_of w.store ≡ Nothing → AllInside events → MayRun whole front limit growth w events
        → (run whole front limit growth w events).disk ≡ w.disk }
{}

/// Shows that whatever is left behind what is synced, garbage too, recovery keeps all that is synced. What more it keeps is whole;
/// that this is what was stored is more than any sum can prove.
pub fn whatever_is_behind()
    ensures { (whole : List ℕ → Bool) (text c : List ℕ) (mark : ℕ) → mark ≤ length text → mark ≤ length c
        → take mark c ≡ take mark text → IsPrinted text → whole (take mark text) ≡ true
        → (mark ≤ length (recovered whole c)) × (take mark (recovered whole c) ≡ take mark text) }
{}

/// Shows that where all that was accepted is synced, in a journal's file and in one beside it, recovery gives the text of one of
/// them, whichever of them a loss of power leaves. So the one may be renamed to the other.
pub fn either_will_do()
    ensures { (whole front : List ℕ → Bool) (limit growth : ℕ) (journal beside : List Event) → whole [] ≡ true
        → MayRun whole front limit growth (fresh whole front limit growth) journal
        → MayRun whole front limit growth (fresh whole front limit growth) beside
        → let v = run whole front limit growth (fresh whole front limit growth) journal in
        let w = run whole front limit growth (fresh whole front limit growth) beside in
        v.synced ≡ length v.text → w.synced ≡ length w.text
        → (c : List ℕ) → MayLeave v.disk c ⊎ MayLeave w.disk c → (recovered whole c ≡ v.text) ⊎ (recovered whole c ≡ w.text) }
{}

/// Shows that a store goes on: it asks for nothing only if a step is under way, it has failed for good, or all is synced.
pub fn it_goes_on()
    ensures { (growth : ℕ) (s : State) → store_asked false growth s ≡ Nothing → sync_asked s ≡ Nothing
        → (rests (storing_of s) ≡ false) ⊎ (rests (syncing_of s) ≡ false) ⊎ (s.stage ≡ Lost)
        ⊎ ((s.stage ≡ Open) × (s.accepted ≤ s.synced)) }
{}

/// Shows that a store that has failed for good asks for nothing more.
pub fn nothing_more_is_done()
    ensures { (closing : Bool) (growth : ℕ) (s : State) → s.stage ≡ Lost
        → (is_open s.stage ≡ false)
        × (store_asked closing growth s ≡ Nothing) × (storing_begun closing growth s ≡ s)
        × (sync_asked s ≡ Nothing) × (syncing_begun s ≡ s) × ((done : Bool) → syncing_ended done s ≡ s) }
{}
