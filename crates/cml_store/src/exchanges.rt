//! Laws of an exchange, over every schedule of both stores and of the exchange. The short text, with which the new file begins, stands
//! for the long one, with which the old file began.
ghost use Rattle.std.specs.Prelude.{◌≡◌, ◌⊎◌, ◌≤◌, ℕ, List, [], ◌++◌, Bool, true, false, take};
ghost use Rattle.cml_store.specs.declared.exchange.Way.TheVariants.{Beside, Renaming, Naming, Over, Left, Lost};
ghost use Rattle.cml_store.specs.declared.exchange.Move.TheVariants.{Nothing};
ghost use Rattle.cml_store.specs.Disk.{MayLeave};
ghost use Rattle.cml_store.specs.Exchange.{Crossing, counted, covers, move_asked};
ghost use Rattle.cml_store.specs.Machine.{State, is_open};
ghost use Rattle.cml_store.specs.Pair.{Pair, Happening, EndsMove, IsOld, after_pair, HasName, file_of, crossing, run_pair, MayRunPair, IsOfStore, IsReached, stored_of, synced_of, text_of, StandsFor, AllKeepBoth};
ghost use Rattle.cml_store.specs.World.{MayRead};

/// Shows that whatever is accepted, fails, is killed or loses power, in any order and at any moment of an exchange: whichever file
/// has the name then, recovery keeps what means the same as a front of the text that was accepted.
pub fn exchange_keeps()
    // After a loss of power it has all that was acknowledged as synced. `means` says what a text means.
    ensures lost { (whole front : List ℕ → Bool) (limit growth : ℕ) (long short : List ℕ) (p : Pair) (means : List ℕ → List ℕ)
        → whole [] ≡ true → IsReached whole front limit growth long short p
        → ((more : List ℕ) → means (short ++ more) ≡ means (long ++ more))
        → (is_new : Bool) (c : List ℕ) → HasName p.name is_new → MayLeave (file_of is_new p).disk c
        → StandsFor whole front limit growth long short means (synced_of long short p) p c }
    // After a kill it has all that was acknowledged as stored.
    ensures killed { (whole front : List ℕ → Bool) (limit growth : ℕ) (long short : List ℕ) (p : Pair) (means : List ℕ → List ℕ)
        → whole [] ≡ true → IsReached whole front limit growth long short p
        → ((more : List ℕ) → means (short ++ more) ≡ means (long ++ more))
        → (is_new : Bool) (c : List ℕ) → HasName p.name is_new → MayRead whole front limit growth (file_of is_new p) c
        → StandsFor whole front limit growth long short means (stored_of long short p) p c }
{}

/// Shows what an exchange acknowledges, and that this stays.
pub fn acknowledged_stays()
    // It is what an exchange of open files tells.
    ensures told { (whole front : List ℕ → Bool) (limit growth : ℕ) (long short : List ℕ) (p : Pair) → whole [] ≡ true
        → IsReached whole front limit growth long short p → is_open p.old.store.stage ≡ true → is_open p.new.store.stage ≡ true
        → let e = crossing long short p.way in (synced_of long short p ≡ counted e p.old.store.synced p.new.store.synced)
        × (p.old.disk.failing ≡ false → p.new.disk.failing ≡ false
        → stored_of long short p ≡ counted e p.old.store.stored p.new.store.stored) }
    // What is synced stays so, and stays what it is, whatever happens later.
    ensures synced { (whole front : List ℕ → Bool) (limit growth : ℕ) (long short : List ℕ) (p : Pair) (later : List Happening)
        → whole [] ≡ true → IsReached whole front limit growth long short p → MayRunPair whole front limit growth long short p later
        → let q = run_pair whole front limit growth long short p later in (synced_of long short p ≤ synced_of long short q)
        × (take (synced_of long short p) (text_of long short q) ≡ take (synced_of long short p) (text_of long short p)) }
    // So does what is stored, if no sync fails, the system fails to write nothing, and power isn't lost.
    ensures stored { (whole front : List ℕ → Bool) (limit growth : ℕ) (long short : List ℕ) (p : Pair) (later : List Happening)
        → whole [] ≡ true → IsReached whole front limit growth long short p → MayRunPair whole front limit growth long short p later
        → p.old.disk.failing ≡ false → p.new.disk.failing ≡ false → AllKeepBoth later
        → let q = run_pair whole front limit growth long short p later in (stored_of long short p ≤ stored_of long short q)
        × (take (stored_of long short p) (text_of long short q) ≡ take (stored_of long short p) (text_of long short p)) }
{}

/// Shows that a renaming that fails leaves the name with the old file, which counts alone from then on.
pub fn failed_renaming_keeps_the_old_file()
    ensures step { (whole front : List ℕ → Bool) (limit growth : ℕ) (long short : List ℕ) (p : Pair) → p.way ≡ Renaming
        → let q = after_pair whole front limit growth long short p (EndsMove false) in (q.way ≡ Left) × (q.name ≡ IsOld)
        × (synced_of long short q ≡ p.old.synced) × (stored_of long short q ≡ p.old.stored) }
    ensures stays { (whole front : List ℕ → Bool) (limit growth : ℕ) (long short : List ℕ) (p : Pair) (later : List Happening)
        → p.way ≡ Left → p.name ≡ IsOld → MayRunPair whole front limit growth long short p later
        → let q = run_pair whole front limit growth long short p later in (q.way ≡ Left) × (q.name ≡ IsOld) }
{}

/// Shows that each of the files is what a store's own run leaves. So the laws of a store say the same of it: its entries are lawful,
/// and a new file may be exchanged again.
pub fn each_file_is_of_a_store()
    ensures { (whole front : List ℕ → Bool) (limit growth : ℕ) (long short : List ℕ) (p : Pair)
        → IsReached whole front limit growth long short p
        → IsOfStore whole front limit growth p.old × IsOfStore whole front limit growth p.new }
{}

/// Shows that an exchange goes on: it asks for nothing only if a step is under way, the new file has less than the old one, or it is
/// over.
pub fn exchange_goes_on()
    ensures { (e : Crossing) (old new : State) → move_asked old new e ≡ Nothing
        → (e.way ≡ Renaming) ⊎ (e.way ≡ Naming) ⊎ ((e.way ≡ Beside) × (covers e old new ≡ false))
        ⊎ (e.way ≡ Over) ⊎ (e.way ≡ Left) ⊎ (e.way ≡ Lost) }
{}
