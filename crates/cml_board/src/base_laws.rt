//! Laws of bases. A base and the entries since give, for each object, what the whole history gives. These are how it began,
//! how many messages were sent to it, its place, whether it is open, what it holds and which of its messages are kept. They
//! give what is owed to each open receiver, and what is due to it since the cut. They give the answer of each call that
//! fits, and the next base.
ghost use Rattle.std.specs.Prelude.{◌≡◌, ℕ, List, [], ◌++◌, length, drop, true, false};
ghost use Rattle.cml_board.specs.{Entry, Call, source_by, held, Lawful, Fits, made, origin_of, sent, got, owed, place, is_open, answer};
ghost use Rattle.cml_board.specs.{kept_from, is_a, base_of, made_since, count_since, place_since, open_since, held_since, kept_since};
ghost use Rattle.cml_board.specs.{messages_since, due_since, owed_since, answer_since, next_base};
ghost use Rattle.cml_calls.specs.{is_receiver};

/// Shows that a base and the entries since give the same facts about each object as the whole history. These are how it
/// began, how many messages were sent to it, its place, whether it is open, and what it holds.
pub fn bases_tell_objects<M>()
    ensures made { (chunk : ℕ) (past since : List (Entry M)) → Lawful (since ++ past)
        → made_since (base_of chunk past) since ≡ made (since ++ past) }
    ensures count { (chunk : ℕ) (past since : List (Entry M)) (name : ℕ)
        → count_since (base_of chunk past) since name ≡ length (sent (since ++ past) name) }
    ensures place { (chunk : ℕ) (past since : List (Entry M)) (name : ℕ) → Lawful (since ++ past)
        → place_since (base_of chunk past) since name ≡ place (since ++ past) name }
    ensures opened { (chunk : ℕ) (past since : List (Entry M)) (name : ℕ)
        → open_since (base_of chunk past) since name ≡ is_open (since ++ past) name }
    ensures held { (chunk : ℕ) (past since : List (Entry M)) (name : ℕ)
        → held_since (base_of chunk past) since name ≡ held (since ++ past) name }
{}

/// Shows that they also give which messages are kept, what is owed to each open receiver, and the answer of each call that
/// fits. Together they give the base of the whole history, which can be cut away in its turn.
pub fn bases_tell_answers<M>()
    ensures kept { (chunk : ℕ) (past since : List (Entry M)) (name : ℕ) → Lawful (since ++ past)
        → kept_since chunk (base_of chunk past) since name ≡ kept_from chunk (since ++ past) name }
    ensures stream { (chunk : ℕ) (past since : List (Entry M)) (name : ℕ) → Lawful (since ++ past)
        → messages_since chunk (base_of chunk past) since name ≡ drop (kept_from chunk (since ++ past) name) (sent (since ++ past) name) }
    ensures owed { (chunk : ℕ) (past since : List (Entry M)) (name : ℕ) → Lawful (since ++ past)
        → is_a is_receiver (since ++ past) name ≡ true
        → is_open (since ++ past) name ≡ true
        → owed_since (base_of chunk past) since name ≡ owed (since ++ past) name }
    ensures answer { (chunk : ℕ) (past since : List (Entry M)) (call : Call M) → Lawful (since ++ past)
        → Fits (since ++ past) call
        → answer_since (base_of chunk past) since call ≡ answer (since ++ past) call }
    ensures next { (chunk : ℕ) (past since : List (Entry M)) → Lawful (since ++ past)
        → next_base chunk (base_of chunk past) since ≡ base_of chunk (since ++ past) }
{}

/// Shows that since a cut, too, no message is lost, repeated or reordered. What an open receiver received since, followed by
/// what it is owed, is what is due since. For a receiver from before the cut, that is what waited for it at the cut,
/// followed by what was sent since. What was received from a closed port since is a beginning of what is due. If the port
/// was closed before the cut, both are empty.
pub fn bases_tell_messages<M>()
    ensures received { (chunk : ℕ) (past since : List (Entry M)) (name : ℕ) → Lawful (since ++ past)
        → is_a is_receiver (since ++ past) name ≡ true
        → is_open (since ++ past) name ≡ true
        → got since name ++ owed (since ++ past) name ≡ due_since (base_of chunk past) since name }
    ensures closed { (chunk : ℕ) (past since : List (Entry M)) (name : ℕ) → Lawful (since ++ past)
        → is_a is_receiver (since ++ past) name ≡ true
        → (rest : List M) × (got since name ++ rest ≡ due_since (base_of chunk past) since name) }
    ensures closed_before { (chunk : ℕ) (past since : List (Entry M)) (name : ℕ) → Lawful (since ++ past)
        → is_open past name ≡ false
        → (got since name ≡ []) × (due_since (base_of chunk past) since name ≡ []) }
    ensures waiting { (chunk : ℕ) (past since : List (Entry M)) (name : ℕ) → Lawful (since ++ past)
        → is_a is_receiver past name ≡ true
        → is_open past name ≡ true
        → due_since (base_of chunk past) since name ≡ owed past name ++ sent since (source_by name (origin_of past name)) }
{}
