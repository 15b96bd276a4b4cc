//! What the sink of a `Keeping` had taken when it was made, and what was pending, as a type parameter names it.
use cml_board::Entry;
use std::marker::Brand;
use std::sync::ledger::Ledger;

/// The ledger of a `Keeping`'s switchboard, and the entries that its pending journal had at first. A call that passes `Brand` picks
/// both.
pub trait Start<M>: Ledger {
    ghost use Rattle.std.specs.Prelude.{List};
    ghost use Rattle.cml_board.specs.{Entry};

    /// All entries of the pending journal that the `Keeping` was made of, oldest first.
    ghost start: { List (Entry M) };
}

impl<M> Start<M> for Brand {
    ghost use Rattle.std.specs.Prelude.{[]};

    ghost start = { [] };
}
