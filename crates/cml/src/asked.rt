//! What the program is asked to do.

use cml_script::Form;

/// What the program is asked to do.
#[derive(Clone, Copy, Debug, PartialEq, Eq)]
pub(crate) enum Order {
    /// To replay a script, one step at a time, with a journal of at most this many entries.
    Replay(u64, Form),
    /// To run a script, each of its threads as a thread of the operating system, with a journal of at most this many entries.
    Run(u64, Form),
    /// To explore a script, with at most this many states.
    Explore(u64, Form),
    /// To check a journal, and to write the state that it ends in if that is asked for too.
    Check(bool),
    /// To compact a journal.
    Compact,
}
