//! How a call on a switchboard in a file fails.
use crate::fault::Fault;
use cml_board::Refusal;

/// The reason why a call failed. `C` is what comes back of a call that was not made, and `T` is what a call that was made returned.
#[derive(Debug, Drop)]
pub enum Failed<C, T> {
    /// The switchboard refused the call, and never with `JournalFull`. It did nothing.
    Refused(Refusal, C),
    /// The call was not made: what was accepted before can't be stored, or the call's message is too long for a line.
    Unmade(Fault, C),
    /// The call was made, and is not stored: after a kill it may not have been. It returned this. The next call stores it, or is
    /// not made.
    Unstored(Fault, T),
}
