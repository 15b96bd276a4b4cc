//! The right answer to the call of an unlawful entry.

use crate::entry::Reply;
use crate::outcome::Refusal;

/// What a board with the history before an unlawful entry does with the entry's call.
#[derive(Debug, Drop)]
pub enum Expected<M> {
    /// It answers with this reply, which the entry doesn't have.
    Reply(Reply<M>),
    /// The call would wait.
    WouldWait,
    /// The call fails with `NoSuch` or `WrongKind`.
    Refused(Refusal),
}

/// The first entry of a journal that is unlawful.
#[derive(Debug, Drop)]
pub struct Unlawful<M> {
    /// Its position, counted from the journal's first entry on.
    pub at: u64,
    /// What the board does with its call.
    pub expected: Expected<M>,
}
