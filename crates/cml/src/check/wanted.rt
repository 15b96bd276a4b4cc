//! What is asked about a journal that is whole and lawful.

/// What is asked about a journal that is whole and lawful.
#[derive(Clone, Copy, Debug, PartialEq, Eq)]
pub(crate) enum Wanted {
    /// How many entries it has.
    Verdict,
    /// That, and the lines of the objects.
    State,
    /// A short journal that leaves the same, and nothing else.
    Compacted,
}
