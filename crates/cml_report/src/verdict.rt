/// The verdict of an audit on a journal.
#[derive(Clone, Copy, Debug, PartialEq, Eq)]
pub enum Verdict {
    /// It is lawful, and each of its entries is the script's.
    Lawful,
    /// The entry at this position is the first that is not lawful.
    Unlawful(usize),
    /// It is lawful, and the entry at this position is the first that is not the script's.
    Foreign(usize),
}
