/// How a run of a script ended that wrote its report.
#[derive(Clone, Copy, Debug, PartialEq, Eq)]
pub enum Stop {
    /// No step is left.
    Done,
    /// Steps are left, and none is ready.
    Stalled,
    /// The journal reached its limit.
    Full,
    /// A gate held a thread.
    Held,
}
