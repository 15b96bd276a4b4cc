use cml_board::Refusal;

/// The reason why a call on a `Keeping` failed. `E` is the error of its sink.
#[derive(Debug, Drop)]
pub enum Failure<E> {
    /// The switchboard refused the call, and never with `JournalFull`.
    Refused(Refusal),
    /// The call found the journal full, and the sink didn't take its entries. They are pending: nothing is lost. Make the call
    /// again once the sink can take them.
    NotKept(E),
}
