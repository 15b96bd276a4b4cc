use crate::answer::Answer;
use crate::call::Call;
use crate::entry::Reply;

/// The reason why a call failed. The reasons are tested in this order. A board fails only with `NoSuch`, `WrongKind`,
/// `JournalFull` or `NoMemory`, and then nothing has changed. Floors, rooms and switchboards, which share a board, add the
/// others.
#[derive(Clone, Copy, Debug, PartialEq, Eq, Hash)]
pub enum Refusal {
    /// The seat cannot make this call: it waits, has left, or was never made.
    Gone,
    /// A lane or a feed is open, so the journal cannot be cut.
    Busy,
    /// No object has this name.
    NoSuch,
    /// The object does not take this call.
    WrongKind,
    /// The journal is full: it has as many entries since the last cut as its limit, or 2^64 - 1 calls were accepted since
    /// the board was made.
    JournalFull,
    /// The call would wait, and no present seat or open lane could ever answer it: a deadlock.
    Stalled,
    /// An allocation or a message's `share` failed.
    NoMemory,
    /// The journal does not have as many messages of a lane as its end says.
    Unseen,
}

/// The result of a call on a board, or of a seat's call in a room. A call that is not answered is returned.
#[derive(Debug, Drop)]
pub enum Outcome<M> {
    Answered(Answer<M>),
    /// The call would block. On a board nothing has changed. In a room the seat is parked now: `Room::ask_again` makes the
    /// call again once something has changed.
    WouldWait(Call<M>),
    Refused(Refusal, Call<M>),
}

/// The result of a call that the journal keeps: the reply alone. A call that is not answered is returned.
#[derive(Debug, Drop)]
pub enum Response<M> {
    Reply(Reply<M>),
    /// The call would block. On a board nothing has changed. In a room the seat is parked now: `Room::call_again` makes the
    /// call again once something has changed.
    WouldWait(Call<M>),
    Refused(Refusal, Call<M>),
}
