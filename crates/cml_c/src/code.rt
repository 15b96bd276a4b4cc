ghost use Rattle.std.specs.Prelude.{◌≡◌};
ghost use Rattle.cml_c.specs.{number, of_refusal};

use cml_board::Refusal;

/// What a call returns to C. The header has each code by name, with its number.
#[derive(Clone, Copy, Debug, PartialEq, Eq)]
pub enum Code {
    /// It was done. What it gives, if anything, is written.
    Done,
    /// A poll found nothing, or no seat is due.
    Nothing,
    /// The variable was full before, and stays as it was.
    Put,
    /// The port was closed before.
    Closed,
    /// The seat waits now.
    Parked,
    Gone,
    Busy,
    NoSuch,
    WrongKind,
    JournalFull,
    Stalled,
    NoMemory,
    Unseen,
    /// The lane has no free slot.
    Full,
    /// The lane is still open, since one of its messages could not be moved.
    StillOpen,
    /// What the handle leads to does not take this call.
    WrongHandle,
    /// A limit, a capacity, a message's length, or an entry's kind is out of its bounds.
    OutOfBounds,
    /// An entry is unlawful.
    Unlawful,
    /// A journal's text has a fault.
    Fault,
    /// A journal's text ends within a line, or has none.
    Torn,
    /// No reading would take a line of the journal's text.
    TooLong,
    /// The last piece of a journal's text has no end.
    TextOpen,
    /// A text is no beginning of a journal.
    NoJournal,
}

impl Code {
    #[inline]
    pub fn number(self) -> u32
        ensures { result ≡ number self }
    {
        match self {
            Code::Done => 0,
            Code::Nothing => 1,
            Code::Put => 2,
            Code::Closed => 3,
            Code::Parked => 4,
            Code::Gone => 5,
            Code::Busy => 6,
            Code::NoSuch => 7,
            Code::WrongKind => 8,
            Code::JournalFull => 9,
            Code::Stalled => 10,
            Code::NoMemory => 11,
            Code::Unseen => 12,
            Code::Full => 13,
            Code::StillOpen => 14,
            Code::WrongHandle => 15,
            Code::OutOfBounds => 16,
            Code::Unlawful => 17,
            Code::Fault => 18,
            Code::Torn => 19,
            Code::TooLong => 20,
            Code::TextOpen => 22,
            Code::NoJournal => 23,
        }
    }

    #[inline]
    pub fn of_refusal(refusal: Refusal) -> Code
        ensures { result ≡ of_refusal refusal }
    {
        match refusal {
            Refusal::Gone => Code::Gone,
            Refusal::Busy => Code::Busy,
            Refusal::NoSuch => Code::NoSuch,
            Refusal::WrongKind => Code::WrongKind,
            Refusal::JournalFull => Code::JournalFull,
            Refusal::Stalled => Code::Stalled,
            Refusal::NoMemory => Code::NoMemory,
            Refusal::Unseen => Code::Unseen,
        }
    }
}
