//! What is wrong with a journal's text.
ghost use Rattle.std.specs.Prelude.{◌≡◌};
ghost use Rattle.cml_journal.specs.declared.fault.Unread.TheVariants.{Memory};
ghost use Rattle.cml_journal.specs.declared.fault.Unwritten.TheVariants.{Memory as NoRoom};

use std::alloc::AllocError;
use std::error::Error;
use thiserror::Error;

/// The first fault of a line, from left to right.
#[derive(Clone, Copy, Debug, PartialEq, Eq, Error)]
pub enum What {
    /// The line ends where a word is missing.
    #[error("too few words")]
    Short,
    /// A word is not allowed in its place.
    #[error("unknown word")]
    UnknownWord,
    /// No colon is after the call.
    #[error("no colon")]
    NoColon,
    /// A word is not a number below 2^64, or has zeros in front.
    #[error("bad number")]
    BadNumber,
    /// A word is not a message.
    #[error("bad message")]
    BadMessage,
    /// The call never has this reply.
    #[error("wrong reply")]
    WrongReply,
    /// A byte is neither printed nor a space.
    #[error("bad bytes")]
    BadBytes,
    /// A piece does not begin with a header that may be there.
    #[error("no header")]
    NoHeader,
    /// A header has a version that is none of 1 to 4.
    #[error("another version")]
    OtherVersion,
    /// A header has a version of 1 to 4 whose messages are of another type.
    #[error("another type of messages")]
    OtherType,
    /// A piece does not begin where the one before ended.
    #[error("gap")]
    Gap,
    /// The position in a piece's last line is not the one after its last entry.
    #[error("wrong end")]
    WrongEnd,
    /// The sum in a sealed piece's last line is not that of its lines, or its header does not name the sum of the piece before.
    #[error("wrong sum")]
    WrongSum,
    /// There are more than 18,446,744,073,709,551,615 entries.
    #[error("too many entries")]
    TooMany,
    /// The line has more than 4,194,304 bytes.
    #[error("line too long")]
    TooLong,
}

/// How a text ends that has no fault, and is no whole journal.
#[derive(Clone, Copy, Debug, PartialEq, Eq, Error)]
pub enum Unended {
    /// So many lines are whole, and the last piece has no end: a program still writes it, or was stopped.
    #[error("open after line {0}")]
    Open(u64),
    /// Behind so many lines is a part of one, or nothing at all.
    #[error("torn after line {0}")]
    Torn(u64),
    /// No line is whole, and no journal begins so.
    #[error("not a journal")]
    NoJournal,
}

/// The reason why a line was not read.
#[derive(Clone, Copy, Debug, PartialEq, Eq, Error)]
pub enum Unread {
    #[error("no memory")]
    Memory,
    #[error("{0}")]
    Fault(What),
}

/// No reader takes the line of the entry at this place, from 0: it would have more than 4,194,304 bytes. So the piece was not
/// written.
#[derive(Clone, Copy, Debug, PartialEq, Eq, Error)]
#[error("the line of entry {0} is too long")]
pub struct TooLong(pub u64);

/// The reason why a piece was not added to a text.
#[derive(Clone, Copy, Debug, PartialEq, Eq, Error)]
pub enum Unwritten {
    #[error("no memory")]
    Memory,
    /// No reader takes the line of the entry at this place, from 0: it would have more than 4,194,304 bytes.
    #[error("the line of entry {0} is too long")]
    TooLong(u64),
}

impl From<AllocError> for Unwritten {
    ghost from_gives = { λ _ unwritten. unwritten ≡ NoRoom };

    fn from(_error: AllocError) -> Unwritten {
        Unwritten::Memory
    }
}

impl From<AllocError> for Unread {
    ghost from_gives = { λ _ unread. unread ≡ Memory };

    fn from(_error: AllocError) -> Unread {
        Unread::Memory
    }
}
