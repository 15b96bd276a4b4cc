//! Why a text is not gone on with.
ghost use Rattle.cml_file.specs.{IsCause};

use cml_journal::{Halt, What};
use thiserror::Error;

/// The reason why a file's text is not gone on with.
#[derive(Clone, Copy, Debug, PartialEq, Eq, Error)]
pub enum Refused {
    /// The first line is none of a journal, or the file has zeros in place of one.
    #[error("the first line is none of a journal")]
    NoJournal,
    /// The first line has a version that this library doesn't know.
    #[error("a version that this library doesn't know")]
    OtherVersion,
    /// The journal has messages of another type.
    #[error("it has messages of another type")]
    OtherMessages,
    /// The journal begins after a cut, and what was before isn't known.
    #[error("what was before the cut isn't known")]
    BeginsLater,
    /// This line has a fault: the journal was changed.
    #[error("the journal was changed: line {0}: {1}")]
    Changed(u64, What),
    /// The entry at this position isn't lawful: the journal was changed.
    #[error("the journal was changed: entry {0} is not lawful")]
    Unlawful(u64),
    /// An allocation failed.
    #[error("no memory")]
    NoMemory,
}

impl Refused {
    /// The reason by what stopped a check.
    pub(crate) fn of(halt: Halt) -> Refused
        ensures { IsCause halt result }
    {
        match halt {
            Halt::NoMemory => Refused::NoMemory,
            Halt::Unlawful(at) => Refused::Unlawful(at),
            Halt::Fault(1, What::OtherVersion) => Refused::OtherVersion,
            Halt::Fault(1, What::OtherType) => Refused::OtherMessages,
            Halt::Fault(1, _) => Refused::NoJournal,
            Halt::Fault(2, What::Gap) => Refused::BeginsLater,
            Halt::Fault(line, what) => Refused::Changed(line, what),
        }
    }
}
