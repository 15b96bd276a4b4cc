//! How a check ends.

ghost use Rattle.std.specs.Prelude.{◌≡◌};
ghost use Rattle.cml.specs.declared.check.ending.Ending.TheVariants.{NoMemory};
ghost use Rattle.cml.specs.{status_of_check, is_check_shown};

use cml_journal::{Unended, What};
use std::alloc::{AllocError, AllocFailed};
use thiserror::Error;

/// How the check of a journal ends. It shows as the lines for standard error. Of a lawful or an unlawful journal standard output
/// says that, or has the short journal.
#[derive(Debug, Drop, Error)]
pub enum Ending {
    /// All entries are lawful. The number says how many they are. After it are the line of the last sum, if the journal is sealed,
    /// and the lines of the objects, if they are asked for.
    #[error("cml: lawful {0}")]
    Lawful(u64, String),
    /// The entry at this position is the first unlawful one. After it are its line, and the right answer to its call.
    #[error("cml: unlawful at {0}: {1}")]
    Unlawful(u64, String, String),
    /// All entries are lawful, and a short journal was asked for. This is its text.
    #[error("cml: compacted")]
    Compacted(String),
    /// This line has a fault. After it are what is expected there, and what was found.
    #[error("journal: line {0}: {1}\nexpected: {2}\nfound: {3}")]
    Fault(u64, What, String, String),
    /// No line has a fault, and the text is no whole journal.
    #[error("journal: {0}")]
    Unended(Unended),
    /// The journal begins after a cut.
    #[error("journal: begins after a cut")]
    BehindCut,
    /// The line of this entry of the short journal would be longer than a line may be.
    #[error("cml: the line of entry {0} of the short journal is too long")]
    TooLong(u64),
    /// The journal could not be read.
    #[error("cml: read failed")]
    ReadFault,
    /// The verdict could not be written.
    #[error("cml: write failed")]
    WriteFault,
    /// There was no memory.
    #[error("cml: no memory")]
    NoMemory,
}

impl From<AllocError> for Ending {
    ghost from_gives = { λ _ ending. ending ≡ NoMemory };

    fn from(_error: AllocError) -> Ending {
        Ending::NoMemory
    }
}

impl Ending {
    /// The exit status.
    pub(crate) fn status(&self) -> u8
        ensures { result ≡ status_of_check self.now }
    {
        match self {
            Ending::Lawful(_, _) | Ending::Compacted(_) => 0,
            Ending::Unlawful(_, _, _) => 7,
            Ending::Fault(_, _, _, _)
            | Ending::Unended(_)
            | Ending::BehindCut
            | Ending::TooLong(_) => 2,
            Ending::ReadFault | Ending::WriteFault => 4,
            Ending::NoMemory => 5,
        }
    }

    /// Whether standard error shows the lines.
    pub(crate) fn is_shown(&self) -> bool
        ensures { result ≡ is_check_shown self.now }
    {
        !matches!(
            self,
            Ending::Lawful(_, _) | Ending::Compacted(_) | Ending::Unlawful(_, _, _)
        )
    }
}
