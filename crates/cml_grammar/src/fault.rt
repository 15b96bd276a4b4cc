//! What is wrong with a script, and on which line.
ghost use Rattle.std.specs.Prelude.{◌≡◌};
ghost use Rattle.cml_grammar.specs.declared.fault.What.TheVariants.{Memory};
ghost use Rattle.cml_grammar.specs.{fault_at};

use std::alloc::{AllocError, AllocFailed};
use std::error::Error;
use std::fmt;
use thiserror::Error;

/// The faults of a script's line, in the order in which they are tested. The last three are faults of a script as a whole:
/// it is too long, it cannot be replayed, or there was no memory.
#[derive(Clone, Copy, Debug, PartialEq, Eq, Error)]
pub enum What {
    #[error("no line end")]
    NoLineEnd,
    #[error("bad bytes")]
    BadBytes,
    #[error("bad header")]
    BadHeader,
    #[error("bad words")]
    BadWords,
    #[error("unknown line")]
    UnknownLine,
    #[error("late declaration")]
    LateDeclaration,
    #[error("unknown step")]
    UnknownStep,
    #[error("word count")]
    WordCount,
    #[error("bad name")]
    BadName,
    #[error("name taken")]
    NameTaken,
    #[error("unknown name")]
    UnknownName,
    #[error("wrong kind")]
    WrongKind,
    #[error("not yours")]
    NotYours,
    #[error("bad number")]
    BadNumber,
    #[error("bad text")]
    BadText,
    #[error("lane taken")]
    LaneTaken,
    #[error("too many threads")]
    TooManyThreads,
    #[error("too long")]
    TooLong,
    #[error("needs run")]
    NeedsRun,
    #[error("no memory")]
    Memory,
}

/// A fault of a script. `line` counts from 1; it is 0 for `TooLong` and `Memory`, which concern no line.
#[derive(Clone, Copy, Debug, PartialEq, Eq)]
pub struct Fault {
    pub line: u64,
    pub what: What,
}

impl What {
    /// Returns this fault at a line, or at none if it concerns none.
    pub(crate) fn at(self, line: u64) -> Fault
        ensures { result ≡ fault_at line self }
    {
        let line = if self == What::Memory { 0 } else { line };
        Fault { line, what: self }
    }
}

impl From<AllocError> for What {
    ghost from_gives = { λ _ what. what ≡ Memory };

    fn from(_error: AllocError) -> What {
        What::Memory
    }
}

impl<T: Drop> From<AllocFailed<T>> for What {
    ghost from_gives = { λ _ what. what ≡ Memory };

    fn from(_error: AllocFailed<T>) -> What {
        What::Memory
    }
}

impl fmt::Display for Fault {
    fn fmt<W: fmt::Write>(&self, f: &mut fmt::Formatter<W>) -> fmt::Result {
        let line = self.line;
        let what = self.what;
        match what {
            What::TooLong | What::Memory => write!(f, "script: {what}"),
            _ => write!(f, "script: line {line}: {what}"),
        }
    }
}

impl Error for Fault {}
