//! What is wrong with a report, and on which line.
ghost use Rattle.std.specs.Prelude.{◌≡◌};
ghost use Rattle.cml_chart.specs.declared.report.faults.What.TheVariants.{Memory};

use std::alloc::{AllocError, AllocFailed};
use std::error::Error;
use std::fmt;
use thiserror::Error;

/// The reasons why a text is no report, or is not of its script, or has no chart, in the order in which they are tested.
#[derive(Clone, Copy, Debug, PartialEq, Eq, Error)]
pub(crate) enum What {
    #[error("no line end")]
    NoLineEnd,
    #[error("bad bytes")]
    BadBytes,
    #[error("no line of a report")]
    NoReportLine,
    #[error("out of place")]
    OutOfPlace,
    #[error("no end line")]
    NoEndLine,
    #[error("not of this script")]
    OtherScript,
    #[error("name taken")]
    NameTaken,
    #[error("unknown name")]
    UnknownName,
    #[error("too long")]
    TooLong,
    #[error("no memory")]
    Memory,
}

/// A fault of a report. `line` counts from 1; it is 0 for `TooLong` and `Memory`, which concern no line.
#[derive(Clone, Copy, Debug, PartialEq, Eq)]
pub(crate) struct Fault {
    pub(crate) line: u64,
    pub(crate) what: What,
}

impl What {
    /// Returns this fault at a line.
    pub(crate) fn at(self, line: u64) -> Fault
        ensures { result ≡ record { line = line; what = self } }
    {
        Fault { line, what: self }
    }
}

impl From<AllocError> for What {
    ghost from_gives = { λ _ what. what ≡ Memory };

    fn from(_error: AllocError) -> What {
        What::Memory
    }
}

impl<T: Drop> From<AllocFailed<T>> for What {
    ghost from_gives = { λ _ what. what ≡ Memory };

    fn from(_error: AllocFailed<T>) -> What {
        What::Memory
    }
}

impl From<AllocError> for Fault {
    ghost from_gives = { λ _ fault. fault ≡ record { line = 0; what = Memory } };

    fn from(_error: AllocError) -> Fault {
        What::Memory.at(0)
    }
}

impl<T: Drop> From<AllocFailed<T>> for Fault {
    ghost from_gives = { λ _ fault. fault ≡ record { line = 0; what = Memory } };

    fn from(_error: AllocFailed<T>) -> Fault {
        What::Memory.at(0)
    }
}

impl fmt::Display for Fault {
    fn fmt<W: fmt::Write>(&self, f: &mut fmt::Formatter<W>) -> fmt::Result {
        let (line, what) = (self.line, self.what);
        match what {
            What::TooLong | What::Memory => write!(f, "report: {what}"),
            _ => write!(f, "report: line {line}: {what}"),
        }
    }
}

impl Error for Fault {}
