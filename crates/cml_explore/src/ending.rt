//! How an exploration ends.
ghost use Rattle.std.specs.Prelude.{◌≡◌};
ghost use Rattle.cml_explore.specs.Endings.{status};

use cml_grammar::{Fault, Unread};
use cml_report::Ending as Ended;
use std::alloc::{AllocError, AllocFailed};
use thiserror::Error;

/// How an exploration ends. Its `Display` is the line for standard error.
#[derive(Clone, Copy, Debug, PartialEq, Eq, Error)]
pub enum Ending {
    /// As a script does. If all endings were written, it is the worst of them: full, stalled or done. If one ending's journal
    /// was written, it is that ending. Otherwise it is a fault or a failure.
    #[error("{0}")]
    Script(Ended),
    /// There are more states than this limit. What was found among the first states was written.
    #[error("cml: more than {0} states")]
    TooMany(u64),
}

impl From<Ended> for Ending {
    fn from(ended: Ended) -> Ending {
        Ending::Script(ended)
    }
}

impl From<AllocError> for Ending {
    fn from(_error: AllocError) -> Ending {
        Ending::Script(Ended::NoMemory)
    }
}

impl<T: Drop> From<AllocFailed<T>> for Ending {
    fn from(_failed: AllocFailed<T>) -> Ending {
        Ending::Script(Ended::NoMemory)
    }
}

impl From<Fault> for Ending {
    fn from(fault: Fault) -> Ending {
        Ending::Script(Ended::from(fault))
    }
}

impl From<Unread> for Ending {
    fn from(unread: Unread) -> Ending {
        Ending::Script(Ended::from(unread))
    }
}

impl Ending {
    /// Returns the exit status of a program that ends like this.
    pub fn status(&self) -> u8
        ensures { result ≡ status self.now }
    {
        match self {
            Ending::Script(ended) => cml_report::status_of(ended),
            Ending::TooMany(_) => 8,
        }
    }
}
