//! How a run of a script ends.
ghost use Rattle.std.specs.Prelude.{◌≡◌};
ghost use Rattle.cml_report.specs.declared.ending.Ending.TheVariants as ending;
ghost use Rattle.cml_report.specs.{ending_of_fault, ending_of_stop, ending_of_unread, status};

use crate::stop::Stop;
use cml_grammar::{Fault, Unread, What};
use std::alloc::AllocError;
use thiserror::Error;

/// How a run of a script ends. Its `Display` is the line for standard error. If a run is done,
/// stalled, full or held, its report says so.
#[derive(Clone, Copy, Debug, PartialEq, Eq, Error)]
pub enum Ending {
    /// Every step was performed.
    #[error("cml: done")]
    Done,
    /// Steps are left, and none is ready.
    #[error("cml: stalled")]
    Stalled,
    /// The script has a fault.
    #[error("{0}")]
    Fault(Fault),
    /// The script could not be read, or it took too many reads.
    #[error("cml: read failed")]
    ReadFault,
    /// The report could not be written.
    #[error("cml: write failed")]
    WriteFault,
    /// There was no memory, and nothing was written.
    #[error("cml: no memory")]
    NoMemory,
    /// The journal reached its limit.
    #[error("cml: full")]
    Full,
    /// The journal's entry at this position breaks the law.
    #[error("cml: not lawful at {0}")]
    NotLawful(usize),
    /// A gate held a thread.
    #[error("cml: held")]
    Held,
}

impl From<AllocError> for Ending {
    ghost from_gives = { λ _ ended. ended ≡ ending.NoMemory };

    fn from(_error: AllocError) -> Ending {
        Ending::NoMemory
    }
}

impl From<Unread> for Ending {
    ghost from_gives = { λ unread ended. ended ≡ ending_of_unread unread };

    fn from(unread: Unread) -> Ending {
        match unread {
            Unread::Failed => Ending::ReadFault,
            Unread::Memory => Ending::NoMemory,
        }
    }
}

impl From<Stop> for Ending {
    ghost from_gives = { λ stop ended. ended ≡ ending_of_stop stop };

    fn from(stop: Stop) -> Ending {
        match stop {
            Stop::Done => Ending::Done,
            Stop::Stalled => Ending::Stalled,
            Stop::Full => Ending::Full,
            Stop::Held => Ending::Held,
        }
    }
}

impl From<Fault> for Ending {
    ghost from_gives = { λ fault ended. ended ≡ ending_of_fault fault };

    fn from(fault: Fault) -> Ending {
        match fault.what {
            What::Memory => Ending::NoMemory,
            _ => Ending::Fault(fault),
        }
    }
}

/// Returns the exit status of a program that ends like this.
pub fn status_of(ending: &Ending) -> u8
    ensures { result ≡ status ending.now }
{
    match ending {
        Ending::Done => 0,
        Ending::Stalled | Ending::Held => 1,
        Ending::Fault(_) => 2,
        Ending::ReadFault | Ending::WriteFault => 4,
        Ending::NoMemory => 5,
        Ending::Full => 6,
        Ending::NotLawful(_) => 7,
    }
}
