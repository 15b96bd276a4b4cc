//! Why a check of a journal's text stops.
ghost use Rattle.std.specs.Prelude.{◌≡◌};
ghost use Rattle.cml_journal.specs.declared.stop.Halt.TheVariants.{NoMemory as memory};
ghost use Rattle.cml_journal.specs.{halt_of};

use crate::fault::{Unread, What};
use std::alloc::AllocError;
use thiserror::Error;

/// Why a check stops.
#[derive(Debug, Drop, Error)]
pub enum Stop {
    /// The entry at this position is the first that isn't lawful. Its line follows, without a line end.
    #[error("unlawful at {0}: {1}")]
    Unlawful(u64, String),
    /// This line has a fault.
    #[error("line {0}: {1}")]
    Fault(u64, What),
    /// An allocation failed.
    #[error("no memory")]
    NoMemory,
}

/// What a check that stopped keeps of that.
#[derive(Clone, Copy, Debug, PartialEq, Eq)]
pub enum Halt {
    /// The entry at this position is the first that isn't lawful.
    Unlawful(u64),
    /// This line has a fault.
    Fault(u64, What),
    /// An allocation failed.
    NoMemory,
}

impl Halt {
    /// The halt by what a reader met on this line.
    pub(crate) fn of_unread(unread: Unread, line: u64) -> Halt
        ensures { result ≡ halt_of unread line }
    {
        match unread {
            Unread::Memory => Halt::NoMemory,
            Unread::Fault(what) => Halt::Fault(line, what),
        }
    }
}

impl From<AllocError> for Halt {
    ghost from_gives = { λ _ halt. halt ≡ memory };

    fn from(_error: AllocError) -> Halt {
        Halt::NoMemory
    }
}
