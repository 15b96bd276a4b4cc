//! How the drawing of a report ends.
ghost use Rattle.std.specs.Prelude.{◌≡◌};
ghost use Rattle.cml_chart.specs.declared.ending.Ending.TheVariants as ending;
ghost use Rattle.cml_chart.specs.{ending_of_fault, ending_of_script_fault, is_shown, status};

use crate::report::{Fault, What};
use cml_journal::Unended;
use std::alloc::AllocError;
use thiserror::Error;

/// How the drawing of a report ends. Its `Display` is the line for standard error. Too many reads of a reader count as a
/// failed read.
#[derive(Clone, Copy, Debug, PartialEq, Eq, Error)]
pub(crate) enum Ending {
    #[error("cml_chart: done")]
    Done,
    #[error("{0}")]
    Fault(Fault),
    #[error("{0}")]
    ScriptFault(cml_grammar::Fault),
    /// The line of a journal, and what is wrong with it.
    #[error("journal: line {0}: {1}")]
    JournalFault(u64, cml_journal::What),
    /// A journal's text has no fault, and is no whole journal.
    #[error("journal: {0}")]
    Unended(Unended),
    /// The first entry of a journal that isn't lawful, by its position.
    #[error("journal: not lawful at {0}")]
    Unlawful(u64),
    #[error("cml_chart: script read failed")]
    ScriptReadFault,
    #[error("cml_chart: read failed")]
    ReadFault,
    #[error("cml_chart: write failed")]
    WriteFault,
    #[error("cml_chart: no memory")]
    NoMemory,
}

impl From<AllocError> for Ending {
    ghost from_gives = { λ _ ended. ended ≡ ending.NoMemory };

    fn from(_error: AllocError) -> Ending {
        Ending::NoMemory
    }
}

impl From<Fault> for Ending {
    ghost from_gives = { λ fault ended. ended ≡ ending_of_fault fault };

    fn from(fault: Fault) -> Ending {
        match fault.what {
            What::Memory => Ending::NoMemory,
            _ => Ending::Fault(fault),
        }
    }
}

impl From<cml_grammar::Fault> for Ending {
    ghost from_gives = { λ fault ended. ended ≡ ending_of_script_fault fault };

    fn from(fault: cml_grammar::Fault) -> Ending {
        match fault.what {
            cml_grammar::What::Memory => Ending::NoMemory,
            _ => Ending::ScriptFault(fault),
        }
    }
}

impl cml_grammar::shell::Ending for Ending {
    ghost status = { status };

    ghost is_shown = { is_shown };

    fn no_memory() -> Ending {
        Ending::NoMemory
    }

    fn write_fault() -> Ending {
        Ending::WriteFault
    }

    fn status(&self) -> u8 {
        match self {
            Ending::Done => 0,
            Ending::Fault(_)
            | Ending::ScriptFault(_)
            | Ending::JournalFault(_, _)
            | Ending::Unended(_) => 2,
            Ending::Unlawful(_) => 7,
            Ending::ScriptReadFault | Ending::ReadFault | Ending::WriteFault => 4,
            Ending::NoMemory => 5,
        }
    }

    fn is_shown(&self) -> bool {
        !matches!(self, Ending::Done)
    }
}
