//! How a simulation ends.
use cml_board::Refusal;
use std::alloc::{AllocError, AllocFailed};
use thiserror::Error;

/// How a simulation ends. Its `Display` is the line for standard error.
#[derive(Clone, Copy, Debug, PartialEq, Eq, Error)]
pub(crate) enum Ending {
    #[error("cml_queueing: done")]
    Done,
    #[error("cml_queueing: give --load, or --arrivals and --service")]
    NoLoad,
    #[error("cml_queueing: {0} is no decimal above 0 with at most six places")]
    NoDecimal(&'static str),
    #[error("cml_queueing: the load is 1 or more, so the line would grow without end")]
    Overload,
    #[error("cml_queueing: too many customers for so few arrivals: simulated time would end")]
    TooLong,
    #[error("cml_queueing: the board refused a call")]
    Refused,
    #[error("cml_queueing: a customer was not served")]
    Unserved,
    #[error("cml_queueing: write failed")]
    WriteFault,
    #[error("cml_queueing: no memory")]
    NoMemory,
}

impl From<AllocError> for Ending {
    fn from(_error: AllocError) -> Ending {
        Ending::NoMemory
    }
}

impl<T: Drop> From<AllocFailed<T>> for Ending {
    fn from(_error: AllocFailed<T>) -> Ending {
        Ending::NoMemory
    }
}

impl From<Refusal> for Ending {
    fn from(refusal: Refusal) -> Ending {
        match refusal {
            Refusal::NoMemory => Ending::NoMemory,
            _ => Ending::Refused,
        }
    }
}

impl cml_grammar::shell::Ending for Ending {
    ghost use Rattle.cml_queueing.specs.Endings.{status, is_shown};

    ghost status = { status };

    ghost is_shown = { is_shown };

    fn no_memory() -> Ending {
        Ending::NoMemory
    }

    fn write_fault() -> Ending {
        Ending::WriteFault
    }

    fn status(&self) -> u8 {
        match self {
            Ending::Done => 0,
            Ending::NoLoad | Ending::NoDecimal(_) | Ending::Overload | Ending::TooLong => 3,
            Ending::WriteFault => 4,
            Ending::NoMemory => 5,
            Ending::Refused | Ending::Unserved => 7,
        }
    }

    fn is_shown(&self) -> bool {
        !matches!(self, Ending::Done)
    }
}
