//! How a journal's file fails.
use crate::refused::Refused;
use std::alloc::AllocError;
use std::error::Error as _;
use std::io;
use thiserror::Error;

/// The reason why entries are not stored, or not synced.
#[derive(Debug, Drop, Error)]
pub enum Fault {
    /// An allocation failed. Call again.
    #[error("no memory")]
    NoMemory,
    /// A message's word has more bytes than a line of a journal may have, or an entry's line has.
    #[error("too long for a line")]
    TooLong,
    /// Too many bytes are not synced.
    #[error("too many bytes are not synced")]
    Full,
    /// The file would be too long, or these bytes alone are too many.
    #[error("too many bytes")]
    NoRoom,
    /// A sync failed. Nobody knows what is on disk: open the file again.
    #[error("a sync failed: open the file again")]
    Lost,
    /// The system refused to read, write or sync. A write is tried again by the next call.
    #[error("{0}")]
    System(io::Error),
}

impl From<AllocError> for Fault {
    fn from(_error: AllocError) -> Fault {
        Fault::NoMemory
    }
}

impl From<io::Error> for Fault {
    fn from(error: io::Error) -> Fault {
        Fault::System(error)
    }
}

/// The reason why a file is not opened.
#[derive(Debug, Drop, Error)]
pub enum Unopened {
    /// Its text is refused. Not a byte of it was changed.
    #[error("{0}")]
    Refused(Refused),
    /// Another handle has it.
    #[error("another handle has the file")]
    Busy,
    /// The system refused it.
    #[error("{0}")]
    Failed(Fault),
}

impl From<Refused> for Unopened {
    fn from(refused: Refused) -> Unopened {
        Unopened::Refused(refused)
    }
}

impl From<Fault> for Unopened {
    fn from(fault: Fault) -> Unopened {
        Unopened::Failed(fault)
    }
}

impl From<io::Error> for Unopened {
    fn from(error: io::Error) -> Unopened {
        Unopened::Failed(Fault::System(error))
    }
}

impl From<AllocError> for Unopened {
    fn from(_error: AllocError) -> Unopened {
        Unopened::Failed(Fault::NoMemory)
    }
}
