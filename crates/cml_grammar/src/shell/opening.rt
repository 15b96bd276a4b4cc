//! The words that a program is started with.

use clap::Error;
use std::alloc::AllocError;
use std::env;
use std::io::ErrorKind;
use thiserror::Error;

/// Why a program's words give no order.
#[derive(Debug, Drop, Error)]
pub enum NoOrder {
    /// There was no memory for the words.
    #[error("no memory")]
    NoMemory,
    /// A word is not UTF-8.
    #[error("the command line is not UTF-8")]
    NotUnicode,
    /// The words ask for help, or are not understood.
    #[error("{0}")]
    Words(#[from] Error),
}

impl From<AllocError> for NoOrder {
    fn from(_error: AllocError) -> NoOrder {
        NoOrder::NoMemory
    }
}

/// Returns the program's words, its name first. Fails if there is no memory for them or one is not UTF-8.
pub fn words(rt: &HostRuntime) -> Result<Vec<String>, NoOrder> {
    match env::args(rt) {
        Ok(args) => Ok(args.collect(rt.alloc())?),
        Err(error) if error.kind() == ErrorKind::OutOfMemory => Err(NoOrder::NoMemory),
        Err(_) => Err(NoOrder::NotUnicode),
    }
}
