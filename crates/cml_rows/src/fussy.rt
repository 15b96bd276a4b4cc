//! Messages that count how many of them live, and whose `share` may fail.
ghost use Rattle.std.specs.Prelude.{◌≡◌, ℕ, false, IfOk};

use cml_board::Message;
use std::alloc::{AllocError, Global};
use std::fmt;
use std::marker::Model;
use std::sync::atomic::AtomicU64;
use std::sync::atomic::Ordering::SeqCst;

/// The number that is never shared.
const UNLUCKY: u64 = 13;

/// A number in its own block, so that each share allocates; sharing 13 always fails. Each share adds one to the count of
/// live messages, and each drop takes one away.
pub struct Fussy<'a> {
    live: &'a AtomicU64,
    number: Box<u64>,
}

impl<'a> Model for Fussy<'a> {
    ghost Value = { ℕ };

    ghost view = { λ fussy. fussy.number.value };
}

impl Drop for Fussy<'_> {
    fn drop(self) {
        let Fussy { live, number: _ } = self;
        live.fetch_sub(1, SeqCst);
    }
}

impl<'a> Fussy<'a> {
    pub fn new(alloc: Global, live: &'a AtomicU64, number: u64) -> Result<Fussy<'a>, AllocError>
        ensures { IfOk result (λ fussy. fussy ≡ number) }
    {
        let number = Box::new(alloc, number)?;
        live.fetch_add(1, SeqCst);
        Ok(Fussy { live, number })
    }

    pub fn number(&self) -> u64
        ensures { result ≡ self.now }
    {
        *self.number
    }

    /// The count of these messages.
    pub fn counter(&self) -> &'a AtomicU64 {
        self.live
    }
}

impl<'a> Message for Fussy<'a> {
    ghost SURE = { false };

    fn share(&self, alloc: Global) -> Result<Fussy<'a>, AllocError> {
        if self.number() == UNLUCKY {
            return Err(AllocError);
        }
        Fussy::new(alloc, self.live, self.number())
    }

    fn same(&self, other: &Fussy<'a>) -> bool {
        self.number() == other.number()
    }
}

impl fmt::Debug for Fussy<'_> {
    fn fmt<W: fmt::Write>(&self, f: &mut fmt::Formatter<W>) -> fmt::Result {
        let number = self.number();
        write!(f, "{number}")
    }
}
