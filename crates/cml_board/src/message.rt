ghost use Rattle.std.specs.Prelude.{◌≡◌, ◌↔◌, Bool, true, false, IsTrue, IfOk, OnErr};

use cml_calls::{Bytes, Text};
use std::alloc::{AllocError, Global};

/// A type that mailboxes carry and variables hold. A journal keeps a copy of each message beside the one that is delivered.
pub trait Message: Drop + Sized {
    /// Whether `share` never fails.
    ghost SURE: { Bool };

    /// Makes a second message equal to this one. Fails only for want of memory.
    fn share(&self, alloc: Global) -> Result<Self, AllocError>
        ensures copy { IfOk result (λ copy. copy ≡ self.now) }
        ensures sure { OnErr result (SURE ≡ false) };

    /// Says whether two messages are equal.
    fn same(&self, other: &Self) -> bool
        ensures { IsTrue result ↔ (self.now ≡ other.now) };

    /// Says whether a receive moves the message out of its log, where no other reader needs it. Otherwise it shares the message.
    /// To share is faster only for a type that owns no memory, such as a number.
    #[inline(always)]
    fn owns_memory() -> bool {
        true
    }
}

impl Message for u64 {
    ghost SURE = { true };

    fn share(&self, _alloc: Global) -> Result<u64, AllocError> {
        Ok(*self)
    }

    fn same(&self, other: &u64) -> bool {
        *self == *other
    }

    #[inline(always)]
    fn owns_memory() -> bool {
        false
    }
}

/// A share copies no bytes: it shares their memory, and fails if there are too many shares.
impl Message for Bytes {
    ghost SURE = { false };

    fn share(&self, _alloc: Global) -> Result<Bytes, AllocError> {
        self.clone()
    }

    fn same(&self, other: &Bytes) -> bool {
        *self == *other
    }
}

/// A text is shared in the same way as its bytes.
impl Message for Text {
    ghost SURE = { false };

    fn share(&self, _alloc: Global) -> Result<Text, AllocError> {
        self.clone()
    }

    fn same(&self, other: &Text) -> bool {
        self.as_bytes() == other.as_bytes()
    }
}
