ghost use Rattle.std.specs.Prelude.{◌≡◌, ◌↔◌, ◌<◌, ◌^◌, [], length, IsTrue, IsErr, IfOk, OnErr, IsOkAnd};
ghost use Rattle.cml_calls.specs.{IsTooLong};

use crate::body::Body;
use std::alloc::{AllocError, Global};
use std::error::Error;
use std::marker::Model;
use std::mem;
use std::sync::Arc;
use thiserror::Error;

/// The most bytes that a `Bytes` may have.
const MAX_BYTES: usize = 0xFFFF_FFFF;

/// A string of 0 to 4,294,967,295 bytes, which never change. Contracts see it as their list.
///
/// A value is one pointer to memory that all clones share. Dropping the last clone frees it.
#[derive(Drop)]
pub struct Bytes {
    body: Arc<Body>,
}

const _: () = prove!(mem::size_of::<Bytes>() == 8);

impl Model for Bytes {
    ghost use Rattle.std.specs.Prelude.{ℕ, List, ◌<◌, ◌^◌, length};
    ghost use Rattle.std.specs.Arc.{arc_value};
    ghost use Rattle.cml_calls.specs.Body.{bytes_of};

    ghost Value = { List ℕ };

    ghost view = { λ bytes. bytes_of (arc_value bytes.body) };

    ghost invariant = { λ bytes. length (bytes_of (arc_value bytes.body)) < 2 ^ 32 };
}

/// The error for more than 4,294,967,295 bytes.
#[derive(Clone, Copy, Debug, PartialEq, Eq, Error)]
#[error("there are more than 4,294,967,295 bytes")]
pub struct TooLong;

impl Bytes {
    /// Copies these bytes. By the code, it allocates once for up to 78 of them, and twice for more.
    #[inline]
    pub fn from_slice(alloc: Global, source: &[u8]) -> Result<Result<Bytes, TooLong>, AllocError>
        ensures bytes { IfOk result (λ tested. IfOk tested (λ bytes. bytes ≡ source.now)) }
        ensures refused { IfOk result (λ tested. OnErr tested (IsTooLong source.now)) }
        ensures too_long { IsTooLong source.now → IsOkAnd result (λ tested. IsErr tested) }
    {
        if source.len() > MAX_BYTES {
            return Ok(Err(TooLong));
        }
        let body = Body::of_slice(alloc, source)?;
        Ok(Ok(Bytes { body }))
    }

    /// Takes a vector's bytes. It copies up to 78 bytes and drops the vector. Of more it copies none: it keeps the vector,
    /// with its spare room. It allocates once. If it fails, it drops the vector.
    pub fn from_vec(alloc: Global, source: Vec<u8>) -> Result<Result<Bytes, TooLong>, AllocError>
        ensures bytes { IfOk result (λ tested. IfOk tested (λ bytes. bytes ≡ source.items)) }
        ensures refused { IfOk result (λ tested. OnErr tested (IsTooLong source.items)) }
        ensures too_long { IsTooLong source.items → IsOkAnd result (λ tested. IsErr tested) }
    {
        if source.len() > MAX_BYTES {
            return Ok(Err(TooLong));
        }
        let body = Body::of_vec(alloc, source)?;
        Ok(Ok(Bytes { body }))
    }

    /// Lends the bytes. They stay where they are until the last clone is dropped.
    pub fn as_slice(&self) -> &[u8]
        ensures bytes { result.now ≡ self.now }
        ensures bound { length result.now < 2 ^ 32 }
    {
        self.body.as_slice()
    }

    pub fn len(&self) -> usize
        ensures length { result ≡ length self.now }
        ensures bound { result < 2 ^ 32 }
    {
        self.as_slice().len()
    }

    pub fn is_empty(&self) -> bool
        ensures { IsTrue result ↔ (self.now ≡ []) }
    {
        self.as_slice().is_empty()
    }
}

/// A clone copies no bytes: it shares their memory. It fails only if there are 2^63 - 1 clones already, which no clause of
/// `Arc` says.
impl Clone for Bytes {
    ghost is_clone = { λ bytes copy. copy ≡ bytes };

    fn clone(&self) -> Result<Bytes, AllocError> {
        let body = self.body.clone()?;
        Ok(Bytes { body })
    }
}
