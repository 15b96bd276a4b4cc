//! The block of memory in which the bytes of a message lie.
ghost use Rattle.std.specs.Prelude.{◌≡◌, ◌<◌, ◌≤◌, ◌^◌, length, IfOk};
ghost use Rattle.std.specs.Arc.{arc_value};
ghost use Rattle.cml_calls.specs.{bytes_of};

use crate::few::Few;
use std::alloc::{AllocError, Global};
use std::sync::Arc;

/// The most bytes that lie in the block itself. They are more than a text has, and fill a block of 88 bytes. A larger block
/// would take longer for short messages, and a smaller one would need a vector more often.
pub(crate) const IN_BLOCK: usize = 78;

/// Bytes: in the block itself, so that one allocation makes it, or in a vector.
#[derive(Drop)]
pub(crate) enum Body {
    Few(Few<IN_BLOCK>),
    Many(Vec<u8>),
}

/// Copies bytes into a block. It fills the block where it lies, because moving a full array there takes longer.
#[inline]
fn block_of(alloc: Global, source: &[u8]) -> Result<Arc<Body>, AllocError>
    requires { length source.now ≤ 78 }
    ensures { IfOk result (λ block. bytes_of (arc_value block) ≡ source.now) }
{
    let mut block = Arc::new(alloc, Body::Few(Few::empty()))?;
    match Arc::get_mut(&mut block) {
        Some(body) => body.fill(source),
        // A new block has one owner, but no clause of `get_mut` says so.
        None => return Err(AllocError),
    }
    Ok(block)
}

impl Body {
    /// Copies bytes to where they fit.
    #[inline]
    pub(crate) fn of_slice(alloc: Global, source: &[u8]) -> Result<Arc<Body>, AllocError>
        ensures { IfOk result (λ body. bytes_of (arc_value body) ≡ source.now) }
    {
        if source.len() <= IN_BLOCK {
            return block_of(alloc, source);
        }
        Ok(Arc::new(alloc, Body::Many(Vec::from_slice(alloc, source)?))?)
    }

    /// Copies few bytes into a block, and keeps the vector of many.
    pub(crate) fn of_vec(alloc: Global, source: Vec<u8>) -> Result<Arc<Body>, AllocError>
        ensures { IfOk result (λ body. bytes_of (arc_value body) ≡ source.items) }
    {
        if source.len() <= IN_BLOCK {
            return block_of(alloc, &source);
        }
        Ok(Arc::new(alloc, Body::Many(source))?)
    }

    /// Puts these few bytes in the place of those that were there.
    #[inline]
    fn fill(&mut self, source: &[u8])
        requires { length source.now ≤ 78 }
        ensures { bytes_of self.new ≡ source.now }
    {
        match self {
            Body::Few(few) => few.fill(source),
            Body::Many(_) => *self = Body::Few(Few::new(source)),
        }
    }

    pub(crate) fn as_slice(&self) -> &[u8]
        ensures { result.now ≡ bytes_of self.now }
    {
        match self {
            Body::Few(few) => few.as_slice(),
            Body::Many(vector) => vector.as_slice(),
        }
    }
}
