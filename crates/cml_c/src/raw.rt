//! A box taken apart.
ghost use Rattle.std.specs.Prelude.{◌≡◌};
ghost use Rattle.std_alloc.specs.Box.Ownership.{box_owns};

use std::alloc::Allocator;
use std::marker::Model;

/// Where a box's content lies, and what frees its memory. A function over any `T: Drop` takes the box apart, since that bound
/// says what a drop of the content does. `Handle` has no such bound: C can hold no struct with a type parameter.
pub(crate) struct Loose<T, A: Allocator> {
    pub(crate) at: *mut T,
    pub(crate) alloc: A,
    pub(crate) ghost content: { T },
}

impl<T, A: Allocator> Model for Loose<T, A> {
    ghost also_owns = { λ loose. box_owns (A.dealloc_token loose.alloc) T.row loose.at loose.content };
}

impl<T: Drop, A: Allocator> Loose<T, A> {
    pub(crate) fn of(block: Box<T, A>) -> Loose<T, A>
        ensures { result.content ≡ block.value }
    {
        let (at, alloc) = Box::into_raw_with_allocator(block);
        Loose { at, alloc }
    }
}
