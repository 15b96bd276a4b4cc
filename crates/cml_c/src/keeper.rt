//! What C holds of a message of more than 78 bytes.
ghost use Rattle.std.specs.Prelude.{◌≡◌, Option, Some};
ghost use Rattle.cml_c.specs.declared.keeper.Held.{Held};
ghost use Rattle.cml_c.specs.Owning.{owned_coded, slot_coded};
ghost use Rattle.cml_c.specs.contracts.keeper.Held.{the_row as held_row};

use crate::raw::Loose;
use cml_board::Bytes;
use std::alloc::Global;
use std::marker::{Model, Send};

/// A message that is kept for C, or nothing yet.
#[derive(Drop)]
pub struct Held {
    pub bytes: Option<Bytes>,
}

/// A message on the heap, which shares its bytes with others. In C it is the same struct as `Share`.
#[repr(C)]
pub struct Keeper {
    at: *mut u8,
    alloc: Global,
    pub ghost kept: { Held } by { owned_coded held_row },
}

impl Model for Keeper {
    ghost use Rattle.cml_c.specs.contracts.keeper.Held.{the_row as held_row};
    ghost use Rattle.cml_c.specs.Owning.{handle_owns};

    ghost also_owns = { λ keeper. handle_owns held_row keeper.alloc keeper.at keeper.kept };
}

/// Where a keeper is written. What C had there before is forgotten; once a keeper was written, C has one there, and `kept` is the
/// message.
#[repr(C)]
#[derive(Drop)]
pub struct Share {
    at: *mut u8,
    alloc: Global,
    pub ghost kept: { Option Held } by { slot_coded held_row },
}

impl Model for Share {
    ghost use Rattle.cml_c.specs.contracts.keeper.Held.{the_row as held_row};
    ghost use Rattle.cml_c.specs.Owning.{slot_owns};

    ghost also_owns = { λ share. slot_owns held_row share.alloc share.at share.kept };
}

unsafe impl Send for Keeper {}

impl Drop for Keeper {
    fn drop(self) {
        drop(self.into_box());
    }
}

impl Keeper {
    /// A keeper whose memory is this box.
    pub(crate) fn new(block: Box<Held>) -> Keeper
        ensures { result.kept ≡ block.value }
    {
        Keeper::of(Loose::of(block))
    }

    /// Hands the keeper to C: the share, written into C's memory, is a keeper there.
    pub(crate) fn into_slot(self) -> Share
        ensures { result.kept ≡ Some self.kept }
    {
        let Keeper { at, alloc } = self;
        Share { at, alloc }
    }

    fn of(loose: Loose<Held, Global>) -> Keeper
        ensures { result.kept ≡ loose.content }
    {
        let Loose { at, alloc } = loose;
        Keeper {
            at: at as *mut u8,
            alloc,
        }
    }

    fn into_box(self) -> Box<Held, Global>
        ensures { result.value ≡ self.kept }
    {
        let Keeper { at, alloc } = self;
        unsafe { Box::from_raw(alloc, at as *mut Held) }
    }
}
