//! The memory of a log's chunks. This file has every pointer of the crate.
//!
//! A block is allocated and freed by its right. While it lies among the blocks its right lies there too.
ghost use Rattle.std.specs.Prelude.{◌≡◌, ℕ, ◌+◌, ◌<◌, List, Option, [], ◌∷◌, ◌++◌, true, Some, None, length, slice_set, IfOk, OnErr};
ghost use base.Fml.{ftrue};
ghost use denote.RawPtr.{Ptr};
ghost use Rattle.std.specs.Mem.{FitsInMemory};
ghost use Rattle.cml_log.specs.Blocks.{block_at, IsKept, IsBare, blocks_own, blocks_lent, right_owns, link_to};
ghost use Rattle.cml_log.specs.declared.chunk.raw.Address.{Address};

use std::alloc::{AllocError, Global};
use std::marker::{Model, PhantomData, Send, Sync};
use std::mem::size_of;
use std::ptr;

/// How often something was done, for contracts alone: it has no bytes, and so no last value.
pub(crate) struct Counter {
    mark: PhantomData<()>,
    pub ghost count: { ℕ },
}

impl Model for Counter {
    ghost also_owns = { λ _. ftrue };
}

impl Drop for Counter {
    fn drop(self) {
        let Counter { mark: _ } = self;
    }
}

unsafe impl Send for Counter {}

impl Counter {
    /// Nothing was done yet.
    pub(crate) fn zero() -> Counter
        ensures { result.count ≡ 0 }
    {
        Counter { mark: PhantomData }
    }

    // Only the calls that make, free or follow a block may count. They are all in this file.
    fn add(&mut self)
        ensures { self.new.count ≡ self.old.count + 1 }
    {}
}

/// Where a block lies, and its number among those ever made. It owns nothing.
#[derive(Clone, Copy)]
pub struct Address {
    at: *const u8,
    pub(crate) number: u64,
}

unsafe impl Send for Address {}

unsafe impl Sync for Address {}

/// Where a block's content leads. Anyone may make one, but only `Blocks::follow` reads it, which counts that.
/// No link leads to the first block. So its number, 0, says that a link leads nowhere, and a link has no tag.
#[derive(Drop)]
pub(crate) struct Link {
    next: Address,
}

impl Model for Link {
    ghost Value = { Option Address };

    ghost view = { λ link. link_to link.next };
}

impl Link {
    pub(crate) fn nowhere() -> Link
        ensures { result ≡ None }
    {
        Link {
            next: Address {
                at: ptr::null(),
                number: 0,
            },
        }
    }

    pub(crate) fn to(next: Address) -> Link
        requires { 0 < next.number }
        ensures { result ≡ Some next }
    {
        Link { next }
    }

    fn next(&self) -> Option<Address>
        ensures { result ≡ self.now }
    {
        if self.next.number == 0 {
            return None;
        }
        Some(self.next)
    }
}

/// What lies in a block and may lead to another block.
pub(crate) trait Linked {
    ghost leads_to: { Self → Option Address };

    fn link(&self) -> &Link
        ensures { result.now ≡ leads_to self.now };
}

/// The right to a block, which has to be spent: `give_back` spends it.
pub(crate) struct Right<C> {
    at: *mut C,
    pub(crate) ghost content: { C },
}

impl<C> Model for Right<C> {
    ghost also_owns = { λ right. right_owns C.row right.at right.content };
}

unsafe impl<C: Send> Send for Right<C> {}

// A box, and the pointer to where its content lies.
impl<C> Right<C> {
    fn of(block: Box<C, Global>) -> Right<C>
    where
        C: Drop,
        ensures { result.content ≡ block.value }
    {
        let at = Box::into_raw(block);
        Right { at }
    }

    fn into_box(self, alloc: Global) -> Box<C, Global>
        ensures { result.value ≡ self.content }
    {
        let Right { at } = self;
        unsafe { Box::from_raw(alloc, at) }
    }
}

impl<C: Drop> Right<C> {
    /// A block with this content.
    pub(crate) fn make(
        alloc: Global,
        content: C,
        made: &mut Counter,
    ) -> Result<Right<C>, AllocError>
        ensures ok { IfOk result
            (λ right. (right.content ≡ content) × (made.new.count ≡ made.old.count + 1)) }
        ensures err { OnErr result (made.new ≡ made.old) }
    {
        let block = Box::new(alloc, content)?;
        made.add();
        Ok(Right::of(block))
    }

    /// Drops the block's content and frees its memory.
    pub(crate) fn give_back(self, alloc: Global, given: &mut Counter)
        ensures { given.new.count ≡ given.old.count + 1 }
    {
        given.add();
        drop(self.into_box(alloc));
    }
}

/// Whether a content of this type fits in memory.
pub(crate) fn fits<C>() -> bool
    ensures { result ≡ true → FitsInMemory C.row }
{
    size_of::<C>() < 0x8000_0000_0000_0000
}

/// The blocks of a log, each under its number. It has no bytes: each call takes the block's address.
pub(crate) struct Blocks<C> {
    mark: PhantomData<*const C>,
    pub(crate) ghost kept: { List (Option (Ptr × C)) },
}

impl<C> Model for Blocks<C> {
    ghost also_owns = { λ blocks. blocks_own C.row blocks.kept };

    ghost also_shares = { λ blocks _ κ. blocks_lent C.row blocks.kept κ };
}

unsafe impl<C: Send> Send for Blocks<C> {}

impl<C> Blocks<C> {
    ghost use Rattle.std.specs.Borrow.{sem};
    ghost use Rattle.cml_log.specs.Lends.{lends_block};

    pub(crate) fn new() -> Blocks<C>
        requires { FitsInMemory C.row }
        ensures { result.kept ≡ [] }
    {
        Blocks { mark: PhantomData }
    }

    /// A content fits in memory, as was shown when the blocks were made. Reading or dropping a content requires it.
    pub(crate) fn fit(&self)
        ensures { FitsInMemory C.row }
    {}

    /// Keeps a block under the next number.
    pub(crate) fn put(&mut self, number: u64, right: Right<C>) -> Address
        requires { number ≡ length self.old.kept }
        ensures number { result.number ≡ number }
        ensures kept { self.new.kept ≡ self.old.kept ++ Some (result.at, right.content) ∷ [] }
    {
        let at = right.at as *const u8;
        let Right { at: _ } = right;
        Address { at, number }
    }

    /// Takes a block out; its number stays its own.
    pub(crate) fn take(&mut self, address: Address) -> Right<C>
        requires { IsKept self.old.kept address.number address.at }
        ensures content { block_at self.old.kept address.number ≡ Some (address.at, result.content) }
        ensures kept { self.new.kept ≡ slice_set self.old.kept address.number None }
    {
        Right {
            at: address.at as *mut C,
        }
    }

    /// Lends a block's content.
    pub(crate) fn get(&self, address: Address) -> &C
        requires { IsKept self.now.kept address.number address.at }
        ensures { block_at self.now.kept address.number ≡ Some (address.at, result.now) }
    {
        unsafe { &*(address.at as *const C) }
    }

    /// Lends a block's content to be changed.
    pub(crate) fn get_mut(&mut self, address: Address) -> &mut C
        requires { IsKept self.old.kept address.number address.at }
        ensures* writes_back { sem 𝓛 (lends_block C.row self.entry address.number address.at result) }
        ensures value { block_at self.old.kept address.number ≡ Some (address.at, result.now) }
    {
        unsafe { &mut *(address.at as *mut C) }
    }

    /// Ends the blocks, once each was taken.
    pub(crate) fn done(self)
        requires { IsBare self.kept }
    {
        let Blocks { mark: _ } = self;
    }
}

impl<C: Linked> Blocks<C> {
    /// Reads where a block's content leads, and counts it. So a call that has no count to change follows no link.
    pub(crate) fn follow(&self, address: Address, followed: &mut Counter) -> Option<Address>
        requires { IsKept self.now.kept address.number address.at }
        ensures link { (content : C) × (block_at self.now.kept address.number ≡ Some (address.at, content))
            × (result ≡ C.leads_to content) }
        ensures counted { followed.new.count ≡ followed.old.count + 1 }
    {
        self.fit();
        followed.add();
        self.get(address).link().next()
    }
}
