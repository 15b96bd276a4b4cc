//! Few bytes, in an array.
ghost use Rattle.std.specs.Prelude.{◌≡◌, ◌<◌, ◌≤◌, ◌^◌, [], length};

use std::marker::Model;

/// Up to `N` bytes. Contracts see them as their list.
#[derive(Drop)]
pub(crate) struct Few<const N: usize> {
    count: u8,
    bytes: [u8; N],
}

impl<const N: usize> Model for Few<N> {
    ghost use Rattle.std.specs.Prelude.{ℕ, List, ◌≤◌, take};

    ghost Value = { List ℕ };

    ghost view = { λ few. take few.count few.bytes };

    ghost invariant = { λ few. few.count ≤ N };
}

impl<const N: usize> Few<N> {
    #[inline]
    pub(crate) fn empty() -> Few<N>
        ensures { result ≡ [] }
    {
        Few {
            count: 0,
            bytes: [0; N],
        }
    }

    pub(crate) fn new(source: &[u8]) -> Few<N>
        requires room { length source.now ≤ N }
        requires count { length source.now < 2 ^ 8 }
        ensures { result ≡ source.now }
    {
        let mut few = Few::empty();
        few.fill(source);
        few
    }

    /// Puts these bytes in the place of those that were there.
    #[inline]
    pub(crate) fn fill(&mut self, source: &[u8])
        requires room { length source.now ≤ N }
        requires count { length source.now < 2 ^ 8 }
        ensures { self.new ≡ source.now }
    {
        self.bytes[..source.len()].copy_from_slice(source);
        self.count = source.len() as u8;
    }

    pub(crate) fn as_slice(&self) -> &[u8]
        ensures { result.now ≡ self.now }
    {
        &self.bytes[..self.count as usize]
    }
}
