//! The sum of a text that comes part by part.
ghost use Rattle.std.specs.Prelude.{◌≡◌, IfOk};
ghost use Rattle.cml_journal.specs.{and_bytes, nothing_summed, sum_by};

use crate::sum::Sum;
use sha2::{Digest, Sha256};
use std::alloc::AllocError;
use std::marker::Model;

/// How far a text is summed.
#[derive(Drop)]
pub struct Summing {
    hasher: Sha256,
}

impl Model for Summing {
    ghost use Rattle.std.specs.Prelude.{List, ℕ};
    ghost use Rattle.sha2.specs.Hashers.{Holds256};
    ghost use Rattle.cml_journal.specs.Sums.{Summed, summed_of};

    ghost Value = { Summed };

    ghost view = { λ summing. summed_of summing.hasher };

    ghost invariant = { λ summing. (text : List ℕ) × Holds256 summing.hasher text };
}

impl Summing {
    /// Nothing is summed yet.
    pub fn new() -> Summing
        ensures { result ≡ nothing_summed }
    {
        Summing {
            hasher: Sha256::new(),
        }
    }

    /// Sums a text's next bytes.
    pub fn add(&mut self, bytes: &[u8])
        ensures { self.new ≡ and_bytes self.old bytes.now }
    {
        self.hasher.update(bytes);
    }

    /// The sum of all bytes so far.
    pub fn sum(&self) -> Result<Sum, AllocError>
        ensures { IfOk result (λ sum. sum ≡ sum_by self.now) }
    {
        let hasher = self.hasher.clone()?;
        Ok(Sum(hasher.finalize()))
    }
}
