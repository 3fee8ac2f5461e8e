// Zeros, which new tables copy.
ghost use Rattle.std.specs.Prelude.{◌≡◌, ◌≤◌, max, replicate, IfErr, OnOk};

use std::alloc::{AllocError, Global};
use std::marker::Model;

/// As many zeros as the largest of the tables has words that were made of them. A program that makes tables one after
/// the other keeps them, so that each page of theirs is written once and not once for each table.
#[derive(Drop)]
pub struct Zeros {
    words: Vec<u64>,
}

impl Model for Zeros {
    ghost use Rattle.std.specs.Prelude.{◌≡◌, ℕ, length, replicate};

    ghost Value = { ℕ };

    ghost view = { λ zeros. length zeros.words.items };

    ghost invariant = { λ zeros. zeros.words.items ≡ replicate (length zeros.words.items) 0 };
}

impl Zeros {
    /// None yet.
    pub fn new(alloc: Global) -> Zeros
        ensures { result ≡ 0 }
    {
        Zeros {
            words: Vec::new(alloc),
        }
    }

    // Keeps so many at least.
    pub(crate) fn grow(&mut self, count: usize) -> Result<(), AllocError>
        ensures kept { OnOk result (self.new ≡ max self.old count) }
        ensures fails { IfErr result (λ why. self.new ≡ self.old) }
    {
        if self.words.len() < count {
            self.words.resize(count, 0)?;
        }
        Ok(())
    }

    // So many of them.
    pub(crate) fn first(&self, count: usize) -> &[u64]
        requires kept { count ≤ self.now }
        ensures { result.now ≡ replicate count 0 }
    {
        &self.words[..count]
    }
}
