//! Rows of bits.
ghost use Rattle.std.specs.Prelude.{◌≡◌, ℕ, ◌||◌, [], nat_eq, OnOk};
ghost use Rattle.base_bits.specs.Bits.{has_bit};

use base_bits::{has_bit, insert_bit, join};
use std::alloc::{AllocError, Global};
use std::marker::Model;

/// A set of numbers, which contracts see as the words of its bits.
#[derive(Drop)]
pub struct Row {
    words: Vec<u64>,
}

impl Model for Row {
    ghost use Rattle.std.specs.Prelude.{ℕ, List};

    ghost Value = { List ℕ };

    ghost view = { λ r. r.words.items };
}

impl Row {
    /// A row without a bit. Takes no memory.
    pub fn new(alloc: Global) -> Self
        ensures { result ≡ [] }
    {
        Row {
            words: Vec::new(alloc),
        }
    }

    /// Whether bit n is set.
    pub fn has(&self, n: usize) -> bool
        ensures { result ≡ has_bit self.now n }
    {
        has_bit(&self.words, n)
    }

    /// Sets bit n.
    pub fn insert(&mut self, n: usize) -> Result<(), AllocError>
        ensures { OnOk result ((m : ℕ) → has_bit self.new m ≡ (has_bit self.old m || nat_eq n m)) }
    {
        insert_bit(&mut self.words, n)
    }

    /// Sets each bit of another row.
    pub fn join(&mut self, other: &Row) -> Result<(), AllocError>
        ensures { OnOk result ((m : ℕ) → has_bit self.new m ≡ (has_bit self.old m || has_bit other.now m)) }
    {
        join(&mut self.words, &other.words)
    }

    /// The words, lent.
    pub fn words(&self) -> &[u64]
        ensures { result.now ≡ self.now }
    {
        &self.words
    }
}
