//! What was made of blocks.

ghost use Rattle.std.specs.Prelude.{◌≡◌, [], ℕ, IfOk, Some, cond, option_copied};
ghost use Rattle.sl_spec.specs.Numbers.{is_number, made_of};

use std::alloc::{AllocError, Global};
use std::collections::BTreeMap;
use std::marker::Model;

/// What was made of some blocks, by their numbers, so that it is made once for all constructors
/// inside a block. Contracts see the numbers with what was made.
#[derive(Drop)]
pub struct ByBlock<V: Drop> {
    made: BTreeMap<u32, V>,
}

impl<V: Drop> Model for ByBlock<V> {
    ghost use Rattle.std.specs.Prelude.{List, ℕ};

    ghost Value = { List (ℕ × V) };

    ghost view = { λ b. b.made.entries };
}

impl<V: Drop> ByBlock<V> {
    /// Nothing was made yet.
    pub fn new(alloc: Global) -> Self
        ensures { result ≡ [] }
    {
        ByBlock {
            made: BTreeMap::new(alloc),
        }
    }

    /// What was made of the block of this number.
    pub fn get(&self, number: u32) -> Option<&V>
        ensures { option_copied result ≡ made_of self.now number }
    {
        self.made.get(&number)
    }

    /// Keeps what was made of the block of this number.
    pub fn put(&mut self, number: u32, value: V) -> Result<(), AllocError>
        ensures { IfOk result (λ _. (n : ℕ) → made_of self.new n
            ≡ cond (is_number number n) (Some value) (made_of self.old n)) }
    {
        match self.made.insert(number, value) {
            Ok(_) => Ok(()),
            Err(_) => Err(AllocError),
        }
    }
}
