//! What is found by names.

ghost use Rattle.std.specs.Prelude.{◌≡◌, ℕ, ◌≤◌, List, None, OnOk, OnErr, Some, cond, length, true};
ghost use Rattle.std.specs.Str.{bytes_eq};
ghost use Rattle.sl_base_names.specs.Found.{AreBytes, found, is_short, number_of};

use std::alloc::{AllocError, Global};
use std::collections::BTreeMap;

/// Indices by names.
///
/// They are found in trees, since whoever writes the names can make any of them meet in a table
/// with a hash that is known. A name of at most 15 bytes is a number there, which is compared at
/// once and lies in the node. The others have bytes of their own: with keys that borrow, an index
/// could not be lent for a shorter time than theirs.
#[derive(Debug, Drop)]
pub struct ByName {
    short: BTreeMap<u128, usize>,
    long: BTreeMap<Vec<u8>, usize>,
}

/// Whether a number stands for the name.
fn is_short(name: &[u8]) -> bool
    ensures is { result ≡ is_short name.now }
    ensures few { result ≡ true → length name.now ≤ 15 }
{
    name.len() <= 15
}

/// The number that stands for a short name.
fn number_of(name: &[u8]) -> u128
    requires { length name.now ≤ 15 }
    ensures { result ≡ number_of name.now }
{
    let mut number = 1;
    'bytes: for index in 0..name.len() {
        number = number * 256 + u128::from(name[index]);
    }
    number
}

impl ByName {
    pub fn new(alloc: Global) -> Self
        ensures { (name : List ℕ) → found result name ≡ None }
    {
        ByName {
            short: BTreeMap::new(alloc),
            long: BTreeMap::new(alloc),
        }
    }

    /// The index of the name.
    pub fn find(&self, name: &[u8]) -> Option<usize>
        ensures { result ≡ found self.now name.now }
    {
        if is_short(name) {
            let number = number_of(name);
            return self.short.get(&number).copied();
        }
        self.long.get(name).copied()
    }

    /// Gives the name an index.
    pub fn add(&mut self, alloc: Global, name: &[u8], index: usize) -> Result<(), AllocError>
        ensures added { OnOk result ((other : List ℕ) → AreBytes other
            → found self.new other ≡ cond (bytes_eq name.now other) (Some index) (found self.old other)) }
        ensures kept { OnErr result ((other : List ℕ) → found self.new other ≡ found self.old other) }
    {
        if is_short(name) {
            let number = number_of(name);
            self.short.insert(number, index)?;
        } else {
            let key = Vec::from_slice(alloc, name)?;
            self.long.insert(key, index)?;
        }
        Ok(())
    }
}
