//! The index of names.

ghost use Rattle.std.specs.Prelude.{◌≡◌, ◌∷◌, [], ◌++◌, OnOk, OnErr, false};
ghost use Rattle.std.specs.Prelude.{length, option_map, slice_get};
ghost use Rattle.sl_base_names.specs.Names.{index_in, is_in};

use crate::by_name::ByName;
use std::alloc::{AllocError, Global};
use std::marker::Model;

/// Names, each once, in the order in which they were added. Contracts see the list of them.
#[derive(Debug, Drop)]
pub struct NameIndex<'a> {
    names: Vec<&'a [u8]>,
    by_name: ByName,
}

impl<'a> Model for NameIndex<'a> {
    ghost use Rattle.std.specs.Prelude.{List, ℕ, map};
    ghost use Rattle.sl_base_names.specs.Found.{AreFound};

    ghost Value = { List (List ℕ) };

    ghost view = { λ s. map (λ name. name.now) s.names.items };

    ghost invariant = { λ s. AreFound s.by_name (map (λ name. name.now) s.names.items) };
}

impl<'a> NameIndex<'a> {
    pub fn new(alloc: Global) -> Self
        ensures { result ≡ [] }
    {
        NameIndex {
            names: Vec::new(alloc),
            by_name: ByName::new(alloc),
        }
    }

    /// The index of the name.
    pub fn find(&self, name: &[u8]) -> Option<usize>
        ensures { result ≡ index_in self.now name.now }
    {
        self.by_name.find(name)
    }

    /// Whether the name is there.
    pub fn has(&self, name: &[u8]) -> bool
        ensures { result ≡ is_in self.now name.now }
    {
        self.find(name).is_some()
    }

    /// How many names there are.
    pub fn len(&self) -> usize
        ensures { result ≡ length self.now }
    {
        self.names.len()
    }

    /// The name at an index.
    pub fn at(&self, index: usize) -> Option<&'a [u8]>
        ensures { option_map (λ name. name.now) result ≡ slice_get self.now index }
    {
        self.names.get(index).copied()
    }

    /// Adds a name that isn't there yet.
    pub fn add(&mut self, name: &'a [u8]) -> Result<(), AllocError>
        requires { is_in self.old name.now ≡ false }
        ensures added { OnOk result (self.new ≡ self.old ++ name.now ∷ []) }
        ensures kept { OnErr result (self.new ≡ self.old) }
    {
        let index = self.names.len();
        let alloc = *self.names.allocator();
        self.names.push(name)?;
        match self.by_name.add(alloc, name, index) {
            Ok(()) => Ok(()),
            Err(AllocError) => {
                let _name = self.names.pop();
                Err(AllocError)
            }
        }
    }
}
