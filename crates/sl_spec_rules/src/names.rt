//! Sets of names.

ghost use Rattle.std.specs.Prelude.{◌≡◌, ◌∷◌, [], ◌++◌, OnOk, OnErr, IfOk, false, map};
ghost use Rattle.std.specs.Prelude.{length, option_map, slice_get};
ghost use Rattle.std.specs.List.{list_any};
ghost use Rattle.std.specs.Str.{bytes_eq};
ghost use Rattle.sl_spec_rules.specs.Names.{are_distinct, is_among};

use sl_base_names::NameIndex;
use std::alloc::{AllocError, Global};
use std::marker::Model;

/// Names, each once, in the order in which they were added. Contracts see the list of them.
#[derive(Debug, Drop)]
pub struct NameSet<'a> {
    names: NameIndex<'a>,
}

impl<'a> Model for NameSet<'a> {
    ghost use Rattle.std.specs.Prelude.{List, ℕ};

    ghost Value = { List (List ℕ) };

    ghost view = { λ s. s.names };
}

impl<'a> NameSet<'a> {
    pub fn new(alloc: Global) -> Self
        ensures { result ≡ [] }
    {
        NameSet {
            names: NameIndex::new(alloc),
        }
    }

    /// Whether the name is there.
    pub fn has(&self, name: &[u8]) -> bool
        ensures { result ≡ is_among self.now name.now }
    {
        self.names.has(name)
    }

    /// How many names there are.
    pub fn len(&self) -> usize
        ensures { result ≡ length self.now }
    {
        self.names.len()
    }

    /// The name at an index.
    pub fn at(&self, index: usize) -> Option<&'a [u8]>
        ensures { option_map (λ name. name.now) result ≡ slice_get self.now index }
    {
        self.names.at(index)
    }

    /// Adds a name that isn't there yet.
    pub fn add(&mut self, name: &'a [u8]) -> Result<(), AllocError>
        requires { is_among self.old name.now ≡ false }
        ensures added { OnOk result (self.new ≡ self.old ++ name.now ∷ []) }
        ensures kept { OnErr result (self.new ≡ self.old) }
    {
        self.names.add(name)
    }
}

/// Whether the name is one of the words.
pub fn is_among(words: &[&str], name: &[u8]) -> bool
    ensures { result ≡ list_any (λ w. bytes_eq name.now w.now) words.now }
{
    words.iter().any(|word| name == word.as_bytes())
}

/// Whether no two of the names are the same.
pub fn are_distinct(alloc: Global, names: &[&[u8]]) -> Result<bool, AllocError>
    ensures { IfOk result (λ distinct. distinct ≡ are_distinct (map (λ name. name.now) names.now)) }
{
    let mut seen = NameSet::new(alloc);
    'names: for index in 0..names.len() {
        let name = names[index];
        if seen.has(name) {
            return Ok(false);
        }
        seen.add(name)?;
    }
    Ok(true)
}
