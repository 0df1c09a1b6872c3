//! What is made of one pattern.

ghost use Rattle.std.specs.Prelude.{◌≡◌, ℕ, List, IsTrue, option_map};
ghost use Rattle.sl_decode_meaning.specs.Places.{bare_place, first_place};
ghost use Rattle.sl_decode_leaves.specs.Extents.{extent, leaves_at};
ghost use Rattle.sl_spec.specs.Tables.{Name};

use crate::extents::Extent;
use crate::leaves::{Leaf, alone_of, are_same_leaves, first_of};
use crate::looks::Look;
use sl_spec::Named;

/// The names of a pattern with their places, the look-ups of its bare fields, and its length.
#[derive(Drop)]
pub struct PatternLeaves<'a> {
    pub(crate) leaves: Vec<Leaf<'a>>,
    /// The names, each once, with its first place.
    pub(crate) firsts: Named<'a, Leaf<'a>>,
    /// The names that stand alone, each once, with its first place.
    pub(crate) alone: Vec<Leaf<'a>>,
    pub(crate) looks: Vec<Look>,
    pub(crate) length: Extent,
    ghost stand_first: { (lengths : List ℕ) (name : Name)
        → first_place name (leaves_at lengths firsts)
        ≡ first_place name (leaves_at lengths leaves.items) },
    ghost stand_alone: { (lengths : List ℕ) (name : Name)
        → bare_place name (leaves_at lengths alone.items)
        ≡ bare_place name (leaves_at lengths leaves.items) },
}

impl PatternLeaves<'_> {
    /// The place of a name's first occurrence.
    pub(crate) fn first(&self, name: &[u8]) -> Option<&Extent>
        ensures { (lengths : List ℕ) → option_map (λ e. extent e.now lengths) result
            ≡ first_place name.now (leaves_at lengths self.now.leaves.items) }
    {
        first_of(&self.firsts, name)
    }

    /// The place where a name stands alone first.
    pub(crate) fn alone(&self, name: &[u8]) -> Option<&Extent>
        ensures { (lengths : List ℕ) → option_map (λ e. extent e.now lengths) result
            ≡ bare_place name.now (leaves_at lengths self.now.leaves.items) }
    {
        alone_of(self.alone.as_slice(), name)
    }

    /// Whether both have the same names at the same places. It says of places of many parts that they
    /// aren't the same.
    pub fn has_same_places(&self, other: &PatternLeaves) -> bool
        ensures { IsTrue result → (lengths : List ℕ) → leaves_at lengths self.now.leaves.items
            ≡ leaves_at lengths other.now.leaves.items }
    {
        are_same_leaves(self.leaves.as_slice(), other.leaves.as_slice())
    }
}
