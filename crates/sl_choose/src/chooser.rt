//! The chooser: which constructor a point picks.

ghost use Rattle.std.specs.Prelude.{◌≤◌, ◌*◌};
ghost use Rattle.sl_choose.specs.Splits.{IsGrown};
ghost use Rattle.sl_choose.specs.Trees.{entries_in};

use super::entries::{entries_of, first_of};
use super::ranks::ranks_of;
use super::tree::{grow, leaf_of};
use super::{Entry, Node};
use sl_cube::Point;
use sl_cube_sets::CubeSet;
use std::alloc::{AllocError, Global};

/// Finds which of a list of constructors a point picks, by a tree of tests of bits. Its leaves have
/// room for four times as many entries as there are cubes, which is shared out among them. Each test
/// tells some cubes apart, and no leaf could be split at a bit so that each side had fewer entries
/// and both fitted its share.
#[derive(Debug, Drop)]
pub struct Chooser {
    root: Node,
    pub cubes: usize,
    ghost bounded: { entries_in root ≤ 4 * cubes },
    ghost grown: { ∥ IsGrown root (4 * cubes) ∥₁ },
}

impl Chooser {
    ghost use Rattle.std.specs.Prelude.{◌≡◌, IfOk, List, ℕ, length, Contains};
    ghost use Rattle.sl_cube.specs.Points.{IsIn};
    ghost use Rattle.sl_cube_sets.specs.declared.CubeSet.{CubeSet};
    ghost use Rattle.sl_cube_sets.specs.Sets.{IsSettledAt};
    ghost use Rattle.sl_cube_sets.specs.Unions.{has_set};
    ghost use Rattle.sl_choose.specs.declared.Entry.{Entry};
    ghost use Rattle.sl_choose.specs.Sides.{HasNoForced};
    ghost use Rattle.sl_choose.specs.Choosers.{StandsFor, IsGiven, IsPick, HoldsPick};
    ghost use Rattle.sl_choose.specs.Picked.{leaf_in, picked};

    /// A chooser of the constructors, by their sets. The only error is want of memory.
    pub fn build(alloc: Global, ctors: &[u32], sets: &[CubeSet]) -> Result<Chooser, AllocError>
        requires { length ctors.now ≡ length sets.now }
        ensures { IfOk result (λ chooser. StandsFor chooser ctors.now sets.now) }
    {
        let entries = entries_of(alloc, ctors, sets)?;
        let ranks = ranks_of(alloc, sets)?;
        let cubes = entries.len();
        let root = grow(alloc, &ranks, entries, 4 * cubes)?;
        Ok(Chooser { root, cubes })
    }

    /// The entries of the leaf that the point leads to: of all that were given, those with cubes
    /// that have the point, and others. The first that has it holds what `pick` answers.
    pub fn leaf(&self, point: &Point) -> &[Entry]
        ensures given { (ctors : List ℕ) (sets : List CubeSet) → StandsFor self.now ctors sets
            → (e : Entry) → Contains result.now e → IsGiven ctors sets e }
        ensures all { (ctors : List ℕ) (sets : List CubeSet) → StandsFor self.now ctors sets
            → (e : Entry) → IsGiven ctors sets e → IsIn point.now e.cube → Contains result.now e }
        ensures first { (ctors : List ℕ) (sets : List CubeSet) → StandsFor self.now ctors sets
            → length ctors ≡ length sets → IsSettledAt has_set sets point.now
            → HoldsPick ctors sets result.now point.now }
        ensures no_forced { (ctors : List ℕ) (sets : List CubeSet) → StandsFor self.now ctors sets
            → HasNoForced result.now }
        ensures value { result.now ≡ leaf_in self.now point.now }
    {
        leaf_of(&self.root, point)
    }

    /// The constructor that the point picks: of those whose sets have it, the one whose set lies
    /// properly within each other. `None` where no set has the point.
    pub fn pick(&self, point: &Point) -> Option<u32>
        ensures choice { (ctors : List ℕ) (sets : List CubeSet) → StandsFor self.now ctors sets
            → length ctors ≡ length sets → IsSettledAt has_set sets point.now
            → IsPick ctors sets point.now result }
        ensures value { result ≡ picked self.now point.now }
    {
        let leaf = self.leaf(point);
        let first = first_of(leaf, point)?;
        Some(first.ctor)
    }
}
