//! The sets of constructors as unions of cubes.

ghost use Rattle.std.specs.Prelude.{◌≡◌, ◌∷◌, [], IfOk, Some};
ghost use Rattle.sl_ast.specs.Views.{constructor_of, head_of, pattern_of};
ghost use Rattle.sl_shape_constraints.specs.Sets.{IsUnionOf};
ghost use Rattle.sl_shape_patterns.specs.Counts.{FitCount};
ghost use Rattle.sl_shape_patterns.specs.Heads.{AreHeadCubes, KeepsOthers};
ghost use Rattle.sl_shape_patterns.specs.Patterns.{PatternHolds};
ghost use Rattle.sl_shape_patterns.specs.Views.{reading_of};
ghost use Rattle.sl_spec.specs.Numbers.{AreMadeFor, KeepsMade};
ghost use Rattle.sl_spec.specs.Unfolded.{heads_of, placed, under};

use crate::reader::{Lengths, Reader};
use sl_ast::constructors::Constructor;
use sl_ast::patterns::Pattern;
use sl_cube::Cube;
use sl_shape_constraints::meets_of;
use sl_spec::{Around, ByBlock, Unfolded};
use std::alloc::{AllocError, Global};

impl<L: Lengths> Reader<'_, '_, L> {
    /// The points at which the pattern of a block holds, made where they aren't there yet, as at most
    /// as many cubes as its count.
    fn cubes_of_block(
        &self,
        alloc: Global,
        block: &Around,
        pattern: &Pattern,
        sets: &mut ByBlock<Vec<Cube>>,
    ) -> Result<Vec<Cube>, AllocError>
        requires its { (head_of block.now.head.now).pattern ≡ Some (pattern_of pattern.now) }
        requires made { AreMadeFor (AreHeadCubes (reading_of L.bytes self.now)) (block.now ∷ [])
            sets.old }
        ensures cubes { IfOk result (λ cubes. IsUnionOf
            (PatternHolds (reading_of L.bytes self.now) (pattern_of pattern.now) 0) cubes.items) }
        ensures few { IfOk result (λ cubes.
            FitCount self.now.tables.now (pattern_of pattern.now) cubes.items) }
        ensures kept { IfOk result (λ _. KeepsMade (AreHeadCubes (reading_of L.bytes self.now))
            (block.now ∷ []) sets.old sets.new) }
        ensures others { IfOk result (λ _. KeepsOthers (block.now ∷ []) sets.old sets.new) }
    {
        if let Some(cubes) = sets.get(block.number) {
            let again = Vec::from_slice(alloc, cubes)?;
            return Ok(again);
        }
        let cubes = self.pattern_cubes(alloc, pattern, 0)?;
        let again = Vec::from_slice(alloc, &cubes)?;
        sets.put(block.number, cubes)?;
        Ok(again)
    }

    /// The points at which the patterns of the blocks and of the constructor in them hold, as at most
    /// as many cubes as their count.
    fn cubes_in_blocks(
        &self,
        alloc: Global,
        heads: &[Around],
        own: &Constructor,
        sets: &mut ByBlock<Vec<Cube>>,
    ) -> Result<Vec<Cube>, AllocError>
        requires { AreMadeFor (AreHeadCubes (reading_of L.bytes self.now)) heads.now sets.old }
        ensures cubes { IfOk result (λ cubes. IsUnionOf (PatternHolds (reading_of L.bytes self.now)
            (under (heads_of heads.now) (constructor_of own.now)).pattern 0) cubes.items) }
        ensures few { IfOk result (λ cubes. FitCount self.now.tables.now
            (under (heads_of heads.now) (constructor_of own.now)).pattern cubes.items) }
        ensures kept { IfOk result (λ _. KeepsMade (AreHeadCubes (reading_of L.bytes self.now))
            heads.now sets.old sets.new) }
        ensures others { IfOk result (λ _. KeepsOthers heads.now sets.old sets.new) }
    {
        let Some((first, rest)) = heads.split_first() else {
            let cubes = self.pattern_cubes(alloc, &own.pattern, 0)?;
            return Ok(cubes);
        };
        let inside = self.cubes_in_blocks(alloc, rest, own, sets)?;
        let head = first.head;
        let Some(pattern) = &head.pattern else {
            return Ok(inside);
        };
        let around = self.cubes_of_block(alloc, first, pattern, sets)?;
        let cubes = meets_of(alloc, &around, &inside)?;
        Ok(cubes)
    }

    /// The set of a constructor: the points at which its pattern holds, with the patterns of the
    /// blocks round it, as at most as many cubes as its count. `sets` has those of the blocks' patterns that were made already, and then
    /// of all blocks round this constructor.
    pub fn constructor_cubes(
        &self,
        alloc: Global,
        of: &Unfolded,
        sets: &mut ByBlock<Vec<Cube>>,
    ) -> Result<Vec<Cube>, AllocError>
        requires { AreMadeFor (AreHeadCubes (reading_of L.bytes self.now)) of.now.heads.items
            sets.old }
        ensures cubes { IfOk result (λ cubes. IsUnionOf (PatternHolds (reading_of L.bytes self.now)
            (placed of.now).1.pattern 0) cubes.items) }
        ensures few { IfOk result (λ cubes.
            FitCount self.now.tables.now (placed of.now).1.pattern cubes.items) }
        ensures kept { IfOk result (λ _. KeepsMade (AreHeadCubes (reading_of L.bytes self.now))
            of.now.heads.items sets.old sets.new) }
        ensures others { IfOk result (λ _. KeepsOthers of.now.heads.items sets.old sets.new) }
    {
        let own = of.own;
        let cubes = self.cubes_in_blocks(alloc, of.heads.as_slice(), own, sets)?;
        Ok(cubes)
    }
}
