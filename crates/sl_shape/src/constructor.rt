//! The set and the shape of a constructor, or its first fault.

ghost use Rattle.std.specs.Prelude.{◌≡◌, ◌∷◌, [], IfErr, IfOk, MatchOption, Some};
ghost use Rattle.std.specs.List.{AllByRecursion};
ghost use Rattle.sl_ast.specs.Views.{constructor_of, head_of, pattern_of};
ghost use Rattle.sl_cube.specs.Points.{InRange, IsInSome};
ghost use Rattle.sl_cube.specs.declared.Point as point;
ghost use Rattle.sl_shape_patterns.specs.Counts.{FitCount};
ghost use Rattle.sl_shape_patterns.specs.Heads.{AreHeadCubes, IsHeadCount, IsHeadWindow};
ghost use Rattle.sl_shape_patterns.specs.Heads.{KeepsOthers};
ghost use Rattle.sl_shape.specs.Below.{AreSized, IsShaped, Shows};
ghost use Rattle.sl_shape.specs.Faults.{CountTells, OrElse, PatternTells, PointTells, ShapeTells};
ghost use Rattle.sl_shape.specs.Faults.{WindowTells, most_cubes, most_window};
ghost use Rattle.sl_shape.specs.HeadsMade.{AreMarked, AreRightFor, IsHeadShape, KeepsRight};
ghost use Rattle.sl_shape.specs.HeadsMade.{KeepsShapes, read_with};
ghost use Rattle.sl_shape.specs.Made.{IsMade, IsSetOf};
ghost use Rattle.sl_shape.specs.PatternShapes.{Shapes, shape_of, token_sizes};
ghost use Rattle.sl_shape.specs.Stops.{Stops};
ghost use Rattle.sl_shape_tokens.specs.Bytes.{Knows};
ghost use Rattle.sl_shape_tokens.specs.Lists.{IsThere};
ghost use Rattle.sl_shape_tokens.specs.Shapes as spec;
ghost use Rattle.sl_spec.specs.Numbers.{AreMadeFor, KeepsMade};
ghost use Rattle.sl_spec.specs.Unfolded.{heads_of, placed, under};

use crate::below::{Below, HeadsMade, TokenLists};
use crate::extents::Extents;
use crate::faults::Fault;
use crate::stop::Stop;
use sl_ast::constructors::Constructor;
use sl_ast::patterns::Pattern;
use sl_cube::{Cube, Point};
use sl_cube_sets::CubeSet;
use sl_shape_patterns::{Reader, constructor_count};
use sl_shape_tokens::Shape;
use sl_spec::{Around, ByBlock, Unfolded};
use std::alloc::Global;

/// How many cubes a constructor may need.
const MOST_CUBES: u32 = 1024;

/// How many bytes a constructor may look at.
const MOST_WINDOW: u32 = 16;

/// A point of some cubes.
fn point_of(cubes: &[Cube]) -> Option<Point>
    ensures { MatchOption result ((p : point.Point) → IsInSome cubes.now p → ⊥)
        (λ p. InRange p × IsInSome cubes.now p) }
{
    let first = cubes.first()?;
    Some(first.least())
}

impl Below<'_, '_> {
    /// A stop where the pattern of a constructor may need too many cubes.
    fn demand_count(
        &self,
        alloc: Global,
        of: &Unfolded,
        counts: &mut ByBlock<u32>,
    ) -> Result<(), Stop>
        requires { AreMadeFor (IsHeadCount self.now.tables.now) of.now.heads.items counts.old }
        ensures few { IfOk result (λ _.
            CountTells self.now.tables.now (placed of.now).1.pattern None) }
        ensures many { IfErr result
            (Stops (CountTells self.now.tables.now (placed of.now).1.pattern)) }
        ensures kept { IfOk result (λ _. KeepsMade (IsHeadCount self.now.tables.now)
            of.now.heads.items counts.old counts.new) }
    {
        let count = constructor_count(alloc, self.tables, of, counts)?;
        if MOST_CUBES < count {
            return Err(Stop::Fault(Fault::TooManyCubes(count)));
        }
        Ok(())
    }

    /// The shape of the pattern of a block, made where it isn't there yet, or its first fault.
    fn shape_of_block(
        &self,
        alloc: Global,
        block: &Around,
        pattern: &Pattern,
        lists: &mut TokenLists,
        made: &mut ByBlock<Shape>,
    ) -> Result<Shape, Stop>
        requires sized { AreSized self.now lists.old }
        requires its { (head_of block.now.head.now).pattern ≡ Some (pattern_of pattern.now) }
        requires there { AllByRecursion (IsThere lists.old.all) self.now.shapes.now }
        requires made { AreMadeFor (IsHeadShape self.now lists.old) (block.now ∷ []) made.old }
        ensures sized { IfOk result (λ _. AreSized self.now lists.new) }
        ensures shape { IfOk result (λ s. (shapes : Shapes) → Shows self.now lists.old shapes
            → IsShaped self.now shapes lists.old lists.new (pattern_of pattern.now) s) }
        ensures fault { IfErr result (λ stop. (shapes : Shapes) → Shows self.now lists.old shapes
            → Stops (ShapeTells self.now.tables.now shapes self.now.hulls.now
            (pattern_of pattern.now)) stop) }
        ensures kept { IfOk result (λ _.
            KeepsShapes self.now lists.old lists.new (block.now ∷ []) made.old made.new) }
        ensures others { IfOk result (λ _. KeepsOthers (block.now ∷ []) made.old made.new) }
    {
        if let Some(shape) = made.get(block.number) {
            return Ok(*shape);
        }
        let shape = self.pattern_shape(alloc, pattern, lists)?;
        made.put(block.number, shape)?;
        Ok(shape)
    }

    /// The shape of a constructor in its blocks, or its first fault.
    fn shape_in_blocks(
        &self,
        alloc: Global,
        heads: &[Around],
        own: &Constructor,
        lists: &mut TokenLists,
        made: &mut ByBlock<Shape>,
    ) -> Result<Shape, Stop>
        requires sized { AreSized self.now lists.old }
        requires there { AllByRecursion (IsThere lists.old.all) self.now.shapes.now }
        requires made { AreMadeFor (IsHeadShape self.now lists.old) heads.now made.old }
        ensures sized { IfOk result (λ _. AreSized self.now lists.new) }
        ensures shape { IfOk result (λ s. (shapes : Shapes) → Shows self.now lists.old shapes
            → IsShaped self.now shapes lists.old lists.new
            (under (heads_of heads.now) (constructor_of own.now)).pattern s) }
        ensures fault { IfErr result (λ stop. (shapes : Shapes) → Shows self.now lists.old shapes
            → Stops (ShapeTells self.now.tables.now shapes self.now.hulls.now
            (under (heads_of heads.now) (constructor_of own.now)).pattern) stop) }
        ensures kept { IfOk result (λ _.
            KeepsShapes self.now lists.old lists.new heads.now made.old made.new) }
        ensures others { IfOk result (λ _. KeepsOthers heads.now made.old made.new) }
    {
        let Some((first, rest)) = heads.split_first() else {
            return self.pattern_shape(alloc, &own.pattern, lists);
        };
        let head = first.head;
        let Some(pattern) = &head.pattern else {
            return self.shape_in_blocks(alloc, rest, own, lists, made);
        };
        let around = self.shape_of_block(alloc, first, pattern, lists, made)?;
        let inside = self.shape_in_blocks(alloc, rest, own, lists, made)?;
        self.both_shape(alloc, around, inside, lists)
    }

    /// The set of a constructor that has a shape, of no more cubes than its count, or its first fault.
    fn set_of(
        &self,
        alloc: Global,
        of: &Unfolded,
        lists: &TokenLists,
        windows: &mut ByBlock<u32>,
        sets: &mut ByBlock<Vec<Cube>>,
    ) -> Result<CubeSet, Stop>
        requires sizes { lists.now.bytes.sizes.items ≡ token_sizes self.now.tables.now }
        requires knows { Knows lists.now.bytes lists.now.all }
        requires windows { AreMadeFor (IsHeadWindow (read_with self.now lists.now))
            of.now.heads.items windows.old }
        requires sets { AreMadeFor (AreHeadCubes (read_with self.now lists.now))
            of.now.heads.items sets.old }
        ensures set { IfOk result (λ set. (shapes : Shapes) (s : spec.Shape)
            → Shows self.now lists.now shapes
            → shape_of self.now.tables.now shapes (placed of.now).1.pattern ≡ Some s
            → IsSetOf self.now.tables.now shapes self.now.hulls.now
            (placed of.now).1.pattern set) }
        ensures few { IfOk result (λ set.
            FitCount self.now.tables.now (placed of.now).1.pattern set.cubes.items) }
        ensures windows { IfOk result (λ _. KeepsMade (IsHeadWindow (read_with self.now lists.now))
            of.now.heads.items windows.old windows.new) }
        ensures sets { IfOk result (λ _. KeepsMade (AreHeadCubes (read_with self.now lists.now))
            of.now.heads.items sets.old sets.new) }
        ensures other_windows { IfOk result (λ _.
            KeepsOthers of.now.heads.items windows.old windows.new) }
        ensures other_sets { IfOk result (λ _.
            KeepsOthers of.now.heads.items sets.old sets.new) }
        ensures fault { IfErr result (λ stop. (shapes : Shapes) (s : spec.Shape)
            → Shows self.now lists.now shapes
            → shape_of self.now.tables.now shapes (placed of.now).1.pattern ≡ Some s
            → Stops (OrElse
            (WindowTells self.now.tables.now shapes self.now.hulls.now (placed of.now).1.pattern)
            (PointTells self.now.tables.now shapes self.now.hulls.now (placed of.now).1.pattern))
            stop) }
    {
        let lengths = Extents {
            tables: self.tables,
            lists: &lists.all,
            bytes: &lists.bytes,
            shapes: self.shapes,
        };
        let reader = Reader {
            tables: self.tables,
            lengths: &lengths,
            hulls: self.hulls,
        };
        let window = reader.constructor_window(alloc, of, windows)?;
        if MOST_WINDOW < window {
            return Err(Stop::Fault(Fault::WindowTooLong(window)));
        }
        let cubes = reader.constructor_cubes(alloc, of, sets)?;
        match point_of(&cubes) {
            Some(_) => Ok(CubeSet { cubes }),
            None => Err(Stop::Fault(Fault::Impossible)),
        }
    }

    /// The shape and the set of a constructor, or its first fault.
    pub fn constructor(
        &self,
        alloc: Global,
        of: &Unfolded,
        lists: &mut TokenLists,
        made: &mut HeadsMade,
    ) -> Result<(Shape, CubeSet), Stop>
        requires sized { AreSized self.now lists.old }
        requires right { AreRightFor self.now lists.old of.now.heads.items made.old }
        requires marked { AreMarked self.now.tables.now made.old.marks.items
            (Some (placed of.now).1.pattern) }
        ensures sized { IfOk result (λ _. AreSized self.now lists.new) }
        ensures right { IfOk result (λ _.
            KeepsRight self.now lists.old lists.new of.now.heads.items made.old made.new) }
        ensures marks { IfOk result (λ _. made.new.marks.items ≡ made.old.marks.items) }
        ensures made { IfOk result (λ found. (shapes : Shapes) → Shows self.now lists.old shapes
            → IsMade self.now shapes lists.old lists.new (placed of.now).1.pattern
            found.0 found.1) }
        ensures fault { IfErr result (λ stop. (shapes : Shapes) → Shows self.now lists.old shapes
            → Stops (PatternTells self.now.tables.now shapes self.now.hulls.now
            (placed of.now).1.pattern) stop) }
    {
        self.demand_count(alloc, of, &mut made.counts)?;
        let own = of.own;
        let heads = of.heads.as_slice();
        let shape = self.shape_in_blocks(alloc, heads, own, lists, &mut made.shapes)?;
        lists.bytes.grow(&lists.all)?;
        let set = self.set_of(alloc, of, lists, &mut made.windows, &mut made.sets)?;
        Ok((shape, set))
    }
}
