//! The shapes of joined patterns.

ghost use Rattle.std.specs.Prelude.{◌≡◌, IfOk, IfErr, Some, None};
ghost use Rattle.sl_ast.specs.Trees as trees;
ghost use Rattle.sl_ast.specs.Views.{pattern_of};
ghost use Rattle.sl_ast.specs.declared.patterns.PatternOp.TheVariants.{And, Then, Or};
ghost use Rattle.sl_shape_constraints.specs.Sets.{IsCubeOf};
ghost use Rattle.sl_shape.specs.Below.{AreSized, IsJoined, IsShaped, IsSide, Shows};
ghost use Rattle.sl_shape.specs.Faults.{BehindTells, JoinTells, ShapeTells};
ghost use Rattle.sl_shape.specs.PatternShapes.{Shapes, pattern_bytes, shape_of};
ghost use Rattle.sl_shape.specs.Stops.{Stops};
ghost use Rattle.sl_shape_tokens.specs.Shapes as spec;

use crate::below::{Below, TokenLists};
use crate::extents::Extents;
use crate::faults::Fault;
use crate::stop::Stop;
use sl_ast::patterns::{Pattern, PatternOp};
use sl_cube::{Cube, point_outside};
use sl_shape_patterns::Reader;
use sl_shape_tokens::{Shape, extended};
use std::alloc::{AllocError, Global};

/// The cube of all points.
fn everywhere() -> Cube
    ensures { IsCubeOf (λ _. Unit {0}) result }
{
    Cube {
        mask: 0,
        value: 0,
        ctx_mask: 0,
        ctx_value: 0,
    }
}

impl Below<'_, '_> {
    /// The shape of `P & Q`, from those of the sides.
    pub fn both_shape(
        &self,
        alloc: Global,
        first: Shape,
        second: Shape,
        lists: &mut TokenLists,
    ) -> Result<Shape, Stop>
        requires { AreSized self.now lists.old }
        ensures lists { lists.new.all ≡ lists.old.all }
        ensures sized { IfOk result (λ _. AreSized self.now lists.new) }
        ensures shape { IfOk result (λ s. (shapes : Shapes) (p q : trees.Pattern)
            → Shows self.now lists.old shapes → IsSide self.now lists.old shapes p first
            → IsSide self.now lists.old shapes q second
            → IsJoined self.now shapes lists.old lists.new And p q s) }
        ensures fault { IfErr result (λ stop. (shapes : Shapes) (p q : trees.Pattern)
            → Shows self.now lists.old shapes → IsSide self.now lists.old shapes p first
            → IsSide self.now lists.old shapes q second
            → Stops (JoinTells self.now.tables.now shapes self.now.hulls.now And p q) stop) }
    {
        match lists.all.both(alloc, first, second)? {
            Some(shape) => Ok(shape),
            None => Err(Stop::Fault(Fault::TokensDiffer)),
        }
    }

    /// The shape of `P | Q`, from those of the sides.
    fn either_shape(
        &self,
        alloc: Global,
        first: Shape,
        second: Shape,
        lists: &mut TokenLists,
    ) -> Result<Shape, Stop>
        requires { AreSized self.now lists.old }
        ensures sized { IfOk result (λ _. AreSized self.now lists.new) }
        ensures shape { IfOk result (λ s. (shapes : Shapes) (p q : trees.Pattern)
            → Shows self.now lists.old shapes → IsSide self.now lists.old shapes p first
            → IsSide self.now lists.old shapes q second
            → IsJoined self.now shapes lists.old lists.new Or p q s) }
        ensures fault { IfErr result (λ stop. (shapes : Shapes) (p q : trees.Pattern)
            → Shows self.now lists.old shapes → IsSide self.now lists.old shapes p first
            → IsSide self.now lists.old shapes q second
            → Stops (JoinTells self.now.tables.now shapes self.now.hulls.now Or p q) stop) }
    {
        match lists.all.either(alloc, first, second)? {
            Some(shape) => Ok(shape),
            None => Err(Stop::Fault(Fault::TokensDiffer)),
        }
    }

    /// A stop where the pattern doesn't hold everywhere.
    fn demand_everywhere(
        &self,
        alloc: Global,
        of: &Pattern,
        lists: &mut TokenLists,
    ) -> Result<(), Stop>
        requires { AreSized self.now lists.old }
        ensures lists { lists.new.all ≡ lists.old.all }
        ensures sized { IfOk result (λ _. AreSized self.now lists.new) }
        ensures holds { IfOk result (λ _. (shapes : Shapes) (s : spec.Shape)
            → Shows self.now lists.old shapes
            → shape_of self.now.tables.now shapes (pattern_of of.now) ≡ Some s
            → BehindTells self.now.tables.now shapes self.now.hulls.now None
            (pattern_of of.now) None) }
        ensures fault { IfErr result (λ stop. (shapes : Shapes) (s : spec.Shape)
            → Shows self.now lists.old shapes
            → shape_of self.now.tables.now shapes (pattern_of of.now) ≡ Some s
            → Stops (BehindTells self.now.tables.now shapes self.now.hulls.now None
            (pattern_of of.now)) stop) }
    {
        lists.bytes.grow(&lists.all)?;
        let lengths = Extents {
            tables: self.tables,
            lists: &lists.all,
            bytes: &lists.bytes,
            shapes: self.shapes,
        };
        let reader = Reader {
            tables: self.tables,
            lengths: &lengths,
            hulls: self.hulls,
        };
        let cubes = reader.pattern_cubes(alloc, of, 0)?;
        match point_outside(alloc, &everywhere(), &cubes)? {
            Some(_) => Err(Stop::Fault(Fault::InteriorEllipsis)),
            None => Ok(()),
        }
    }

    /// A stop where a pattern that may go on stands before one that doesn't hold everywhere.
    fn demand_behind(
        &self,
        alloc: Global,
        first: Shape,
        right: &Pattern,
        lists: &mut TokenLists,
    ) -> Result<(), Stop>
        requires { AreSized self.now lists.old }
        ensures lists { lists.new.all ≡ lists.old.all }
        ensures sized { IfOk result (λ _. AreSized self.now lists.new) }
        ensures holds { IfOk result (λ _. (shapes : Shapes) (p : trees.Pattern) (s : spec.Shape)
            → Shows self.now lists.old shapes → IsSide self.now lists.old shapes p first
            → shape_of self.now.tables.now shapes (pattern_of right.now) ≡ Some s
            → JoinTells self.now.tables.now shapes self.now.hulls.now Then p
            (pattern_of right.now) None) }
        ensures fault { IfErr result (λ stop. (shapes : Shapes) (p : trees.Pattern) (s : spec.Shape)
            → Shows self.now lists.old shapes → IsSide self.now lists.old shapes p first
            → shape_of self.now.tables.now shapes (pattern_of right.now) ≡ Some s
            → Stops (JoinTells self.now.tables.now shapes self.now.hulls.now Then p
            (pattern_of right.now)) stop) }
    {
        if first.kind.is_fixed() {
            return Ok(());
        }
        self.demand_everywhere(alloc, right, lists)
    }

    /// The shape of `P ; Q`, from those of the sides.
    fn followed_shape(
        &self,
        alloc: Global,
        first: Shape,
        second: Shape,
        right: &Pattern,
        lists: &mut TokenLists,
    ) -> Result<Shape, Stop>
        requires { AreSized self.now lists.old }
        ensures sized { IfOk result (λ _. AreSized self.now lists.new) }
        ensures shape { IfOk result (λ s. (shapes : Shapes) (p : trees.Pattern)
            → Shows self.now lists.old shapes → IsSide self.now lists.old shapes p first
            → IsSide self.now lists.old shapes (pattern_of right.now) second
            → IsJoined self.now shapes lists.old lists.new Then p (pattern_of right.now) s) }
        ensures fault { IfErr result (λ stop. (shapes : Shapes) (p : trees.Pattern)
            → Shows self.now lists.old shapes → IsSide self.now lists.old shapes p first
            → IsSide self.now lists.old shapes (pattern_of right.now) second
            → Stops (JoinTells self.now.tables.now shapes self.now.hulls.now Then p
            (pattern_of right.now)) stop) }
    {
        self.demand_behind(alloc, first, right, lists)?;
        let shape = lists.all.followed(first, second)?;
        Ok(shape)
    }

    /// The shape of a joined pattern, from those of the sides.
    fn joined_shape(
        &self,
        alloc: Global,
        op: PatternOp,
        first: Shape,
        second: Shape,
        right: &Pattern,
        lists: &mut TokenLists,
    ) -> Result<Shape, Stop>
        requires { AreSized self.now lists.old }
        ensures sized { IfOk result (λ _. AreSized self.now lists.new) }
        ensures shape { IfOk result (λ s. (shapes : Shapes) (p : trees.Pattern)
            → Shows self.now lists.old shapes → IsSide self.now lists.old shapes p first
            → IsSide self.now lists.old shapes (pattern_of right.now) second
            → IsJoined self.now shapes lists.old lists.new op p (pattern_of right.now) s) }
        ensures fault { IfErr result (λ stop. (shapes : Shapes) (p : trees.Pattern)
            → Shows self.now lists.old shapes → IsSide self.now lists.old shapes p first
            → IsSide self.now lists.old shapes (pattern_of right.now) second
            → Stops (JoinTells self.now.tables.now shapes self.now.hulls.now op p
            (pattern_of right.now)) stop) }
    {
        match op {
            PatternOp::And => self.both_shape(alloc, first, second, lists),
            PatternOp::Then => self.followed_shape(alloc, first, second, right, lists),
            PatternOp::Or => self.either_shape(alloc, first, second, lists),
        }
    }

    /// The shape of a pattern, or its first fault.
    pub fn pattern_shape(
        &self,
        alloc: Global,
        of: &Pattern,
        lists: &mut TokenLists,
    ) -> Result<Shape, Stop>
        requires { AreSized self.now lists.old }
        ensures sized { IfOk result (λ _. AreSized self.now lists.new) }
        ensures shape { IfOk result (λ s. (shapes : Shapes)
            → Shows self.now lists.old shapes
            → IsShaped self.now shapes lists.old lists.new (pattern_of of.now) s) }
        ensures fault { IfErr result (λ stop. (shapes : Shapes)
            → Shows self.now lists.old shapes → Stops
            (ShapeTells self.now.tables.now shapes self.now.hulls.now (pattern_of of.now)) stop) }
    {
        match of {
            Pattern::Name(name) => {
                let shape = self.name_shape(name, lists)?;
                Ok(shape)
            }
            Pattern::Constraint(name, _, _) => {
                let shape = self.constraint_shape(name, lists)?;
                Ok(shape)
            }
            Pattern::Paren(inner) => self.pattern_shape(alloc, inner, lists),
            Pattern::Ellipsis(inner) => {
                let shape = self.pattern_shape(alloc, inner, lists)?;
                Ok(extended(shape))
            }
            Pattern::Joined(op, left, right) => {
                let first = self.pattern_shape(alloc, left, lists)?;
                let second = self.pattern_shape(alloc, right, lists)?;
                self.joined_shape(alloc, *op, first, second, right, lists)
            }
        }
    }
}
