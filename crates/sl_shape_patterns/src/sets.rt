//! The sets of patterns as unions of cubes.

ghost use Rattle.std.specs.Prelude.{◌≡◌, ◌↔◌, ◌≤◌, ℕ, IfOk, IsTrue, length};
ghost use Rattle.sl_ast.specs.Views.{expression_of, pattern_of};
ghost use Rattle.sl_shape_constraints.specs.Places.{seen};
ghost use Rattle.sl_shape_constraints.specs.Sets.{IsUnionOf};
ghost use Rattle.sl_cube.specs.Points.{IsInSome};
ghost use Rattle.sl_shape_patterns.specs.Counts.{FitCount, IfCount, joined_count};
ghost use Rattle.sl_shape_patterns.specs.Patterns.{HoldsEverywhere, IfHolds, JoinedHolds};
ghost use Rattle.sl_shape_patterns.specs.Patterns.{NameHolds, PatternHolds};
ghost use Rattle.sl_shape_patterns.specs.Patterns.{constraint_of, right_place, told};
ghost use Rattle.sl_shape_patterns.specs.Views.{reading_of};

use crate::constraints::constraint_of;
use crate::names::everywhere;
use crate::reader::{Lengths, Reader};
use sl_ast::expressions::Expr;
use sl_ast::patterns::{Pattern, PatternOp, Relation};
use sl_cube::{Cube, is_covered};
use sl_shape_constraints::{meets_of, put_all, put_moved};
use sl_spec::Tables;
use std::alloc::{AllocError, Global};

/// The points at which the constraint holds, as they are seen from the place, as at most as many
/// cubes as its count.
fn constraint_cubes(
    alloc: Global,
    t: &Tables,
    name: &[u8],
    relation: Relation,
    value: &Expr,
    place: u32,
) -> Result<Vec<Cube>, AllocError>
    ensures points { IfOk result (λ cubes. IsUnionOf (λ p.
        IfHolds (constraint_of t.now name.now relation (expression_of value.now)) (seen place p))
        cubes.items) }
    ensures few { IfOk result (λ cubes. (count : ℕ)
        → IfCount (constraint_of t.now name.now relation (expression_of value.now)) count
        → length cubes.items ≤ count) }
{
    let mut cubes = Vec::new(alloc);
    let Some(constraint) = constraint_of(t, name, relation, value) else {
        return Ok(cubes);
    };
    constraint.put_cubes(alloc, place, &mut cubes)?;
    Ok(cubes)
}

/// The points of two joined patterns, from those of the sides, as at most as many cubes as the count
/// of both.
fn joined_cubes(
    alloc: Global,
    op: PatternOp,
    left: Vec<Cube>,
    right: &[Cube],
) -> Result<Vec<Cube>, AllocError>
    ensures points { IfOk result (λ cubes. IsUnionOf
        (λ p. JoinedHolds op (IsInSome left.items p) (IsInSome right.now p)) cubes.items) }
    ensures few { IfOk result (λ cubes. (a b : ℕ) → length left.items ≤ a → length right.now ≤ b
        → length cubes.items ≤ joined_count op a b) }
{
    match op {
        PatternOp::And => {
            let met = meets_of(alloc, &left, right)?;
            Ok(met)
        }
        PatternOp::Then => {
            let met = meets_of(alloc, &left, right)?;
            Ok(met)
        }
        PatternOp::Or => {
            let mut both = left;
            put_all(&mut both, right)?;
            Ok(both)
        }
    }
}

impl<L: Lengths> Reader<'_, '_, L> {
    /// The points at which the name holds by itself, as they are seen from the place, as at most one
    /// cube.
    fn name_cubes(&self, alloc: Global, name: &[u8], place: u32) -> Result<Vec<Cube>, AllocError>
        ensures points { IfOk result (λ cubes. IsUnionOf
            (λ p. NameHolds (reading_of L.bytes self.now) name.now (seen place p)) cubes.items) }
        ensures few { IfOk result (λ cubes. length cubes.items ≤ 1) }
    {
        let mut cubes = Vec::new(alloc);
        let Some(cube) = self.name_cube(name) else {
            return Ok(cubes);
        };
        put_moved(&mut cubes, &cube, place)?;
        Ok(cubes)
    }

    /// The place of the right side of two joined patterns.
    pub(crate) fn right_place(
        &self,
        alloc: Global,
        op: PatternOp,
        place: u32,
        left: &Pattern,
    ) -> Result<u32, AllocError>
        ensures { IfOk result (λ from. (at : ℕ) → place ≡ told at → from ≡ told
            (right_place op at (L.bytes self.now.lengths.now (pattern_of left.now)))) }
    {
        match op {
            PatternOp::Then => {
                let bytes = self.lengths.bytes_of(alloc, left)?;
                Ok(place.saturating_add(bytes.unwrap_or(0)))
            }
            PatternOp::And => Ok(place),
            PatternOp::Or => Ok(place),
        }
    }

    /// The points at which the pattern holds, read from the place on, as at most as many cubes as
    /// its count. A place from 4,294,967,295 on is told as that.
    pub fn pattern_cubes(
        &self,
        alloc: Global,
        of: &Pattern,
        place: u32,
    ) -> Result<Vec<Cube>, AllocError>
        ensures points { IfOk result (λ cubes. (at : ℕ) → place ≡ told at → IsUnionOf
            (PatternHolds (reading_of L.bytes self.now) (pattern_of of.now) at) cubes.items) }
        ensures few { IfOk result (λ cubes.
            FitCount self.now.tables.now (pattern_of of.now) cubes.items) }
    {
        match of {
            Pattern::Name(name) => {
                let cubes = self.name_cubes(alloc, name, place)?;
                Ok(cubes)
            }
            Pattern::Constraint(name, relation, value) => {
                let t = self.tables;
                let cubes = constraint_cubes(alloc, t, name, *relation, value, place)?;
                Ok(cubes)
            }
            Pattern::Paren(inner) => {
                let cubes = self.pattern_cubes(alloc, inner, place)?;
                Ok(cubes)
            }
            Pattern::Ellipsis(inner) => {
                let cubes = self.pattern_cubes(alloc, inner, place)?;
                Ok(cubes)
            }
            Pattern::Joined(op, left, right) => {
                let first = self.pattern_cubes(alloc, left, place)?;
                let from = self.right_place(alloc, *op, place, left)?;
                let second = self.pattern_cubes(alloc, right, from)?;
                let cubes = joined_cubes(alloc, *op, first, &second)?;
                Ok(cubes)
            }
        }
    }

    /// Whether the pattern, read from the first byte on, holds at each point.
    pub fn holds_everywhere(&self, alloc: Global, of: &Pattern) -> Result<bool, AllocError>
        ensures { IfOk result (λ holds. IsTrue holds
            ↔ HoldsEverywhere (reading_of L.bytes self.now) (pattern_of of.now)) }
    {
        let cubes = self.pattern_cubes(alloc, of, 0)?;
        let covered = is_covered(alloc, &everywhere(), &cubes)?;
        Ok(covered)
    }
}
