//! The points of a union of cubes: which it has, its least one, and the least that another lacks.

ghost use Rattle.std.specs.Prelude.{◌↔◌, IsTrue, IfOk, MatchOption};
ghost use Rattle.sl_cube.specs.Points.{NotAfter, IsInSome};
ghost use Rattle.sl_cube_sets.specs.Sets.{IsWithin, IsLeastWhere, IsLeastOf};
ghost use Rattle.sl_cube_sets.specs.Reports.{IsLeastOnlyIn};
ghost use Rattle.sl_cube_sets.specs.Unions.{has_set, AreWithin};
ghost use Rattle.sl_cube_sets.specs.Firsts.{IsEarlier, IsInNone};

use super::CubeSet;
use super::within::is_within;
use sl_cube::{Cube, Point, is_in_some, point_outside};
use std::alloc::{AllocError, Global};

/// Whether the first point isn't after the second.
fn is_not_after(a: &Point, b: &Point) -> bool
    ensures before { IsTrue result → NotAfter a.now b.now }
    ensures after { (IsTrue result → ⊥) → NotAfter b.now a.now }
{
    if a.bytes == b.bytes {
        return a.context <= b.context;
    }
    a.bytes < b.bytes
}

/// The earlier of two points, of which either may be missing.
fn earlier(best: Option<Point>, found: Option<Point>) -> Option<Point>
    ensures { IsEarlier best found result }
{
    let Some(old) = best else {
        return found;
    };
    let Some(new) = found else {
        return best;
    };
    if is_not_after(&old, &new) {
        best
    } else {
        found
    }
}

impl CubeSet {
    /// Whether the set has the point.
    pub fn has(&self, point: &Point) -> bool
        ensures { IsTrue result ↔ has_set self.now point.now }
    {
        is_in_some(point, &self.cubes)
    }

    /// The set's least point, or `None` exactly where it has none.
    pub fn least(&self) -> Option<Point>
        ensures { IsLeastOf (has_set self.now) result }
    {
        least_of(&self.cubes)
    }

    /// Whether each point of the set is in the other. The only error is want of memory.
    pub fn is_within(&self, alloc: Global, other: &CubeSet) -> Result<bool, AllocError>
        ensures { IfOk result (λ answer. IsTrue answer ↔ IsWithin has_set self.now other.now) }
    {
        is_within(alloc, &self.cubes, &other.cubes)
    }

    /// The least point of the set that isn't in the other, or `None` exactly where each one is. The
    /// only error is want of memory.
    pub fn least_outside(&self, alloc: Global, other: &CubeSet) -> Result<Option<Point>, AllocError>
        ensures { IfOk result (λ found. MatchOption found (IsWithin has_set self.now other.now)
            (IsLeastOnlyIn has_set self.now other.now)) }
    {
        least_in_none(alloc, &self.cubes, &other.cubes)
    }
}

/// The least point of some cubes.
fn least_of(cubes: &[Cube]) -> Option<Point>
    ensures { IsLeastOf (IsInSome cubes.now) result }
{
    let mut best = None;
    for cube in cubes {
        best = earlier(best, Some(cube.least()));
    }
    best
}

/// The least point of some cubes that is in none of the others.
fn least_in_none(
    alloc: Global,
    cubes: &[Cube],
    others: &[Cube],
) -> Result<Option<Point>, AllocError>
    ensures { IfOk result (λ found. MatchOption found (AreWithin cubes.now others.now)
        (IsLeastWhere (IsInNone cubes.now others.now))) }
{
    let mut best = None;
    for cube in cubes {
        let found = point_outside(alloc, cube, others)?;
        best = earlier(best, found);
    }
    Ok(best)
}
