//! The least point that some tail follows which is not covered: from any such point down, bit by bit.

ghost use Rattle.std.specs.Prelude.{IsTrue, IfOk, Some};
ghost use Rattle.sl_cube.specs.Points.{NotAfter};
ghost use Rattle.sl_cube_sets.specs.Firsts.{IsEarlier};
ghost use Rattle.sl_cube_sets.specs.Sets.{IsLeastOf};
ghost use Rattle.sl_cube_tails.specs.Covers.{IsLeastFound, IsLeastIn, IsSomeFound};
ghost use Rattle.sl_cube_tails.specs.Tails.{IsUncoveredIn};

use crate::covers::{Cover, over};
use crate::search::some_uncovered;
use sl_cube::{Cube, Point, split};
use std::alloc::{AllocError, Global};

/// The least such point of the region, from any such point on.
fn least_from(
    alloc: Global,
    region: &Cube,
    tails: &Cube,
    covers: &[Cover],
    witness: &Point,
) -> Result<Point, AllocError>
    ensures { IfOk result (λ least. IsSomeFound region.now tails.now covers.now (Some witness.now)
        → IsLeastIn region.now tails.now covers.now least) }
{
    let Some((low, high)) = split(region) else {
        return Ok(*witness);
    };
    let in_low = over(alloc, &low, covers)?;
    if low.has(witness) {
        let least = least_from(alloc, &low, tails, &in_low, witness)?;
        return Ok(least);
    }
    let found = some_uncovered(alloc, &low, tails, &in_low)?;
    let Some(lower) = found else {
        let in_high = over(alloc, &high, covers)?;
        let least = least_from(alloc, &high, tails, &in_high, witness)?;
        return Ok(least);
    };
    let least = least_from(alloc, &low, tails, &in_low, &lower)?;
    Ok(least)
}

/// The least such point of the region, or `None` exactly where there is none.
fn least_in(
    alloc: Global,
    region: &Cube,
    tails: &Cube,
    covers: &[Cover],
) -> Result<Option<Point>, AllocError>
    ensures { IfOk result (IsLeastFound region.now tails.now covers.now) }
{
    let within = over(alloc, region, covers)?;
    let found = some_uncovered(alloc, region, tails, &within)?;
    let Some(witness) = found else {
        return Ok(None);
    };
    let least = least_from(alloc, region, tails, &within, &witness)?;
    Ok(Some(least))
}

/// Whether the first point isn't after the second.
fn is_not_after(a: &Point, b: &Point) -> bool
    ensures before { IsTrue result → NotAfter a.now b.now }
    ensures after { (IsTrue result → ⊥) → NotAfter b.now a.now }
{
    if a.bytes == b.bytes {
        return a.context <= b.context;
    }
    a.bytes < b.bytes
}

/// The earlier of two points, of which either may be missing.
fn earlier(best: Option<Point>, found: Option<Point>) -> Option<Point>
    ensures { IsEarlier best found result }
{
    let Some(old) = best else {
        return found;
    };
    let Some(new) = found else {
        return best;
    };
    if is_not_after(&old, &new) {
        best
    } else {
        found
    }
}

/// The least point in one of the cubes that one of the tails follows which is not covered, or `None`
/// exactly where there is none. The only error is want of memory.
pub fn least_uncovered(
    alloc: Global,
    cubes: &[Cube],
    tails: &Cube,
    covers: &[Cover],
) -> Result<Option<Point>, AllocError>
    ensures { IfOk result (IsLeastOf (IsUncoveredIn cubes.now tails.now covers.now)) }
{
    let mut best = None;
    for cube in cubes {
        let found = least_in(alloc, cube, tails, covers)?;
        best = earlier(best, found);
    }
    Ok(best)
}
