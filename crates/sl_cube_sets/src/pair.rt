//! The first two sets that have a point and of which neither lies below the other.

ghost use Rattle.std.specs.Prelude.{◌↔◌, ◌<◌, IsTrue, IfOk, Some};
ghost use Rattle.sl_cube_sets.specs.Sets.{IsPair};
ghost use Rattle.sl_cube_sets.specs.Unions.{has_set};
ghost use Rattle.sl_cube_sets.specs.Settled.{Matches, LacksBestAt, IsPairAfter, IsFirstPairOf};

use super::CubeSet;
use super::within::is_below;
use sl_cube::{Point, is_in_some};
use std::alloc::{AllocError, Global};

/// Whether the set at the index has the point.
fn matches(sets: &[CubeSet], point: &Point, index: usize) -> bool
    ensures { IsTrue result ↔ Matches sets.now point.now index }
{
    let Some(set) = sets.get(index) else {
        return false;
    };
    is_in_some(point, &set.cubes)
}

/// Whether both sets have the point and neither lies below the other.
fn in_pair(
    alloc: Global,
    sets: &[CubeSet],
    point: &Point,
    first: usize,
    second: usize,
) -> Result<bool, AllocError>
    requires { first < second }
    ensures { IfOk result (λ answer.
        IsTrue answer ↔ IsPair has_set sets.now point.now first second) }
{
    if !matches(sets, point, first) {
        return Ok(false);
    }
    if !matches(sets, point, second) {
        return Ok(false);
    }
    let below = is_below(alloc, sets, first, second)?;
    if below {
        return Ok(false);
    }
    let above = is_below(alloc, sets, second, first)?;
    Ok(!above)
}

/// The first index behind the given one whose set makes a pair with the set there.
fn first_beside(
    alloc: Global,
    sets: &[CubeSet],
    point: &Point,
    first: usize,
) -> Result<Option<usize>, AllocError>
    ensures { IfOk result (IsPairAfter sets.now point.now first) }
{
    if !matches(sets, point, first) {
        return Ok(None);
    }
    for second in 0..sets.len() {
        if first < second {
            let found = in_pair(alloc, sets, point, first, second)?;
            if found {
                return Ok(Some(second));
            }
        }
    }
    Ok(None)
}

/// The first pair, by its first index and then by its second, or `None` where there is none.
fn first_pair(
    alloc: Global,
    sets: &[CubeSet],
    point: &Point,
) -> Result<Option<(usize, usize)>, AllocError>
    ensures { IfOk result (IsFirstPairOf sets.now point.now) }
{
    for first in 0..sets.len() {
        let beside = first_beside(alloc, sets, point, first)?;
        if let Some(second) = beside {
            return Ok(Some((first, second)));
        }
    }
    Ok(None)
}

/// The first pair at a point that is not settled.
pub fn pair_at(alloc: Global, sets: &[CubeSet], point: &Point) -> Result<(usize, usize), AllocError>
    requires { LacksBestAt sets.now point.now }
    ensures { IfOk result (λ pair. IsFirstPairOf sets.now point.now (Some pair)) }
{
    let found = first_pair(alloc, sets, point)?;
    let Some(pair) = found else { unreachable!() };
    Ok(pair)
}
