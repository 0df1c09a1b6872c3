//! The most specific of the sets that have a point.

ghost use Rattle.std.specs.Prelude.{IfOk};
ghost use Rattle.sl_cube_marks.specs.Rests.{FindsBest, IsBetter};

use crate::narrowing::Rest;
use sl_cube::{Point, is_in_some};
use sl_cube_sets::{CubeSet, is_below};
use std::alloc::{AllocError, Global};

/// The set where it has the point and lies below the one found before, else that one.
fn better(
    alloc: Global,
    sets: &[CubeSet],
    point: &Point,
    rest: &Rest,
    found: Option<usize>,
) -> Result<Option<usize>, AllocError>
    ensures { IfOk result (IsBetter sets.now point.now rest.now found) }
{
    if !is_in_some(point, &rest.cubes) {
        return Ok(found);
    }
    let Some(other) = found else {
        return Ok(Some(rest.set));
    };
    let below = is_below(alloc, sets, rest.set, other)?;
    if below {
        return Ok(Some(rest.set));
    }
    Ok(found)
}

/// One of the sets that have the point: the one that lies below each other, where one does.
pub fn best_at(
    alloc: Global,
    sets: &[CubeSet],
    point: &Point,
    left: &[Rest],
) -> Result<Option<usize>, AllocError>
    ensures { IfOk result (FindsBest sets.now left.now point.now) }
{
    let mut found = None;
    for rest in left {
        found = better(alloc, sets, point, rest, found)?;
    }
    Ok(found)
}
