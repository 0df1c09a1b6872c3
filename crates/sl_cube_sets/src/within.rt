//! Which unions of cubes lie within which.

ghost use Rattle.std.specs.Prelude.{◌↔◌, IsTrue, IfOk};
ghost use Rattle.sl_cube_sets.specs.Unions.{AreWithin, IsBelow};

use super::CubeSet;
use sl_cube::{Cube, is_covered};
use std::alloc::{AllocError, Global};

/// Whether each point of the first cubes is in some of the second.
pub fn is_within(alloc: Global, inner: &[Cube], outer: &[Cube]) -> Result<bool, AllocError>
    ensures { IfOk result (λ answer. IsTrue answer ↔ AreWithin inner.now outer.now) }
{
    for cube in inner {
        let covered = is_covered(alloc, cube, outer)?;
        if !covered {
            return Ok(false);
        }
    }
    Ok(true)
}

/// Whether the set at the first index lies within the one at the second and is another set. Nothing
/// lies below or above an index behind the last. The only error is want of memory.
pub fn is_below(
    alloc: Global,
    sets: &[CubeSet],
    inner: usize,
    outer: usize,
) -> Result<bool, AllocError>
    ensures { IfOk result (λ answer. IsTrue answer ↔ IsBelow sets.now inner outer) }
{
    let Some(low) = sets.get(inner) else {
        return Ok(false);
    };
    let Some(high) = sets.get(outer) else {
        return Ok(false);
    };
    let forth = is_within(alloc, &low.cubes, &high.cubes)?;
    if !forth {
        return Ok(false);
    }
    let back = is_within(alloc, &high.cubes, &low.cubes)?;
    Ok(!back)
}
