//! Cubes at a place.

ghost use Rattle.std.specs.Prelude.{◌≤◌, ◌+◌, MatchOption, IfOk, OnOk, length};
ghost use Rattle.sl_shape_constraints.specs.Sets.{Adds, IsCubeOf, IsNowhere};
ghost use Rattle.sl_shape_constraints.specs.Places.{IsSeenIn};

use sl_cube::Cube;
use std::alloc::AllocError;

/// The points that are in the cube as they are seen from the place; none where there is no such
/// point.
pub fn moved(cube: &Cube, place: u32) -> Option<Cube>
    ensures { MatchOption result (IsNowhere (IsSeenIn place cube.now))
        (IsCubeOf (IsSeenIn place cube.now)) }
{
    let bits = 8 * place.min(15);
    let last = 8 * (place.min(16) - place.min(15));
    let mask = cube.mask >> bits >> last;
    let value = cube.value >> bits >> last;
    if value << bits << last != cube.value {
        return None;
    }
    Some(Cube {
        mask,
        value,
        ctx_mask: cube.ctx_mask,
        ctx_value: cube.ctx_value,
    })
}

/// Adds the points that are in the cube as they are seen from the place, as at most one cube.
pub fn put_moved(cubes: &mut Vec<Cube>, cube: &Cube, place: u32) -> Result<(), AllocError>
    ensures points { IfOk result
        (λ _. Adds cubes.old.items (IsSeenIn place cube.now) cubes.new.items) }
    ensures few { OnOk result (length cubes.new.items ≤ length cubes.old.items + 1) }
{
    if let Some(at_place) = moved(cube, place) {
        cubes.push(at_place)?;
    }
    Ok(())
}
