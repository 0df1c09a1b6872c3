//! Unions of cubes: their meet, and both together.

ghost use Rattle.std.specs.Prelude.{◌≡◌, ◌≤◌, ◌+◌, ◌*◌, IfOk, OnOk, length};
ghost use Rattle.sl_cube.specs.Points.{IsIn, IsInSome};
ghost use Rattle.sl_shape_constraints.specs.Sets.{Adds, IsUnionOf};

use sl_cube::Cube;
use std::alloc::{AllocError, Global};

/// Adds the points that are in both cubes, as at most one cube.
fn put_meet(cube: &Cube, other: &Cube, met: &mut Vec<Cube>) -> Result<(), AllocError>
    ensures points { IfOk result (λ _. Adds met.old.items
        (λ p. IsIn p cube.now × IsIn p other.now) met.new.items) }
    ensures few { OnOk result (length met.new.items ≤ length met.old.items + 1) }
{
    if let Some(both) = cube.meet(other) {
        met.push(both)?;
    }
    Ok(())
}

/// Adds the points that are in the cube and in one of the others, as at most one cube for each.
fn put_meets(cube: &Cube, others: &[Cube], met: &mut Vec<Cube>) -> Result<(), AllocError>
    ensures points { IfOk result (λ _. Adds met.old.items
        (λ p. IsIn p cube.now × IsInSome others.now p) met.new.items) }
    ensures few { OnOk result
        (length met.new.items ≤ length met.old.items + length others.now) }
{
    for other in others {
        put_meet(cube, other, met)?;
    }
    Ok(())
}

/// The points that are in both unions, as at most one cube for each cube of the one and of the
/// other.
pub fn meets_of(alloc: Global, left: &[Cube], right: &[Cube]) -> Result<Vec<Cube>, AllocError>
    ensures points { IfOk result (λ met. IsUnionOf
        (λ p. IsInSome left.now p × IsInSome right.now p) met.items) }
    ensures few { IfOk result (λ met. length met.items ≤ length left.now * length right.now) }
{
    let mut met = Vec::new(alloc);
    for cube in left {
        put_meets(cube, right, &mut met)?;
    }
    Ok(met)
}

/// Adds the points of another union, cube by cube.
pub fn put_all(cubes: &mut Vec<Cube>, others: &[Cube]) -> Result<(), AllocError>
    ensures points { IfOk result
        (λ _. Adds cubes.old.items (IsInSome others.now) cubes.new.items) }
    ensures few { OnOk result
        (length cubes.new.items ≡ length cubes.old.items + length others.now) }
{
    for other in others {
        cubes.push(*other)?;
    }
    Ok(())
}
