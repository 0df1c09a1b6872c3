//! Covers of the points at which a set isn't the choice, and of those behind which the operand has one.

ghost use Rattle.std.specs.Prelude.{◌↔◌, ◌≤◌, IfOk, IsTrue};
ghost use Rattle.sl_cube_sets.specs.Unions.{AreInside, IsBelow};
ghost use Rattle.sl_gap_holes.specs.Covered.{AddsAll, AddsBelow, AddsMoved, AreBelow, AreCovers};
ghost use Rattle.sl_gap_holes.specs.Covered.{IsHullAt, IsWithAll};

use crate::windows::moved;
use sl_cube::Cube;
use sl_cube_sets::{CubeSet, hull_of, is_below};
use sl_cube_tails::Cover;
use std::alloc::{AllocError, Global};

/// The cube with all tails.
fn with_all(cube: &Cube) -> Cover
    ensures { IsWithAll cube.now result }
{
    Cover {
        head: *cube,
        tail: Cube {
            mask: 0,
            value: 0,
            ctx_mask: 0,
            ctx_value: 0,
        },
    }
}

/// Adds cubes with all tails.
fn put_all(cubes: &[Cube], covers: &mut Vec<Cover>) -> Result<(), AllocError>
    ensures { IfOk result (λ done. AddsAll cubes.now covers.old.items covers.new.items) }
{
    for cube in cubes {
        covers.push(with_all(cube))?;
    }
    Ok(())
}

/// Adds the points behind which the cubes lie.
fn put_moved(place: u32, cubes: &[Cube], covers: &mut Vec<Cover>) -> Result<(), AllocError>
    requires { place ≤ 15 }
    ensures { IfOk result (λ done. AddsMoved place cubes.now covers.old.items covers.new.items) }
{
    for cube in cubes {
        covers.push(moved(place, cube))?;
    }
    Ok(())
}

/// Whether the first of the cubes has a point outside the hull.
fn is_outside(hull: &Cube, cubes: &[Cube]) -> bool
    ensures { IsTrue result → AreInside hull.now cubes.now → ⊥ }
{
    match cubes.first() {
        Some(cube) => !hull.contains(cube),
        None => false,
    }
}

/// Whether the other set lies below this one, of which the hull has all points.
fn is_under(
    alloc: Global,
    sets: &[CubeSet],
    hull: &Cube,
    other: usize,
    set: usize,
) -> Result<bool, AllocError>
    requires { IsHullAt sets.now set hull.now }
    ensures { IfOk result (λ answer. IsTrue answer ↔ IsBelow sets.now other set) }
{
    let Some(of) = sets.get(other) else {
        return Ok(false);
    };
    if is_outside(hull, &of.cubes) {
        return Ok(false);
    }
    let below = is_below(alloc, sets, other, set)?;
    Ok(below)
}

/// Adds the points of the other set, where it lies below this one.
fn put_below(
    alloc: Global,
    sets: &[CubeSet],
    hull: &Cube,
    other: usize,
    set: usize,
    covers: &mut Vec<Cover>,
) -> Result<(), AllocError>
    requires { IsHullAt sets.now set hull.now }
    ensures { IfOk result (λ done. AddsBelow sets.now set other covers.old.items covers.new.items) }
{
    let under = is_under(alloc, sets, hull, other, set)?;
    if !under {
        return Ok(());
    }
    put_all(&sets[other].cubes, covers)?;
    Ok(())
}

/// The points of the sets that lie below this one, of which the hull has all points.
fn below_by(
    alloc: Global,
    sets: &[CubeSet],
    hull: &Cube,
    set: usize,
) -> Result<Vec<Cover>, AllocError>
    requires { IsHullAt sets.now set hull.now }
    ensures { IfOk result (λ covers. AreBelow sets.now set covers.items) }
{
    let mut covers = Vec::new(alloc);
    'sets: for other in 0..sets.len() {
        put_below(alloc, sets, hull, other, set, &mut covers)?;
    }
    Ok(covers)
}

/// The points of the sets that lie below this one, if it is there.
fn below_of(alloc: Global, sets: &[CubeSet], set: usize) -> Result<Vec<Cover>, AllocError>
    ensures { IfOk result (λ covers. AreBelow sets.now set covers.items) }
{
    let Some(of) = sets.get(set) else {
        return Ok(Vec::new(alloc));
    };
    let Some(hull) = hull_of(&of.cubes) else {
        return Ok(Vec::new(alloc));
    };
    let covers = below_by(alloc, sets, &hull, set)?;
    Ok(covers)
}

/// The points at which a set isn't the choice though it may have them, and those behind which one of
/// the cubes lies.
pub fn covers_of(
    alloc: Global,
    sets: &[CubeSet],
    set: usize,
    place: u32,
    cubes: &[Cube],
) -> Result<Vec<Cover>, AllocError>
    requires { place ≤ 15 }
    ensures { IfOk result (λ covers. AreCovers sets.now set place cubes.now covers.items) }
{
    let mut covers = below_of(alloc, sets, set)?;
    put_moved(place, cubes, &mut covers)?;
    Ok(covers)
}
