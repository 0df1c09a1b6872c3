//! What is left of sets in a region of points, and the halves of a region.

ghost use Rattle.std.specs.Prelude.{IsTrue, IfOk, MatchOption};
ghost use Rattle.sl_cube.specs.Search.{IsHalved, KeepsMeeting};
ghost use Rattle.sl_cube_sets.specs.Left.{Fills};
ghost use Rattle.sl_cube_marks.specs.Rests.{AddsWithin, AddsUnless, IsAbove, IsConstant};
ghost use Rattle.sl_cube_marks.specs.Rests.{IsFiller, IsFilledBy, KeepsChoices};

use sl_cube::{Cube, Tally, is_covered, meeting};
use sl_cube_sets::{CubeSet, is_below};
use std::alloc::{AllocError, Global};

/// What is left in a region of points of the set at an index of a table.
#[derive(Debug, Drop)]
pub struct Rest {
    pub set: usize,
    pub cubes: Vec<Cube>,
}

/// Whether several cubes cover the region together.
fn covers(alloc: Global, region: &Cube, cubes: &[Cube]) -> Result<bool, AllocError>
    ensures { IfOk result (λ answer. IsTrue answer → Fills region.now cubes.now) }
{
    if cubes.len() <= 1 {
        return Ok(false);
    }
    let covered = is_covered(alloc, region, cubes)?;
    Ok(covered)
}

/// The cubes that meet the region; where several cover it, the region itself.
fn narrowed(alloc: Global, region: &Cube, cubes: &[Cube]) -> Result<Vec<Cube>, AllocError>
    ensures { IfOk result (λ kept. KeepsMeeting region.now cubes.now kept.items) }
{
    let met = meeting(alloc, region, cubes)?;
    let covered = covers(alloc, region, &met)?;
    if covered {
        let mut whole = Vec::new(alloc);
        whole.push(*region)?;
        return Ok(whole);
    }
    Ok(met)
}

/// Puts what some cubes of a set leave in the region behind the others, where they leave something.
pub fn put(
    alloc: Global,
    region: &Cube,
    set: usize,
    cubes: &[Cube],
    kept: &mut Vec<Rest>,
) -> Result<(), AllocError>
    ensures { IfOk result (λ done.
        AddsWithin region.now set cubes.now kept.old.items kept.new.items) }
{
    let cubes = narrowed(alloc, region, cubes)?;
    if cubes.len() == 0 {
        return Ok(());
    }
    kept.push(Rest { set, cubes })?;
    Ok(())
}

/// Whether one of the cubes has the whole region.
fn fills(region: &Cube, cubes: &[Cube]) -> bool
    ensures { IsTrue result → Fills region.now cubes.now }
{
    for cube in cubes {
        if cube.contains(region) {
            return true;
        }
    }
    false
}

/// The set where it fills the region and lies below the one found before, else that one.
fn lower_filler(
    alloc: Global,
    sets: &[CubeSet],
    region: &Cube,
    rest: &Rest,
    found: Option<usize>,
) -> Result<Option<usize>, AllocError>
    ensures { IfOk result (IsFiller region.now rest.now found) }
{
    if !fills(region, &rest.cubes) {
        return Ok(found);
    }
    let Some(other) = found else {
        return Ok(Some(rest.set));
    };
    let below = is_below(alloc, sets, rest.set, other)?;
    if below {
        return Ok(Some(rest.set));
    }
    Ok(found)
}

/// A set that fills the region, if one does.
pub fn filler(
    alloc: Global,
    sets: &[CubeSet],
    region: &Cube,
    left: &[Rest],
) -> Result<Option<usize>, AllocError>
    ensures { IfOk result (IsFilledBy region.now left.now) }
{
    let mut found = None;
    for rest in left {
        found = lower_filler(alloc, sets, region, rest, found)?;
    }
    Ok(found)
}

/// Whether the set fills the region and lies above the one that is told.
fn is_above(
    alloc: Global,
    sets: &[CubeSet],
    region: &Cube,
    filled: Option<usize>,
    rest: &Rest,
) -> Result<bool, AllocError>
    ensures { IfOk result (λ answer. IsTrue answer → IsAbove sets.now filled rest.now.set) }
{
    let Some(lower) = filled else {
        return Ok(false);
    };
    if !fills(region, &rest.cubes) {
        return Ok(false);
    }
    let above = is_below(alloc, sets, lower, rest.set)?;
    Ok(above)
}

/// Puts what is left of a set in the region behind the others, unless it fills the region and lies
/// above the one that is told.
fn put_unless_above(
    alloc: Global,
    sets: &[CubeSet],
    region: &Cube,
    filled: Option<usize>,
    rest: &Rest,
    kept: &mut Vec<Rest>,
) -> Result<(), AllocError>
    ensures { IfOk result (λ done.
        AddsUnless sets.now region.now filled rest.now kept.old.items kept.new.items) }
{
    let above = is_above(alloc, sets, region, filled, rest)?;
    if above {
        return Ok(());
    }
    put(alloc, region, rest.set, &rest.cubes, kept)?;
    Ok(())
}

/// What is left of the sets in a region, but for some that lie above the one that is told.
pub fn kept(
    alloc: Global,
    sets: &[CubeSet],
    region: &Cube,
    filled: Option<usize>,
    left: &[Rest],
) -> Result<Vec<Rest>, AllocError>
    ensures { IfOk result (λ kept. KeepsChoices sets.now region.now filled left.now kept.items) }
{
    let mut kept = Vec::new(alloc);
    for rest in left {
        put_unless_above(alloc, sets, region, filled, rest, &mut kept)?;
    }
    Ok(kept)
}

/// The halves of the region at a bit that it leaves open and some cube fixes. Without one, the same
/// sets are at all its points.
pub fn halved(region: &Cube, left: &[Rest]) -> Option<(Cube, Cube)>
    ensures { MatchOption result (IsConstant region.now left.now)
        (λ halves. IsHalved region.now halves.0 halves.1) }
{
    let mut tally = Tally::new();
    for rest in left {
        tally.weigh_all(region, &rest.cubes);
    }
    tally.halves(region)
}
