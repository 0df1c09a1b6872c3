//! A point at which some of a table's sets are and none is the choice.
//!
//! A region of points is split on bits that the sets left there fix, one that most of the shortest
//! cubes fix first, until one set is left, or two of which one lies below the other, or no cube
//! fixes an open bit. Where by their hulls many sets lie apart, the hulls stand for the cubes. Where
//! a set fills the region, all sets above it are taken away: at no point of the region are they the
//! choice. The cubes of a set are lent until some are taken away, and gone over only where its hull
//! leaves it open whether the region has them all or none.

ghost use Rattle.std.specs.Prelude.{◌↔◌, IsTrue, MatchOption, IfOk, IfSome};
ghost use Rattle.std.specs.Cow.{cow_slice_items};
ghost use Rattle.sl_cube.specs.Points.{IsInSome};
ghost use Rattle.sl_cube.specs.Search.{IsHalved};
ghost use Rattle.sl_cube_sets.specs.Left.{cubes_of, IsThere, IsNoneThere, KeepsAll, Adds};
ghost use Rattle.sl_cube_sets.specs.Left.{AddsWithin, AddsUnless, IsAbove, IsWithoutAbove, Fills};
ghost use Rattle.sl_cube_sets.specs.Left.{IsFilledBy, Carries, IsAnswer, IsConstant, AreNested};
ghost use Rattle.sl_cube_sets.specs.Left.{StandsBeside, IsLowest, IsBestHere, HasBest, IsChosen};
ghost use Rattle.sl_cube_sets.specs.Kept.{AreRight};

use super::CubeSet;
use super::answers::Answers;
use super::candidate::Candidate;
use super::hull::hull_of;
use super::within::is_below;
use sl_cube::{Cube, Point, Tally, is_in_some, meeting};
use std::alloc::{AllocError, Global};
use std::borrow::CowSlice;

/// Puts a set behind the others with the cubes that are left of it, where some are.
pub fn put<'a>(
    kept: &mut Vec<Candidate<'a>>,
    set: usize,
    cubes: CowSlice<'a, Cube>,
) -> Result<(), AllocError>
    ensures { IfOk result (λ done.
        Adds kept.old.items set (cow_slice_items cubes.entry) kept.new.items) }
{
    let Some(hull) = hull_of(cubes.as_slice()) else {
        return Ok(());
    };
    kept.push(Candidate { set, hull, cubes })?;
    Ok(())
}

/// Whether each cube of the candidate meets the region. Where all lie in it, the hull tells.
fn is_whole(region: &Cube, candidate: &Candidate<'_>) -> bool {
    if region.contains(&candidate.hull) {
        return true;
    }
    let cubes = candidate.cubes.as_slice();
    cubes.iter().all(|cube| region.meets(cube))
}

/// Puts what is left of a candidate in the region behind the others, where something is. One of
/// which nothing is to be taken away is lent, and one whose hull lies outside is passed over.
fn put_meeting<'a>(
    alloc: Global,
    region: &Cube,
    candidate: &'a Candidate<'_>,
    kept: &mut Vec<Candidate<'a>>,
) -> Result<(), AllocError>
    ensures { IfOk result (λ done.
        AddsWithin region.now candidate.now kept.old.items kept.new.items) }
{
    if !region.meets(&candidate.hull) {
        return Ok(());
    }
    if is_whole(region, candidate) {
        kept.push(candidate.lent())?;
        return Ok(());
    }
    let cubes = meeting(alloc, region, candidate.cubes.as_slice())?;
    put(kept, candidate.set, CowSlice::Owned(cubes))?;
    Ok(())
}

/// What is left of the sets in a region.
pub fn kept<'a>(
    alloc: Global,
    region: &Cube,
    left: &'a [Candidate<'_>],
) -> Result<Vec<Candidate<'a>>, AllocError>
    ensures { IfOk result (λ kept. KeepsAll region.now left.now kept.items) }
{
    let mut kept = Vec::new(alloc);
    for candidate in left {
        put_meeting(alloc, region, candidate, &mut kept)?;
    }
    Ok(kept)
}

/// Whether the set lies above the one that fills the region, where one does.
fn is_above(
    alloc: Global,
    sets: &[CubeSet],
    answers: &mut Answers,
    filled: Option<usize>,
    set: usize,
) -> Result<bool, AllocError>
    requires { AreRight sets.now answers.old }
    ensures above { IfOk result (λ answer. IsTrue answer → IsAbove sets.now filled set) }
    ensures right { IfOk result (λ answer. AreRight sets.now answers.new) }
{
    let Some(lower) = filled else {
        return Ok(false);
    };
    let above = answers.is_below(alloc, sets, lower, set)?;
    Ok(above)
}

/// Puts a candidate behind the others, unless its set lies above the one that fills the region.
fn put_unless_above<'a>(
    alloc: Global,
    sets: &[CubeSet],
    answers: &mut Answers,
    filled: Option<usize>,
    candidate: &'a Candidate<'_>,
    thin: &mut Vec<Candidate<'a>>,
) -> Result<(), AllocError>
    requires { AreRight sets.now answers.old }
    ensures adds { IfOk result (λ done.
        AddsUnless sets.now filled candidate.now thin.old.items thin.new.items) }
    ensures right { IfOk result (λ done. AreRight sets.now answers.new) }
{
    let above = is_above(alloc, sets, answers, filled, candidate.set)?;
    if above {
        return Ok(());
    }
    thin.push(candidate.lent())?;
    Ok(())
}

/// The candidates but for those above the set that fills the region.
fn without_above<'a>(
    alloc: Global,
    sets: &[CubeSet],
    answers: &mut Answers,
    filled: Option<usize>,
    left: &'a [Candidate<'_>],
) -> Result<Vec<Candidate<'a>>, AllocError>
    requires { AreRight sets.now answers.old }
    ensures thin { IfOk result (λ thin. IsWithoutAbove sets.now filled left.now thin.items) }
    ensures right { IfOk result (λ thin. AreRight sets.now answers.new) }
{
    let mut thin = Vec::new(alloc);
    for candidate in left {
        put_unless_above(alloc, sets, answers, filled, candidate, &mut thin)?;
    }
    Ok(thin)
}

/// Whether one of the cubes has the whole region.
fn fills(region: &Cube, cubes: &[Cube]) -> bool
    ensures { IsTrue result → Fills region.now cubes.now }
{
    for cube in cubes {
        if cube.contains(region) {
            return true;
        }
    }
    false
}

/// Whether the candidate fills the region and lies below the one found before.
fn is_lower(
    alloc: Global,
    sets: &[CubeSet],
    answers: &mut Answers,
    region: &Cube,
    candidate: &Candidate<'_>,
    found: Option<usize>,
) -> Result<bool, AllocError>
    requires { AreRight sets.now answers.old }
    ensures fills { IfOk result (λ answer.
        IsTrue answer → Fills region.now (cubes_of candidate.now)) }
    ensures right { IfOk result (λ answer. AreRight sets.now answers.new) }
{
    if !candidate.hull.contains(region) {
        return Ok(false);
    }
    if !fills(region, candidate.cubes.as_slice()) {
        return Ok(false);
    }
    let Some(other) = found else {
        return Ok(true);
    };
    let below = answers.is_below(alloc, sets, candidate.set, other)?;
    Ok(below)
}

/// The set where the test holds, else the one found before.
fn chosen(lower: bool, set: usize, found: Option<usize>) -> Option<usize>
    ensures { IsChosen lower set found result }
{
    if lower { Some(set) } else { found }
}

/// A set that has each point of the region, and of which none that has is below.
fn filling(
    alloc: Global,
    sets: &[CubeSet],
    answers: &mut Answers,
    region: &Cube,
    left: &[Candidate<'_>],
) -> Result<Option<usize>, AllocError>
    requires { AreRight sets.now answers.old }
    ensures filled { IfOk result (IsFilledBy region.now left.now) }
    ensures right { IfOk result (λ found. AreRight sets.now answers.new) }
{
    let mut found = None;
    for candidate in left {
        let lower = is_lower(alloc, sets, answers, region, candidate, found)?;
        found = chosen(lower, candidate.set, found);
    }
    Ok(found)
}

/// The candidates among which the choice in the region is to be sought.
fn thinned<'a>(
    alloc: Global,
    sets: &[CubeSet],
    answers: &mut Answers,
    region: &Cube,
    left: &'a [Candidate<'_>],
) -> Result<Vec<Candidate<'a>>, AllocError>
    requires { AreRight sets.now answers.old }
    ensures thin { IfOk result (λ thin. Carries sets.now region.now left.now thin.items) }
    ensures right { IfOk result (λ thin. AreRight sets.now answers.new) }
{
    let filled = filling(alloc, sets, answers, region, left)?;
    let thin = without_above(alloc, sets, answers, filled, left)?;
    Ok(thin)
}

/// Whether two sets are left, of which one lies below the other.
fn are_nested(
    alloc: Global,
    sets: &[CubeSet],
    answers: &mut Answers,
    left: &[Candidate<'_>],
) -> Result<bool, AllocError>
    requires { AreRight sets.now answers.old }
    ensures nested { IfOk result (λ answer. IsTrue answer → AreNested sets.now left.now) }
    ensures right { IfOk result (λ answer. AreRight sets.now answers.new) }
{
    if left.len() != 2 {
        return Ok(false);
    }
    let first = left[0].set;
    let second = left[1].set;
    let below = answers.is_below(alloc, sets, first, second)?;
    if below {
        return Ok(true);
    }
    let above = answers.is_below(alloc, sets, second, first)?;
    Ok(above)
}

/// The first hull that doesn't have the whole region.
fn first_hull(region: &Cube, left: &[Candidate<'_>]) -> Option<Cube> {
    for candidate in left {
        if !candidate.hull.contains(region) {
            return Some(candidate.hull);
        }
    }
    None
}

/// Whether at least half of the hulls lie apart from the first one that doesn't have the whole region.
/// Where fewer do, as where each box contains the next, cubes tell a better bit.
fn are_apart(region: &Cube, left: &[Candidate<'_>]) -> bool {
    let Some(first) = first_hull(region, left) else {
        return false;
    };
    let apart = left
        .iter()
        .filter(|candidate| !first.meets(&candidate.hull))
        .count();
    left.len() / 2 <= apart
}

/// The halves of the region at a bit that it leaves open and some hull fixes, where one does.
fn halved_by_hulls(region: &Cube, left: &[Candidate<'_>]) -> Option<(Cube, Cube)>
    ensures { IfSome result (λ halves. IsHalved region.now halves.0 halves.1) }
{
    let mut tally = Tally::new();
    for candidate in left {
        tally.weigh_all(region, &[candidate.hull]);
    }
    tally.halves(region)
}

/// The halves of the region at a bit that it leaves open and some cube fixes.
fn halved_by_cubes(region: &Cube, left: &[Candidate<'_>]) -> Option<(Cube, Cube)>
    ensures { MatchOption result (IsConstant region.now left.now)
        (λ halves. IsHalved region.now halves.0 halves.1) }
{
    let mut tally = Tally::new();
    for candidate in left {
        tally.weigh_all(region, candidate.cubes.as_slice());
    }
    tally.halves(region)
}

/// The halves of the region at a bit that it leaves open and some cube fixes.
fn halved(region: &Cube, left: &[Candidate<'_>]) -> Option<(Cube, Cube)>
    ensures { MatchOption result (IsConstant region.now left.now)
        (λ halves. IsHalved region.now halves.0 halves.1) }
{
    if are_apart(region, left) {
        let by_hulls = halved_by_hulls(region, left);
        if let Some(halves) = by_hulls {
            return Some(halves);
        }
    }
    halved_by_cubes(region, left)
}

/// The place of a set that is there at the point.
fn first_there(left: &[Candidate<'_>], point: &Point) -> Option<usize>
    ensures { MatchOption result (IsNoneThere left.now point.now) (IsThere left.now point.now) }
{
    for candidate in left {
        if is_in_some(point, candidate.cubes.as_slice()) {
            return Some(candidate.set);
        }
    }
    None
}

/// Whether the other candidate is there and the set isn't below it.
fn is_beside(
    alloc: Global,
    sets: &[CubeSet],
    point: &Point,
    set: usize,
    other: &Candidate<'_>,
) -> Result<bool, AllocError>
    ensures { IfOk result (λ answer. StandsBeside sets.now point.now set other.now answer) }
{
    if other.set == set {
        return Ok(false);
    }
    if !is_in_some(point, other.cubes.as_slice()) {
        return Ok(false);
    }
    let below = is_below(alloc, sets, set, other.set)?;
    Ok(!below)
}

/// Whether the set lies below each other one that is there.
fn is_lowest(
    alloc: Global,
    sets: &[CubeSet],
    left: &[Candidate<'_>],
    point: &Point,
    set: usize,
) -> Result<bool, AllocError>
    ensures { IfOk result (λ answer. IsTrue answer ↔ IsLowest sets.now left.now point.now set) }
{
    for other in left {
        let beside = is_beside(alloc, sets, point, set, other)?;
        if beside {
            return Ok(false);
        }
    }
    Ok(true)
}

/// Whether the candidate is the best of those that are there.
fn is_best(
    alloc: Global,
    sets: &[CubeSet],
    left: &[Candidate<'_>],
    point: &Point,
    candidate: &Candidate<'_>,
) -> Result<bool, AllocError>
    ensures { IfOk result (λ answer. IsTrue answer
        ↔ IsBestHere sets.now left.now point.now candidate.now) }
{
    if !is_in_some(point, candidate.cubes.as_slice()) {
        return Ok(false);
    }
    let lowest = is_lowest(alloc, sets, left, point, candidate.set)?;
    Ok(lowest)
}

/// Whether one of those that are there is the best.
fn has_best(
    alloc: Global,
    sets: &[CubeSet],
    left: &[Candidate<'_>],
    point: &Point,
) -> Result<bool, AllocError>
    ensures { IfOk result (λ answer. HasBest sets.now left.now point.now answer) }
{
    for candidate in left {
        let best = is_best(alloc, sets, left, point, candidate)?;
        if best {
            return Ok(true);
        }
    }
    Ok(false)
}

/// The answer in a region in which the same sets are everywhere.
fn judged(
    alloc: Global,
    sets: &[CubeSet],
    region: &Cube,
    left: &[Candidate<'_>],
) -> Result<Option<Point>, AllocError>
    requires { IsConstant region.now left.now }
    ensures { IfOk result (IsAnswer sets.now region.now left.now) }
{
    let least = region.least();
    let one = first_there(left, &least);
    if one.is_none() {
        return Ok(None);
    }
    let best = has_best(alloc, sets, left, &least)?;
    if best {
        return Ok(None);
    }
    Ok(Some(least))
}

/// A point of the region at which some of the sets are left and none is the choice, or `None`
/// exactly where there is none.
pub(crate) fn unsettled(
    alloc: Global,
    sets: &[CubeSet],
    answers: &mut Answers,
    region: &Cube,
    left: &[Candidate<'_>],
) -> Result<Option<Point>, AllocError>
    requires { AreRight sets.now answers.old }
    ensures answer { IfOk result (IsAnswer sets.now region.now left.now) }
    ensures right { IfOk result (λ answer. AreRight sets.now answers.new) }
{
    let thin = thinned(alloc, sets, answers, region, left)?;
    if thin.len() <= 1 {
        return Ok(None);
    }
    let nested = are_nested(alloc, sets, answers, &thin)?;
    if nested {
        return Ok(None);
    }
    let Some((low, high)) = halved(region, &thin) else {
        let answer = judged(alloc, sets, region, &thin)?;
        return Ok(answer);
    };
    let in_low = kept(alloc, &low, &thin)?;
    let found = unsettled(alloc, sets, answers, &low, &in_low)?;
    if found.is_some() {
        return Ok(found);
    }
    let in_high = kept(alloc, &high, &thin)?;
    let answer = unsettled(alloc, sets, answers, &high, &in_high)?;
    Ok(answer)
}
