//! The least point of a cube that is in none of a list of cubes.
//!
//! First any such point is sought: a cube is cut down as far as the others force it, and only then
//! split, at an open bit that many of the shortest others fix. From a point that is outside the least
//! one is reached bit by bit, from the highest bit down.

ghost use Rattle.std.specs.Prelude.{◌↔◌, ◌≢◌, ◌⊎◌, IsTrue, MatchOption, IfOk, All};
ghost use Rattle.sl_cube.specs.Points.{IsInSome};
ghost use Rattle.sl_cube.specs.Cubes.{Includes, Covers, IsFound, IsOutside};
ghost use Rattle.sl_cube.specs.Cubes.{IsLeastOutside, AreMeeting};
ghost use Rattle.sl_cube.specs.Search.{Reduces, IsRest, Narrows, IsSomeFound, FixesNoMore, IsHalved};

use super::halves::{highest, parts, split};
use super::tally::Tally;
use super::{Cube, Point};
use std::alloc::{AllocError, Global};

/// Some point of the cube that is in none of the others, or `None` exactly where the others cover
/// the cube.
fn some_outside(alloc: Global, cube: &Cube, others: &[Cube]) -> Result<Option<Point>, AllocError>
    ensures { IfOk result (IsSomeFound cube.now others.now) }
{
    let Some((rest, kept)) = reduced(alloc, cube, others)? else {
        return Ok(None);
    };
    if fixes_more(&rest, cube) {
        return some_outside(alloc, &rest, &kept);
    }
    let Some((low, high)) = favoured_halves(&rest, &kept) else {
        return Ok(least_outside(&rest, &kept));
    };
    match some_outside(alloc, &low, &kept)? {
        None => some_outside(alloc, &high, &kept),
        found => Ok(found),
    }
}

/// The cube's least point, where none of the others has it. None of them fixes a bit that the cube
/// leaves open.
fn least_outside(cube: &Cube, others: &[Cube]) -> Option<Point>
    requires { All (FixesNoMore cube.now) others.now }
    ensures { IsSomeFound cube.now others.now result }
{
    let least = cube.least();
    if is_in_some(&least, others) {
        return None;
    }
    Some(least)
}

/// The halves of the cube at a bit that it leaves open and the shortest of the others fix.
fn favoured_halves(cube: &Cube, others: &[Cube]) -> Option<(Cube, Cube)>
    ensures { MatchOption result (All (FixesNoMore cube.now) others.now)
        (λ halves. IsHalved cube.now halves.0 halves.1) }
{
    let mut tally = Tally::new();
    tally.weigh_all(cube, others);
    tally.halves(cube)
}

/// The least point of the cube that is in none of the others, from any such point on.
fn least_from(
    alloc: Global,
    cube: &Cube,
    others: &[Cube],
    witness: &Point,
) -> Result<Point, AllocError>
    ensures { IfOk result (λ least. IsOutside witness.now cube.now others.now
        → IsLeastOutside least cube.now others.now) }
{
    if others.is_empty() {
        return Ok(cube.least());
    }
    let Some((low, high)) = split(cube) else {
        return Ok(*witness);
    };
    let in_low = meeting(alloc, &low, others)?;
    if low.has(witness) {
        let least = least_from(alloc, &low, &in_low, witness)?;
        return Ok(least);
    }
    let found = some_outside(alloc, &low, &in_low)?;
    let Some(lower) = found else {
        let in_high = meeting(alloc, &high, others)?;
        let least = least_from(alloc, &high, &in_high, witness)?;
        return Ok(least);
    };
    let least = least_from(alloc, &low, &in_low, &lower)?;
    Ok(least)
}

/// The least point of the cube that is in none of the others, or `None` exactly where the others
/// cover the cube. The only error is want of memory.
pub fn point_outside(
    alloc: Global,
    cube: &Cube,
    others: &[Cube],
) -> Result<Option<Point>, AllocError>
    ensures { IfOk result (IsFound cube.now others.now) }
{
    let found = some_outside(alloc, cube, others)?;
    let Some(witness) = found else {
        return Ok(None);
    };
    let least = least_from(alloc, cube, others, &witness)?;
    Ok(Some(least))
}

/// Whether each point of the cube is in some of the others. The only error is want of memory.
pub fn is_covered(alloc: Global, cube: &Cube, others: &[Cube]) -> Result<bool, AllocError>
    ensures { IfOk result (λ answer. IsTrue answer ↔ Covers others.now cube.now) }
{
    let found = some_outside(alloc, cube, others)?;
    Ok(found.is_none())
}

/// Whether the masks of the two cubes differ.
fn fixes_more(rest: &Cube, cube: &Cube) -> bool
    ensures { IsTrue result ↔ ((rest.now.mask ≢ cube.now.mask) ⊎ (rest.now.ctx_mask ≢ cube.now.ctx_mask)) }
{
    rest.mask != cube.mask || rest.ctx_mask != cube.ctx_mask
}

/// Whether some of the cubes has the point.
pub fn is_in_some(point: &Point, cubes: &[Cube]) -> bool
    ensures { IsTrue result ↔ IsInSome cubes.now point.now }
{
    cubes.iter().any(|cube| cube.has(point))
}

/// A smaller cube and a shorter list between which lie only points of the cube outside the others,
/// or `None` where the others cover the cube.
fn reduced(
    alloc: Global,
    cube: &Cube,
    others: &[Cube],
) -> Result<Option<(Cube, Vec<Cube>)>, AllocError>
    ensures { IfOk result (λ answer. MatchOption answer (Covers others.now cube.now)
        (λ rest. Reduces cube.now others.now rest.0 rest.1.items)) }
{
    let Some(rest) = narrowed(cube, others) else {
        return Ok(None);
    };
    let kept = meeting(alloc, &rest, others)?;
    Ok(Some((rest, kept)))
}

/// The others that meet the cube, in order. The only error is want of memory.
pub fn meeting(alloc: Global, cube: &Cube, others: &[Cube]) -> Result<Vec<Cube>, AllocError>
    ensures { IfOk result (λ kept. AreMeeting cube.now others.now kept.items) }
{
    let mut kept = Vec::new(alloc);
    for other in others {
        if cube.meets(other) {
            kept.push(*other)?;
        }
    }
    Ok(kept)
}

/// The cube without the halves that the others cut off in turn.
fn narrowed(cube: &Cube, others: &[Cube]) -> Option<Cube>
    ensures { MatchOption result (Covers others.now cube.now) (Narrows cube.now others.now) }
{
    let mut rest = *cube;
    for other in others {
        rest = trimmed(&rest, other)?;
    }
    Some(rest)
}

/// The cube without the half that lies in the other, where one does.
fn trimmed(cube: &Cube, other: &Cube) -> Option<Cube>
    ensures { MatchOption result (Includes other.now cube.now) (IsRest cube.now other.now) }
{
    if other.contains(cube) {
        return None;
    }
    let open = Point {
        bytes: other.mask & !cube.mask,
        context: other.ctx_mask & !cube.ctx_mask,
    };
    let Some(bit) = highest(&open) else {
        return Some(*cube);
    };
    let (low, high) = parts(cube, &bit);
    if other.contains(&low) {
        Some(high)
    } else if other.contains(&high) {
        Some(low)
    } else {
        Some(*cube)
    }
}
