//! The least point at which a table is not settled: from any such point down, bit by bit.

ghost use Rattle.std.specs.Prelude.{IfOk, Some};
ghost use Rattle.sl_cube_sets.specs.Settled.{IsLeastLacking};
ghost use Rattle.sl_cube_sets.specs.Left.{IsAnswer, IsLeastIn, AreAllOf};
ghost use Rattle.sl_cube_sets.specs.Kept.{AreRight};

use super::CubeSet;
use super::answers::Answers;
use super::candidate::Candidate;
use super::search::{kept, put, unsettled};
use sl_cube::{Cube, Point, split};
use std::alloc::{AllocError, Global};
use std::borrow::CowSlice;

/// The least point of the region that is not settled, from any such point on.
fn least_from(
    alloc: Global,
    sets: &[CubeSet],
    answers: &mut Answers,
    region: &Cube,
    left: &[Candidate<'_>],
    witness: &Point,
) -> Result<Point, AllocError>
    requires { AreRight sets.now answers.old }
    ensures { IfOk result (λ least. IsAnswer sets.now region.now left.now (Some witness.now)
        → IsLeastIn sets.now region.now left.now least) }
{
    let Some((low, high)) = split(region) else {
        return Ok(*witness);
    };
    let in_low = kept(alloc, &low, left)?;
    if low.has(witness) {
        let least = least_from(alloc, sets, answers, &low, &in_low, witness)?;
        return Ok(least);
    }
    let found = unsettled(alloc, sets, answers, &low, &in_low)?;
    let Some(lower) = found else {
        let in_high = kept(alloc, &high, left)?;
        let least = least_from(alloc, sets, answers, &high, &in_high, witness)?;
        return Ok(least);
    };
    let least = least_from(alloc, sets, answers, &low, &in_low, &lower)?;
    Ok(least)
}

/// All sets with all their cubes, which are lent.
fn all_of<'a>(alloc: Global, sets: &'a [CubeSet]) -> Result<Vec<Candidate<'a>>, AllocError>
    ensures { IfOk result (λ left. AreAllOf sets.now left.items) }
{
    let mut left = Vec::new(alloc);
    for (index, set) in sets.iter().enumerate() {
        put(&mut left, index, CowSlice::Borrowed(&set.cubes))?;
    }
    Ok(left)
}

/// The least point that some set has and where none is the choice, or `None` exactly where there is
/// none.
pub fn least_unsettled(alloc: Global, sets: &[CubeSet]) -> Result<Option<Point>, AllocError>
    ensures { IfOk result (IsLeastLacking sets.now) }
{
    let mut answers = Answers::new(alloc, sets)?;
    let whole = Cube {
        mask: 0,
        value: 0,
        ctx_mask: 0,
        ctx_value: 0,
    };
    let left = all_of(alloc, sets)?;
    let found = unsettled(alloc, sets, &mut answers, &whole, &left)?;
    let Some(witness) = found else {
        return Ok(None);
    };
    let least = least_from(alloc, sets, &mut answers, &whole, &left, &witness)?;
    Ok(Some(least))
}
