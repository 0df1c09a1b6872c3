//! A point of a region that some tail follows which is not covered.
//!
//! The region is split on bits that the heads of covers fix, until one cover has all of it with all
//! tails, or no head fixes an open bit: then the tails there are looked at.

ghost use Rattle.std.specs.Prelude.{IfOk};
ghost use Rattle.sl_cube_tails.specs.Covers.{AreConstant, IsSomeFound};

use crate::covers::{Cover, covers_all, halved, over, tails_at};
use sl_cube::{Cube, Point, point_outside};
use std::alloc::{AllocError, Global};

/// The answer in a region where each head has all points or none.
fn judged(
    alloc: Global,
    region: &Cube,
    tails: &Cube,
    covers: &[Cover],
) -> Result<Option<Point>, AllocError>
    requires { AreConstant region.now covers.now }
    ensures { IfOk result (IsSomeFound region.now tails.now covers.now) }
{
    let least = region.least();
    let behind = tails_at(alloc, &least, covers)?;
    let found = point_outside(alloc, tails, &behind)?;
    if found.is_none() {
        return Ok(None);
    }
    Ok(Some(least))
}

/// A point of the region that some of the tails follows which is not covered, or `None` exactly where
/// there is none. The covers are those whose heads meet the region.
pub fn some_uncovered(
    alloc: Global,
    region: &Cube,
    tails: &Cube,
    covers: &[Cover],
) -> Result<Option<Point>, AllocError>
    ensures { IfOk result (IsSomeFound region.now tails.now covers.now) }
{
    if covers_all(region, tails, covers) {
        return Ok(None);
    }
    let Some((low, high)) = halved(region, covers) else {
        let answer = judged(alloc, region, tails, covers)?;
        return Ok(answer);
    };
    let in_low = over(alloc, &low, covers)?;
    let found = some_uncovered(alloc, &low, tails, &in_low)?;
    if found.is_some() {
        return Ok(found);
    }
    let in_high = over(alloc, &high, covers)?;
    let answer = some_uncovered(alloc, &high, tails, &in_high)?;
    Ok(answer)
}
