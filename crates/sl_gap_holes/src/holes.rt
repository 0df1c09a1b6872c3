//! The least hole of a set.

ghost use Rattle.std.specs.Prelude.{◌≤◌, IfOk};
ghost use Rattle.sl_conflict.specs.Kept.{HasChoices};
ghost use Rattle.sl_gap_holes.specs.HolePoints.{TellsHole};

use crate::covers::covers_of;
use crate::windows::{followers, tails_of};
use sl_conflict::TableSets;
use sl_cube::{Cube, Point, point_outside};
use sl_cube_tails::least_uncovered;
use std::alloc::{AllocError, Global};

/// A point at which a set is the choice, and one that follows it at which the operand's table has no
/// choice.
#[derive(Clone, Copy, Debug, PartialEq, Eq)]
pub struct HolePoints {
    pub parent: Point,
    pub child: Point,
}

/// The least point at which the set at the index is the choice of its table and behind which, from the
/// place on, some point lies in none of the operand's cubes, and the least such point there. `None`
/// exactly where there is none. The only error is want of memory.
pub fn least_hole(
    alloc: Global,
    kept: &TableSets,
    set: usize,
    operand: &[Cube],
    place: u32,
) -> Result<Option<HolePoints>, AllocError>
    requires settled { HasChoices kept.now }
    requires near { place ≤ 15 }
    ensures { IfOk result (TellsHole kept.now set operand.now place) }
{
    let Some(of) = kept.sets.get(set) else {
        return Ok(None);
    };
    let covers = covers_of(alloc, &kept.sets, set, place, operand)?;
    let tails = tails_of(place);
    let found = least_uncovered(alloc, &of.cubes, &tails, &covers)?;
    let Some(parent) = found else {
        return Ok(None);
    };
    let behind = followers(place, &parent);
    let outside = point_outside(alloc, &behind, operand)?;
    let Some(child) = outside else {
        return Ok(None);
    };
    Ok(Some(HolePoints { parent, child }))
}
