//! What is reported of a table in which some point has no choice.

ghost use Rattle.std.specs.Prelude.{◌≡◌, IfOk, MatchOption, Some};
ghost use Rattle.std.specs.Prelude.{slice_get};
ghost use Rattle.sl_cube_sets.specs.Sets.{IsProperlyWithin, IsSettled, IsPair};
ghost use Rattle.sl_cube_sets.specs.Reports.{DifferAs, IsReport};
ghost use Rattle.sl_cube_sets.specs.Unions.{has_set};
ghost use Rattle.sl_cube_sets.specs.declared.CubeSet.{CubeSet};

use super::CubeSet;
use super::least::least_unsettled;
use super::pair::pair_at;
use sl_cube::Point;
use std::alloc::{AllocError, Global};

/// How two sets differ of which neither lies properly within the other: not at all, or by points of
/// their own, of which these are the least.
#[derive(Clone, Copy, Debug, PartialEq, Eq)]
pub enum Apart {
    Same,
    Two {
        only_first: Point,
        only_second: Point,
    },
}

/// The least point that some set has and none is the choice at, the first two sets that have it and
/// of which neither lies properly within the other, and how they differ.
#[derive(Clone, Copy, Debug, PartialEq, Eq)]
pub struct Report {
    pub both: Point,
    pub first: usize,
    pub second: usize,
    pub apart: Apart,
}

/// How the two sets differ. One of them has points of its own exactly where the other has.
fn difference(alloc: Global, first: &CubeSet, second: &CubeSet) -> Result<Apart, AllocError>
    requires below { IsProperlyWithin has_set first.now second.now → ⊥ }
    requires above { IsProperlyWithin has_set second.now first.now → ⊥ }
    ensures { IfOk result (DifferAs has_set first.now second.now) }
{
    let in_first = first.least_outside(alloc, second)?;
    let Some(only_first) = in_first else {
        return Ok(Apart::Same);
    };
    let in_second = second.least_outside(alloc, first)?;
    let Some(only_second) = in_second else {
        return Ok(Apart::Same);
    };
    Ok(Apart::Two {
        only_first,
        only_second,
    })
}

/// How the sets at the two indexes differ.
fn apart_at(
    alloc: Global,
    sets: &[CubeSet],
    point: &Point,
    first: usize,
    second: usize,
) -> Result<Apart, AllocError>
    requires { IsPair has_set sets.now point.now first second }
    ensures { IfOk result (λ apart. (a b : CubeSet) → slice_get sets.now first ≡ Some a
        → slice_get sets.now second ≡ Some b → DifferAs has_set a b apart) }
{
    let apart = difference(alloc, &sets[first], &sets[second])?;
    Ok(apart)
}

/// Whether at each point that some of the sets has, one of them is the choice: the one that lies
/// properly within each other that has it. `None` exactly where it is so, else the report on the
/// least point where it isn't. The only error is want of memory.
pub fn first_unsettled(alloc: Global, sets: &[CubeSet]) -> Result<Option<Report>, AllocError>
    ensures { IfOk result (λ told. MatchOption told (IsSettled has_set sets.now)
        (IsReport has_set sets.now)) }
{
    let found = least_unsettled(alloc, sets)?;
    let Some(both) = found else {
        return Ok(None);
    };
    let (first, second) = pair_at(alloc, sets, &both)?;
    let apart = apart_at(alloc, sets, &both, first, second)?;
    Ok(Some(Report {
        both,
        first,
        second,
        apart,
    }))
}
