//! Marks for the sets that are the choice at some point.
//!
//! A region of points is split on bits that the sets left there fix, until each of these sets has a
//! mark, or no cube fixes an open bit. Then one of those that are there is the choice, and gets a
//! mark. Where a set fills the region, sets above it that fill it too are taken away.

ghost use Rattle.std.specs.Prelude.{◌≡◌, ℕ, IsTrue, IfOk, Some, length, slice_get, true};
ghost use Rattle.sl_cube.specs.Points.{InRange};
ghost use Rattle.sl_cube.specs.declared.Point.{Point as PointOf};
ghost use Rattle.sl_cube_sets.specs.Sets.{IsSettled, IsChoice};
ghost use Rattle.sl_cube_sets.specs.Unions.{has_set};
ghost use Rattle.sl_cube_marks.specs.Rests.{AreAllOf, HoldsChoices, IsConstant};
ghost use Rattle.sl_cube_marks.specs.Marks.{AreChosen, AreMarked, IsMarked, MarksAll, Keeps};

use crate::best::best_at;
use crate::narrowing::{Rest, filler, halved, kept, put};
use sl_cube::Cube;
use sl_cube_sets::CubeSet;
use std::alloc::{AllocError, Global};

/// Whether the set has a mark.
fn has_mark(marks: &[bool], set: usize) -> bool
    ensures { IsTrue result → slice_get marks.now set ≡ Some true }
{
    match marks.get(set) {
        Some(mark) => *mark,
        None => false,
    }
}

/// Whether each set of which something is left has a mark.
fn are_marked(left: &[Rest], marks: &[bool]) -> bool
    ensures { IsTrue result → AreMarked left.now marks.now }
{
    for rest in left {
        if !has_mark(marks, rest.set) {
            return false;
        }
    }
    true
}

/// Gives the set that was found, if one was, its mark.
fn mark_found(marks: &mut Vec<bool>, found: Option<usize>)
    ensures { IsMarked marks.old.items found marks.new.items }
{
    let Some(set) = found else {
        return;
    };
    if set < marks.len() {
        marks[set] = true;
    }
}

/// Marks the choice in a region in which the same sets are everywhere.
fn mark_best(
    alloc: Global,
    sets: &[CubeSet],
    region: &Cube,
    left: &[Rest],
    marks: &mut Vec<bool>,
) -> Result<(), AllocError>
    requires settled { IsSettled has_set sets.now }
    requires holds { HoldsChoices sets.now region.now left.now }
    requires constant { IsConstant region.now left.now }
    requires chosen { AreChosen sets.now marks.old.items }
    ensures chosen { IfOk result (λ done. AreChosen sets.now marks.new.items) }
    ensures kept { IfOk result (λ done. Keeps marks.old.items marks.new.items) }
    ensures all { IfOk result (λ done. MarksAll sets.now region.now marks.new.items) }
{
    let least = region.least();
    let found = best_at(alloc, sets, &least, left)?;
    mark_found(marks, found);
    Ok(())
}

/// Marks each set that is the choice at some point of the region.
fn mark(
    alloc: Global,
    sets: &[CubeSet],
    region: &Cube,
    left: &[Rest],
    marks: &mut Vec<bool>,
) -> Result<(), AllocError>
    requires settled { IsSettled has_set sets.now }
    requires holds { HoldsChoices sets.now region.now left.now }
    requires chosen { AreChosen sets.now marks.old.items }
    ensures chosen { IfOk result (λ done. AreChosen sets.now marks.new.items) }
    ensures kept { IfOk result (λ done. Keeps marks.old.items marks.new.items) }
    ensures all { IfOk result (λ done. MarksAll sets.now region.now marks.new.items) }
{
    if are_marked(left, marks) {
        return Ok(());
    }
    let Some((low, high)) = halved(region, left) else {
        mark_best(alloc, sets, region, left, marks)?;
        return Ok(());
    };
    let filled = filler(alloc, sets, region, left)?;
    let in_low = kept(alloc, sets, &low, filled, left)?;
    mark(alloc, sets, &low, &in_low, marks)?;
    let in_high = kept(alloc, sets, &high, filled, left)?;
    mark(alloc, sets, &high, &in_high, marks)?;
    Ok(())
}

/// What the region has of all sets.
fn all_of(alloc: Global, sets: &[CubeSet], region: &Cube) -> Result<Vec<Rest>, AllocError>
    ensures { IfOk result (λ left. AreAllOf sets.now region.now left.items) }
{
    let mut left = Vec::new(alloc);
    for (index, set) in sets.iter().enumerate() {
        put(alloc, region, index, &set.cubes, &mut left)?;
    }
    Ok(left)
}

/// For each set of a settled table whether it is the choice at some point. The only error is want of
/// memory.
pub fn chosen_sets(alloc: Global, sets: &[CubeSet]) -> Result<Vec<bool>, AllocError>
    requires { IsSettled has_set sets.now }
    ensures counted { IfOk result (λ marks. length marks.items ≡ length sets.now) }
    ensures chosen { IfOk result (λ marks. (i : ℕ) → slice_get marks.items i ≡ Some true
        → (p : PointOf) × InRange p × IsChoice has_set sets.now p i) }
    ensures all { IfOk result (λ marks. (p : PointOf) → InRange p → (i : ℕ)
        → IsChoice has_set sets.now p i → slice_get marks.items i ≡ Some true) }
{
    let whole = Cube {
        mask: 0,
        value: 0,
        ctx_mask: 0,
        ctx_value: 0,
    };
    let left = all_of(alloc, sets, &whole)?;
    let mut marks = vec![in alloc; false; sets.len()]?;
    mark(alloc, sets, &whole, &left, &mut marks)?;
    Ok(marks)
}
