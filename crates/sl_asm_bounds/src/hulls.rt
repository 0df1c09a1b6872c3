//! Regions that have what others have.

ghost use Rattle.std.specs.Prelude.{◌≡◌, ◌≤◌, ◌%◌, ◌^◌, ℕ, List, Some, IfOk};
ghost use Rattle.std.specs.Prelude.{length, option_map, slice_get};
ghost use Rattle.sl_asm_fit.specs.Cells.{Fits as FitsCell};
ghost use Rattle.sl_asm_fit.specs.Regions.{IsOf};
ghost use Rattle.sl_asm_fit.specs.declared.Cell.{Cell as CellOf};
ghost use Rattle.sl_asm_fit.specs.Windows.{ReadsIn};
ghost use Rattle.sl_asm_bounds.specs.Bounds.{Fits, IsAsLong, IsInCubes, IsOfSome};

use sl_asm_fit::{Cell, narrowed};
use sl_cube::Cube;
use std::alloc::{AllocError, Global};

/// The cell of the bits on which both agree.
fn hull_of(a: &Cell, b: &Cell) -> Cell
    ensures first { (x : ℕ) → FitsCell a.now x → FitsCell result x }
    ensures second { (x : ℕ) → FitsCell b.now x → FitsCell result x }
{
    let ones = a.value & b.value;
    let zeros = (a.mask ^ a.value) & (b.mask ^ b.value);
    Cell {
        mask: ones | zeros,
        value: ones,
    }
}

/// The cell of the bits on which both regions agree at an index.
fn hull_at(a: &[Cell], b: &[Cell], index: usize) -> Cell
    ensures first { (x : ℕ) (c : CellOf) → slice_get a.now index ≡ Some c → FitsCell c x
        → FitsCell result x }
    ensures second { (x : ℕ) (c : CellOf) → slice_get b.now index ≡ Some c → FitsCell c x
        → FitsCell result x }
{
    match (a.get(index), b.get(index)) {
        (Some(one), Some(other)) => hull_of(one, other),
        _ => Cell { mask: 0, value: 0 },
    }
}

/// A region that has the lists of this length that are in either of two. The only error is want of
/// memory.
pub fn hull(alloc: Global, count: usize, a: &[Cell], b: &[Cell]) -> Result<Vec<Cell>, AllocError>
    ensures first { IfOk result (λ out. (xs : List ℕ) → length xs ≡ count → IsOf a.now xs
        → IsOf out.items xs) }
    ensures second { IfOk result (λ out. (xs : List ℕ) → length xs ≡ count → IsOf b.now xs
        → IsOf out.items xs) }
    ensures long { IfOk result (λ out. length out.items ≡ count) }
{
    let mut out = Vec::new(alloc);
    'cells: for index in 0..count {
        out.push(hull_at(a, b, index))?;
    }
    Ok(out)
}

/// A region that has the lists of this length that are in one of two, where there are any.
fn either(
    alloc: Global,
    count: usize,
    a: Option<Vec<Cell>>,
    b: Option<Vec<Cell>>,
) -> Result<Option<Vec<Cell>>, AllocError>
    ensures first { IfOk result (λ out. (xs : List ℕ) → length xs ≡ count
        → IsOfSome (option_map (λ v. v.items) a) xs
        → IsOfSome (option_map (λ v. v.items) out) xs) }
    ensures second { IfOk result (λ out. (xs : List ℕ) → length xs ≡ count
        → IsOfSome (option_map (λ v. v.items) b) xs
        → IsOfSome (option_map (λ v. v.items) out) xs) }
    ensures long { IfOk result (λ out. IsAsLong count (option_map (λ v. v.items) a)
        → IsAsLong count (option_map (λ v. v.items) b)
        → IsAsLong count (option_map (λ v. v.items) out)) }
{
    match (a, b) {
        (Some(one), Some(other)) => {
            let both = hull(alloc, count, &one, &other)?;
            Ok(Some(both))
        }
        (Some(one), None) => Ok(Some(one)),
        (None, other) => Ok(other),
    }
}

/// The cube without what it says of the context.
fn any_context(cube: &Cube) -> Cube
    ensures bytes { (result.mask ≡ cube.now.mask) × (result.value ≡ cube.now.value) }
    ensures context { result.ctx_mask ≡ 0 }
{
    Cube {
        mask: cube.mask,
        value: cube.value,
        ctx_mask: 0,
        ctx_value: 0,
    }
}

/// A region that has the lists of the given one that are in the cube at the place, from a context that
/// may be known.
fn narrow_one(
    alloc: Global,
    region: &[Cell],
    at: u32,
    context: Option<u64>,
    cube: &Cube,
) -> Result<Option<Vec<Cell>>, AllocError>
    requires place { at ≤ 255 }
    requires long { length region.now ≤ 255 }
    ensures keeps { IfOk result (λ out. (xs : List ℕ) (x : ℕ) → IsOf region.now xs → Fits context x
        → ReadsIn at (x % 2 ^ 64) cube.now xs
        → IsOfSome (option_map (λ v. v.items) out) xs) }
    ensures long { IfOk result (λ out. IsAsLong (length region.now)
        (option_map (λ v. v.items) out)) }
{
    match context {
        Some(known) => {
            let narrow = narrowed(alloc, region, at, known, cube)?;
            Ok(narrow)
        }
        None => {
            let narrow = narrowed(alloc, region, at, 0, &any_context(cube))?;
            Ok(narrow)
        }
    }
}

/// A region that has the lists of the given one which, followed by zeros, are in one of the cubes at
/// the place, from a context that may be known; none only where there is no such list. The only error
/// is want of memory.
pub fn narrow_some(
    alloc: Global,
    region: &[Cell],
    at: u32,
    context: Option<u64>,
    cubes: &[Cube],
) -> Result<Option<Vec<Cell>>, AllocError>
    requires place { at ≤ 255 }
    requires long { length region.now ≤ 255 }
    ensures keeps { IfOk result (λ out. (xs : List ℕ)
        → IsInCubes region.now at context cubes.now xs
        → IsOfSome (option_map (λ v. v.items) out) xs) }
    ensures long { IfOk result (λ out. IsAsLong (length region.now)
        (option_map (λ v. v.items) out)) }
{
    let mut all = None;
    for cube in cubes {
        let one = narrow_one(alloc, region, at, context, cube)?;
        all = either(alloc, region.len(), all, one)?;
    }
    Ok(all)
}
