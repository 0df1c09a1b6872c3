//! What a union of cubes leaves of another, as cubes.

ghost use Rattle.std.specs.Prelude.{◌≡◌, ◌↔◌, IsTrue, IfOk};
ghost use Rattle.sl_cube.specs.Points.{IsIn};
ghost use Rattle.sl_asm_region.specs.Left.{IsLeft, IsClear, IsGrown, Adds, IsWithinSome, IsNear};

use sl_cube::{Cube, Point, is_covered, is_in_some, meeting, split};
use std::alloc::{AllocError, Global};

/// Whether one of the cubes contains the region.
fn is_in_one(region: &Cube, cubes: &[Cube]) -> bool
    ensures { IsTrue result → IsWithinSome cubes.now region.now }
{
    for cube in cubes {
        if cube.contains(region) {
            return true;
        }
    }
    false
}

/// Whether all points of the cube are left.
fn is_clear(alloc: Global, cubes: &[Cube], others: &[Cube], cube: &Cube) -> Result<bool, AllocError>
    ensures { IfOk result (λ answer. IsTrue answer → IsClear cubes.now others.now cube.now) }
{
    let near = meeting(alloc, cube, others)?;
    if !near.is_empty() {
        return Ok(false);
    }
    let covered = is_covered(alloc, cube, cubes)?;
    Ok(covered)
}

/// The cube without these of its fixed bits.
fn without(cube: &Cube, bits: &Point) -> Cube
    ensures { (p : Point) → IsIn p cube.now → IsIn p result }
{
    let mask = !bits.bytes & cube.mask;
    let ctx_mask = !bits.context & cube.ctx_mask;
    Cube {
        mask,
        value: cube.value & mask,
        ctx_mask,
        ctx_value: cube.ctx_value & ctx_mask,
    }
}

/// The cube without the bits, if all its points are then left.
fn freed(
    alloc: Global,
    cubes: &[Cube],
    others: &[Cube],
    cube: &Cube,
    bits: &Point,
) -> Result<Cube, AllocError>
    ensures { IfOk result (IsGrown cubes.now others.now cube.now) }
{
    let wider = without(cube, bits);
    let clear = is_clear(alloc, cubes, others, &wider)?;
    if clear {
        return Ok(wider);
    }
    Ok(*cube)
}

/// A cube around the region, as large as it grows bit by bit.
fn grown(alloc: Global, cubes: &[Cube], others: &[Cube], region: &Cube) -> Result<Cube, AllocError>
    ensures { IfOk result (IsGrown cubes.now others.now region.now) }
{
    let mut big = *region;
    for place in 0..64u32 {
        let bits = Point {
            bytes: 0,
            context: 1 << place,
        };
        big = freed(alloc, cubes, others, &big, &bits)?;
    }
    for place in 0..128u32 {
        let bits = Point {
            bytes: 1 << place,
            context: 0,
        };
        big = freed(alloc, cubes, others, &big, &bits)?;
    }
    Ok(big)
}

/// Adds the points of a clear region, and those round it.
fn add_clear(
    alloc: Global,
    cubes: &[Cube],
    others: &[Cube],
    region: &Cube,
    out: &mut Vec<Cube>,
) -> Result<(), AllocError>
    requires { IsClear cubes.now others.now region.now }
    ensures { IfOk result (λ done. Adds cubes.now others.now region.now out.old.items out.new.items) }
{
    let big = grown(alloc, cubes, others, region)?;
    out.push(big)?;
    Ok(())
}

/// Adds the points of the region that are left. Within the region `near` has the points that the
/// others have.
fn add_rest(
    alloc: Global,
    cubes: &[Cube],
    others: &[Cube],
    region: &Cube,
    near: &[Cube],
    out: &mut Vec<Cube>,
) -> Result<(), AllocError>
    requires { IsNear cubes.now others.now region.now near.now }
    ensures { IfOk result (λ done. Adds cubes.now others.now region.now out.old.items out.new.items) }
{
    if is_in_one(region, out) || is_in_one(region, near) {
        return Ok(());
    }
    let kept = meeting(alloc, region, near)?;
    if kept.is_empty() {
        add_clear(alloc, cubes, others, region, out)?;
        return Ok(());
    }
    let Some((low, high)) = split(region) else {
        if is_in_some(&region.least(), &kept) {
            return Ok(());
        }
        add_clear(alloc, cubes, others, region, out)?;
        return Ok(());
    };
    add_rest(alloc, cubes, others, &low, &kept, out)?;
    add_rest(alloc, cubes, others, &high, &kept, out)?;
    Ok(())
}

/// Cubes whose union is exactly the points that are in some of the cubes and in none of the others.
/// The only error is want of memory.
pub fn left_of(alloc: Global, cubes: &[Cube], others: &[Cube]) -> Result<Vec<Cube>, AllocError>
    ensures { IfOk result (λ out. IsLeft cubes.now others.now out.items) }
{
    let mut out = Vec::new(alloc);
    for cube in cubes {
        add_rest(alloc, cubes, others, cube, others, &mut out)?;
    }
    Ok(out)
}
