//! The entries of given constructors, and the first of a leaf that has a point.

ghost use Rattle.std.specs.Prelude.{◌≡◌, ◌↔◌, ◌+◌, IfOk, IsTrue, find, length};
ghost use Rattle.sl_cube.specs.Points.{IsIn};
ghost use Rattle.sl_choose.specs.Picked.{is_in};
ghost use Rattle.sl_choose.specs.Choosers.{AreEntriesOf, cubes_in, IsFirst};
ghost use Rattle.sl_choose.specs.Added.{AddsAll};

use super::Entry;
use sl_cube::{Cube, Point};
use sl_cube_sets::CubeSet;
use std::alloc::{AllocError, Global};

/// Puts an entry for each of the cubes behind the others.
fn put_all(
    entries: &mut Vec<Entry>,
    ctor: u32,
    set: usize,
    cubes: &[Cube],
) -> Result<(), AllocError>
    ensures { IfOk result (λ done. AddsAll ctor set cubes.now entries.old.items entries.new.items) }
{
    for cube in cubes {
        entries.push(Entry {
            ctor,
            set,
            cube: *cube,
        })?;
    }
    Ok(())
}

/// An entry for each cube of each set.
pub fn entries_of(alloc: Global, ctors: &[u32], sets: &[CubeSet]) -> Result<Vec<Entry>, AllocError>
    requires { length ctors.now ≡ length sets.now }
    ensures given { IfOk result (λ entries. AreEntriesOf ctors.now sets.now entries.items) }
    ensures count { IfOk result (λ entries. length entries.items ≡ cubes_in sets.now) }
{
    let mut entries = Vec::new(alloc);
    for (index, set) in sets.iter().enumerate() {
        put_all(&mut entries, ctors[index], index, &set.cubes)?;
    }
    Ok(entries)
}

/// Whether the cube has the point.
fn has(cube: &Cube, point: &Point) -> bool
    ensures inside { IsTrue result ↔ IsIn point.now cube.now }
    ensures value { result ≡ is_in point.now cube.now }
{
    cube.has(point)
}

/// The first entry of the leaf that has the point.
pub fn first_of(leaf: &[Entry], point: &Point) -> Option<Entry>
    ensures first { IsFirst leaf.now point.now result }
    ensures value { result ≡ find (λ e. is_in point.now e.cube) leaf.now }
{
    for entry in leaf {
        if has(&entry.cube, point) {
            return Some(*entry);
        }
    }
    None
}
