//! Entries at the two sides of bits.

ghost use Rattle.std.specs.Prelude.{◌≡◌, ◌↔◌, IsTrue, IfOk, MatchOption};
ghost use Rattle.sl_cube.specs.Points.{InRange};
ghost use Rattle.sl_cube.specs.Search.{Lacks};
ghost use Rattle.sl_choose.specs.Picked.{lacks};
ghost use Rattle.sl_choose.specs.Shared.{IsShared};
ghost use Rattle.sl_choose.specs.Sides.{SetsNone, Covers, AllCover, SomeClear, SomeSet};
ghost use Rattle.sl_choose.specs.Sides.{IsPut, IsSides};
ghost use Rattle.sl_choose.specs.Sides.{IsForced, HasNoForced, HasNoForcedByte, HasNoForcedContext};

use super::shared::{Shared, first_byte_bit, first_context_bit, may_differ};
use super::{Entry, Halves};
use sl_cube::{Cube, Point};
use std::alloc::{AllocError, Global};

/// Whether the cube fixes none of the bits to 1.
pub fn sets_none(cube: &Cube, bits: &Point) -> bool
    ensures { IsTrue result ↔ SetsNone cube.now bits.now }
{
    cube.value & bits.bytes == 0 && cube.ctx_value & bits.context == 0
}

/// Whether the cube fixes all of the bits.
pub fn covers(cube: &Cube, bits: &Point) -> bool
    ensures { IsTrue result ↔ Covers cube.now bits.now }
{
    cube.mask & bits.bytes == bits.bytes && cube.ctx_mask & bits.context == bits.context
}

/// Whether the point has none of the bits.
pub fn lacks(bits: &Point, point: &Point) -> bool
    ensures lacks { IsTrue result ↔ Lacks bits.now point.now }
    ensures value { result ≡ lacks bits.now point.now }
{
    let bytes = point.bytes & bits.bytes == 0;
    let context = point.context & bits.context == 0;
    bytes && context
}

/// Puts the entry on the sides where its cube has points.
fn put(
    entry: &Entry,
    bits: &Point,
    low: &mut Vec<Entry>,
    high: &mut Vec<Entry>,
) -> Result<(), AllocError>
    ensures { IfOk result (λ done. IsPut entry.now bits.now
        low.old.items high.old.items low.new.items high.new.items) }
{
    if !sets_none(&entry.cube, bits) {
        high.push(*entry)?;
        return Ok(());
    }
    low.push(*entry)?;
    if covers(&entry.cube, bits) {
        return Ok(());
    }
    high.push(*entry)?;
    Ok(())
}

/// The entries that a point without the bits, and one with some of them, may be in.
pub fn sides(alloc: Global, entries: &[Entry], bits: &Point) -> Result<Halves, AllocError>
    ensures { IfOk result (λ sides. IsSides entries.now bits.now sides.low.items sides.high.items) }
{
    let mut low = Vec::new(alloc);
    let mut high = Vec::new(alloc);
    for entry in entries {
        put(entry, bits, &mut low, &mut high)?;
    }
    Ok(Halves { low, high })
}

/// Whether each cube fixes all of the bits.
fn all_cover(entries: &[Entry], bits: &Point) -> bool
    ensures { IsTrue result ↔ AllCover entries.now bits.now }
{
    for entry in entries {
        if !covers(&entry.cube, bits) {
            return false;
        }
    }
    true
}

/// Whether some cube fixes none of the bits to 1.
fn some_clear(entries: &[Entry], bits: &Point) -> bool
    ensures { IsTrue result ↔ SomeClear entries.now bits.now }
{
    for entry in entries {
        if sets_none(&entry.cube, bits) {
            return true;
        }
    }
    false
}

/// Whether some cube fixes one of the bits to 1.
fn some_set(entries: &[Entry], bits: &Point) -> bool
    ensures { IsTrue result ↔ SomeSet entries.now bits.now }
{
    for entry in entries {
        if !sets_none(&entry.cube, bits) {
            return true;
        }
    }
    false
}

/// Whether all cubes fix the bits, and two of them differ in them.
fn differ(entries: &[Entry], bits: &Point) -> bool
    ensures { IsTrue result ↔ IsForced entries.now bits.now }
{
    let cover = all_cover(entries, bits);
    let clear = some_clear(entries, bits);
    let set = some_set(entries, bits);
    cover && clear && set
}

/// The same, looked at only where it may be by what the cubes have in common.
fn is_forced(shared: &Shared, entries: &[Entry], bits: &Point) -> bool
    requires shared { IsShared entries.now shared.now }
    requires range { InRange bits.now }
    ensures { IsTrue result ↔ IsForced entries.now bits.now }
{
    may_differ(shared, bits) && differ(entries, bits)
}

/// The least bit of the bytes that all cubes fix and in which two differ.
fn forced_byte(shared: &Shared, entries: &[Entry]) -> Option<Point>
    requires { IsShared entries.now shared.now }
    ensures { MatchOption result (HasNoForcedByte entries.now 128) (IsForced entries.now) }
{
    for place in first_byte_bit(shared)..128 {
        let bits = Point {
            bytes: 1 << place,
            context: 0,
        };
        if is_forced(shared, entries, &bits) {
            return Some(bits);
        }
    }
    None
}

/// The least bit of the context that all cubes fix and in which two differ.
fn forced_context(shared: &Shared, entries: &[Entry]) -> Option<Point>
    requires { IsShared entries.now shared.now }
    ensures { MatchOption result (HasNoForcedContext entries.now 64) (IsForced entries.now) }
{
    for place in first_context_bit(shared)..64 {
        let bits = Point {
            bytes: 0,
            context: 1 << place,
        };
        if is_forced(shared, entries, &bits) {
            return Some(bits);
        }
    }
    None
}

/// A bit that all cubes fix and in which two differ, where there is one.
pub fn forced(shared: &Shared, entries: &[Entry]) -> Option<Point>
    requires { IsShared entries.now shared.now }
    ensures { MatchOption result (HasNoForced entries.now) (IsForced entries.now) }
{
    let byte = forced_byte(shared, entries);
    let Some(bits) = byte else {
        return forced_context(shared, entries);
    };
    Some(bits)
}
