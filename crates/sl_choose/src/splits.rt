//! The bit at which entries are split.

ghost use Rattle.std.specs.Prelude.{◌≡◌, ◌+◌, ◌-◌, ◌^◌, ◌<◌, ◌≤◌, ◌↔◌, IsTrue, MatchOption};
ghost use Rattle.std.specs.Prelude.{cond, length};
ghost use Rattle.sl_choose.specs.Shared.{IsShared};
ghost use Rattle.sl_choose.specs.Sides.{has_count, lacks_count, may_have, may_lack};
ghost use Rattle.sl_choose.specs.Splits.{IsSplit, IsUnsplit, IsUnsplitByte, IsUnsplitContext};

use super::Entry;
use super::likely::likely;
use super::shared::{Shared, first_open_byte, first_open_context, has_none, shared_by};
use super::sides::{covers, forced, sets_none};
use sl_cube::{Cube, Point};

/// How many entries a point without some bits, and one with some of them, may be in.
#[derive(Clone, Copy, Debug)]
struct SideLengths {
    low: usize,
    high: usize,
}

/// Whether the cube may have a point with none of the bits.
fn lacks_some(cube: &Cube, bits: &Point) -> bool
    ensures { result ≡ may_lack bits.now cube.now }
{
    sets_none(cube, bits)
}

/// Whether the cube may have a point with some of the bits.
fn has_some(cube: &Cube, bits: &Point) -> bool
    ensures { result ≡ may_have bits.now cube.now }
{
    let none = sets_none(cube, bits);
    let all = covers(cube, bits);
    !(none && all)
}

/// One more, where it counts.
fn counted(count: usize, counts: bool) -> usize
    requires { count < 2 ^ 64 - 1 }
    ensures { result ≡ count + cond counts 1 0 }
{
    if counts { count + 1 } else { count }
}

/// How many entries each side of the bits has.
fn lengths(entries: &[Entry], bits: &Point) -> SideLengths
    ensures low { result.low ≡ lacks_count bits.now entries.now }
    ensures high { result.high ≡ has_count bits.now entries.now }
{
    let mut low = 0;
    let mut high = 0;
    for entry in entries {
        let is_low = lacks_some(&entry.cube, bits);
        let is_high = has_some(&entry.cube, bits);
        low = counted(low, is_low);
        high = counted(high, is_high);
    }
    SideLengths { low, high }
}

/// Whether each side of the bits has fewer entries, and both fit the room.
fn splits(shared: &Shared, entries: &[Entry], room: usize, bits: &Point) -> bool
    requires shared { IsShared entries.now shared.now }
    requires fits { length entries.now ≤ room }
    ensures { IsTrue result ↔ IsSplit entries.now bits.now room }
{
    if has_none(&shared.some, bits) {
        return false;
    }
    if has_none(&shared.clear, bits) {
        return false;
    }
    let sides = lengths(entries, bits);
    let fewer = sides.low.max(sides.high) < entries.len();
    fewer && sides.high <= room - sides.low
}

/// The least bit of the bytes that splits the entries.
fn first_byte(shared: &Shared, entries: &[Entry], room: usize) -> Option<Point>
    requires shared { IsShared entries.now shared.now }
    requires fits { length entries.now ≤ room }
    ensures { MatchOption result (IsUnsplitByte entries.now room 128)
        (λ bits. IsSplit entries.now bits room) }
{
    for place in first_open_byte(shared)..128 {
        let bits = Point {
            bytes: 1 << place,
            context: 0,
        };
        if splits(shared, entries, room, &bits) {
            return Some(bits);
        }
    }
    None
}

/// The least bit of the context that splits the entries.
fn first_context(shared: &Shared, entries: &[Entry], room: usize) -> Option<Point>
    requires shared { IsShared entries.now shared.now }
    requires fits { length entries.now ≤ room }
    ensures { MatchOption result (IsUnsplitContext entries.now room 64)
        (λ bits. IsSplit entries.now bits room) }
{
    for place in first_open_context(shared)..64 {
        let bits = Point {
            bytes: 0,
            context: 1 << place,
        };
        if splits(shared, entries, room, &bits) {
            return Some(bits);
        }
    }
    None
}

/// A bit that splits the entries: the best by the counts of all bits at once, if that one does. Else
/// each is tried, which shows that none does, once for each leaf.
fn wished(shared: &Shared, entries: &[Entry], room: usize) -> Option<Point>
    requires shared { IsShared entries.now shared.now }
    requires fits { length entries.now ≤ room }
    ensures { MatchOption result (IsUnsplit entries.now room) (λ bits. IsSplit entries.now bits room) }
{
    let best = likely(shared, entries, room);
    if splits(shared, entries, room, &best) {
        return Some(best);
    }
    let byte = first_byte(shared, entries, room);
    let Some(bits) = byte else {
        return first_context(shared, entries, room);
    };
    Some(bits)
}

/// The bit to split at: one that all cubes fix and in which two differ, else the one that splits
/// best. `None` where no bit gives each side fewer entries and both sides fit the room.
pub fn chosen(entries: &[Entry], room: usize) -> Option<Point>
    requires { length entries.now ≤ room }
    ensures { MatchOption result (IsUnsplit entries.now room) (λ bits. IsSplit entries.now bits room) }
{
    let shared = shared_by(entries);
    let first = forced(&shared, entries);
    let Some(bits) = first else {
        return wished(&shared, entries, room);
    };
    Some(bits)
}
