//! What the cubes of entries have in common.

ghost use Rattle.std.specs.Prelude.{◌≡◌, ◌↔◌, ◌-◌, ◌^◌, ◌≤◌, IsTrue};
ghost use Rattle.sl_choose.specs.Shared.{AreSameBefore, HasAll, HasNone, HasNoneBefore, IsShared, Joins};
ghost use Rattle.sl_choose.specs.Shared.{MayDiffer};
ghost use Rattle.sl_choose.specs.Sides.{byte_bit, context_bit};

use super::Entry;
use sl_cube::{Cube, Point};

/// The bits that all cubes fix, those that some cube fixes to 1, those that some cube fixes to 0, and
/// those that all cubes fix to 1.
#[derive(Clone, Copy, Debug)]
pub struct Shared {
    pub fixed: Point,
    pub some: Point,
    pub clear: Point,
    pub all: Point,
}

/// What no cube has in common with others.
fn shared_by_none() -> Shared
    ensures { result ≡ record {
      fixed = record { bytes = 2 ^ 128 - 1; context = 2 ^ 64 - 1 };
      some = record { bytes = 0; context = 0 };
      clear = record { bytes = 0; context = 0 };
      all = record { bytes = 2 ^ 128 - 1; context = 2 ^ 64 - 1 };
    } }
{
    let whole = Point {
        bytes: u128::MAX,
        context: u64::MAX,
    };
    let none = Point {
        bytes: 0,
        context: 0,
    };
    Shared {
        fixed: whole,
        some: none,
        clear: none,
        all: whole,
    }
}

/// What one more cube has in common with others.
fn joined(shared: &Shared, cube: &Cube) -> Shared
    ensures { Joins shared.now cube.now result }
{
    Shared {
        fixed: Point {
            bytes: shared.fixed.bytes & cube.mask,
            context: shared.fixed.context & cube.ctx_mask,
        },
        some: Point {
            bytes: shared.some.bytes | cube.value,
            context: shared.some.context | cube.ctx_value,
        },
        clear: Point {
            bytes: shared.clear.bytes | (cube.mask ^ cube.value),
            context: shared.clear.context | (cube.ctx_mask ^ cube.ctx_value),
        },
        all: Point {
            bytes: shared.all.bytes & cube.value,
            context: shared.all.context & cube.ctx_value,
        },
    }
}

/// What the cubes of the entries have in common.
pub fn shared_by(entries: &[Entry]) -> Shared
    ensures { IsShared entries.now result }
{
    let mut shared = shared_by_none();
    for entry in entries {
        shared = joined(&shared, &entry.cube);
    }
    shared
}

/// Whether the point has all of the bits.
fn has_all(point: &Point, bits: &Point) -> bool
    ensures { IsTrue result ↔ HasAll point.now bits.now }
{
    point.bytes & bits.bytes == bits.bytes && point.context & bits.context == bits.context
}

/// Whether the point has none of the bits.
pub fn has_none(point: &Point, bits: &Point) -> bool
    ensures { IsTrue result ↔ HasNone point.now bits.now }
{
    point.bytes & bits.bytes == 0 && point.context & bits.context == 0
}

/// Whether, by what they have in common, all cubes may fix the bits, and two of them differ in them.
pub fn may_differ(shared: &Shared, bits: &Point) -> bool
    ensures { IsTrue result ↔ MayDiffer shared.now bits.now }
{
    let fixed = has_all(&shared.fixed, bits);
    let none = has_none(&shared.some, bits);
    let all = has_none(&shared.all, bits);
    fixed && !none && all
}

/// A place before which no bit of the bytes may be one that all cubes fix and in which two differ.
pub fn first_byte_bit(shared: &Shared) -> u32
    ensures none { HasNoneBefore byte_bit shared.now result }
    ensures most { result ≤ 128 }
{
    (shared.fixed.bytes & shared.some.bytes & !shared.all.bytes).trailing_zeros()
}

/// The same of the bits of the context.
pub fn first_context_bit(shared: &Shared) -> u32
    ensures none { HasNoneBefore context_bit shared.now result }
    ensures most { result ≤ 64 }
{
    (shared.fixed.context & shared.some.context & !shared.all.context).trailing_zeros()
}

/// The bits that some cube fixes to 0 and some cube fixes to 1.
pub fn open_bits(shared: &Shared) -> Point {
    Point {
        bytes: shared.some.bytes & shared.clear.bytes,
        context: shared.some.context & shared.clear.context,
    }
}

/// The least place of a bit of the bytes that some cube fixes to 0 and some cube fixes to 1; 128
/// where there is none.
pub fn first_open_byte(shared: &Shared) -> u32
    ensures { AreSameBefore byte_bit shared.now result }
{
    (shared.some.bytes & shared.clear.bytes).trailing_zeros()
}

/// The same of the bits of the context; 64 where there is none.
pub fn first_open_context(shared: &Shared) -> u32
    ensures { AreSameBefore context_bit shared.now result }
{
    (shared.some.context & shared.clear.context).trailing_zeros()
}
