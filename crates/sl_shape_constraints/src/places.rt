//! Blocks of a field's codes as cubes.

ghost use Rattle.std.specs.Prelude.{◌≡◌, ◌↔◌, ◌+◌, ◌<◌, ◌≤◌, ◌^◌, bit_and, MatchOption};
ghost use Rattle.sl_shape_blocks.specs.Blocks.{InBlock};
ghost use Rattle.sl_cube.specs.Bits.{Agrees};
ghost use Rattle.sl_cube.specs.Points.{IsIn};
ghost use Rattle.sl_cube.specs.declared.Point.{Point};
ghost use Rattle.sl_shape_constraints.specs.FixedBits.{FixesBits};
ghost use Rattle.sl_shape_constraints.specs.Homes.{HasBits, HasCodeIn, place_of};
ghost use Rattle.sl_shape_constraints.specs.Rooms.{room};
ghost use Rattle.sl_shape_constraints.specs.Sets.{IsCubeOf, IsNowhere};

use crate::bits::Bits;
use crate::homes::Home;
use sl_cube::Cube;
use sl_shape_blocks::Block;
use sl_word::Endian;

/// How many bits there are.
fn room(home: Home) -> u32
    requires { room home ≤ 64 }
    ensures { result ≡ room home }
{
    match home {
        Home::Context => 64,
        Home::Token(_, bytes) => 8 * bytes,
    }
}

/// The place of a bit in the point's number that has it.
fn place_of(home: Home, bit: u32) -> u32
    requires few { room home ≤ 64 }
    requires within { bit < room home }
    ensures place { result ≡ place_of home bit }
    ensures in_point { result < 128 }
{
    match home {
        Home::Context => bit,
        Home::Token(Endian::Little, _) => 8 * (15 - bit / 8) + bit % 8,
        Home::Token(Endian::Big, bytes) => 8 * (16 - bytes) + bit,
    }
}

/// The places of `count` bits from `low` on as a mask, and the bits of the value there.
fn fixed_bits(home: Home, low: u32, count: u32, value: u128) -> (u128, u128)
    requires few { room home ≤ 64 }
    requires within { low + count ≤ room home }
    ensures { FixesBits (λ r. place_of home (low + r)) value count result.0 result.1 }
{
    let mut mask = 0;
    let mut fixed = 0;
    'bits: for r in 0..count {
        let bit = 1u128 << place_of(home, low + r);
        mask |= bit;
        if value >> r & 1 == 1 {
            fixed |= bit;
        }
    }
    (mask, fixed)
}

/// The points whose context has the bits.
fn context_cube(mask: u128, value: u128) -> Cube
    requires mask { mask < 2 ^ 64 }
    requires value { value < 2 ^ 64 }
    requires within { bit_and value mask ≡ value }
    ensures { (p : Point) → IsIn p result ↔ Agrees mask value p.context }
{
    Cube {
        mask: 0,
        value: 0,
        ctx_mask: mask as u64,
        ctx_value: value as u64,
    }
}

/// The points whose bytes have the bits.
fn bytes_cube(mask: u128, value: u128) -> Cube
    requires { bit_and value mask ≡ value }
    ensures { (p : Point) → IsIn p result ↔ Agrees mask value p.bytes }
{
    Cube {
        mask,
        value,
        ctx_mask: 0,
        ctx_value: 0,
    }
}

/// The points in which `count` bits from `low` on are those of the value.
fn fixed_cube(home: Home, low: u32, count: u32, value: u128) -> Cube
    requires few { room home ≤ 64 }
    requires within { low + count ≤ room home }
    ensures { IsCubeOf (HasBits home low count value) result }
{
    let (mask, fixed) = fixed_bits(home, low, count, value);
    match home {
        Home::Context => context_cube(mask, fixed),
        Home::Token(_, _) => bytes_cube(mask, fixed),
    }
}

/// The points at which the bits, as a number, are in the block; none where there is no such point.
pub fn block_cube(bits: &Bits, block: Block) -> Option<Cube>
    ensures { MatchOption result (IsNowhere (HasCodeIn bits.now block))
        (IsCubeOf (HasCodeIn bits.now block)) }
{
    let end = (bits.high + 1).min(room(bits.home));
    let from = bits.low.saturating_add(block.size).min(end);
    let count = end - from;
    let index = u128::from(block.index);
    if index >> count != 0 {
        return None;
    }
    Some(fixed_cube(bits.home, from, count, index))
}
