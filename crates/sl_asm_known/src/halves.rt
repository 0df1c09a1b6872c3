//! Both halves of a region by a bit.

ghost use Rattle.std.specs.Prelude.{◌≡◌, ◌≤◌, ◌<◌, ◌+◌, ◌*◌, ◌^◌};
ghost use Rattle.std.specs.Prelude.{length, MatchOption, IfOk};
ghost use Rattle.std.specs.Int.{from_bool};
ghost use Rattle.sl_asm_known.specs.OpenBits.{HasNoHalf, IsHalf};

use crate::Bit;
use sl_asm_fit::{Cell, narrowed};
use sl_cube::Cube;
use std::alloc::{AllocError, Global};

/// The cube of the points whose first byte has the bit as given.
fn cube_of(place: u32, is_set: bool) -> Cube
    requires { place < 8 }
    ensures mask { result.mask ≡ 2 ^ (120 + place) }
    ensures value { result.value ≡ from_bool is_set * 2 ^ (120 + place) }
    ensures context { result.ctx_mask ≡ 0 }
{
    let mask = 1u128 << (120 + place);
    Cube {
        mask,
        value: if is_set { mask } else { 0 },
        ctx_mask: 0,
        ctx_value: 0,
    }
}

/// The lists of the region whose bit is as given, or `None` where there are none. The only error is
/// want of memory.
pub fn half(
    alloc: Global,
    region: &[Cell],
    bit: &Bit,
    is_set: bool,
) -> Result<Option<Vec<Cell>>, AllocError>
    requires long { length region.now ≤ 255 }
    requires within { bit.now.index < length region.now }
    requires low { bit.now.place < 8 }
    ensures { IfOk result (λ answer. MatchOption answer
        (HasNoHalf region.now bit.now (from_bool is_set))
        (λ half. IsHalf region.now bit.now (from_bool is_set) half.items)) }
{
    let cube = cube_of(bit.place, is_set);
    let answer = narrowed(alloc, region, bit.index as u32, 0, &cube)?;
    Ok(answer)
}
