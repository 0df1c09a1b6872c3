//! Points that lie some bytes behind others.

ghost use Rattle.std.specs.Prelude.{◌≡◌, ◌≤◌, ◌+◌, ◌-◌, ◌*◌, ◌^◌};
ghost use Rattle.sl_gap_holes.specs.Covered.{AreFollowers, AreTails, IsMoved};

use sl_cube::{Cube, Point};
use sl_cube_tails::Cover;

/// The bits of the last bytes.
fn low_bits(place: u32) -> u128
    requires { place ≤ 15 }
    ensures { result + 1 ≡ 2 ^ (8 * place) }
{
    (1u128 << (8 * place)) - 1
}

/// The bits of the first bytes.
fn high_bits(place: u32) -> u128
    requires { place ≤ 15 }
    ensures { result ≡ 2 ^ 128 - 2 ^ (8 * place) }
{
    u128::MAX - low_bits(place)
}

/// All tails of so many bytes.
pub fn tails_of(place: u32) -> Cube
    requires { place ≤ 15 }
    ensures { AreTails place result }
{
    Cube {
        mask: high_bits(place),
        value: 0,
        ctx_mask: u64::MAX,
        ctx_value: 0,
    }
}

/// The points whose first bytes are the last ones of the point, from the place on, and that have its
/// context.
pub fn followers(place: u32, point: &Point) -> Cube
    requires { place ≤ 15 }
    ensures { AreFollowers place point.now result }
{
    Cube {
        mask: high_bits(place),
        value: point.bytes << (8 * place),
        ctx_mask: u64::MAX,
        ctx_value: point.context,
    }
}

/// The points that are followed, from the place on, by those of the cube: which first bytes these
/// have, and which last ones.
pub fn moved(place: u32, cube: &Cube) -> Cover
    requires { place ≤ 15 }
    ensures { IsMoved place cube.now result }
{
    let low = low_bits(place);
    Cover {
        head: Cube {
            mask: cube.mask >> (8 * place),
            value: cube.value >> (8 * place),
            ctx_mask: cube.ctx_mask,
            ctx_value: cube.ctx_value,
        },
        tail: Cube {
            mask: cube.mask & low,
            value: cube.value & low,
            ctx_mask: 0,
            ctx_value: 0,
        },
    }
}
