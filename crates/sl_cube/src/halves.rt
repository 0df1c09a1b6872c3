//! The halves of a cube at a bit.

ghost use Rattle.std.specs.Prelude.{MatchOption};
ghost use Rattle.sl_cube.specs.Search.{Lacks, Has, IsNoBit, IsHighest, LeavesOpen, IsPart, IsSplit, IsSingle};

use super::{Cube, Point, masks};

/// The halves of the cube at the highest bit that it leaves open, where it leaves one.
pub fn split(cube: &Cube) -> Option<(Cube, Cube)>
    ensures { MatchOption result (IsSingle cube.now) (λ halves. IsSplit cube.now halves.0 halves.1) }
{
    let open = Point {
        bytes: !cube.mask,
        context: !cube.ctx_mask,
    };
    let bit = highest(&open)?;
    Some(parts(cube, &bit))
}

/// The points of the cube that lack the bits, and those that have them.
pub fn parts(cube: &Cube, bits: &Point) -> (Cube, Cube)
    requires { LeavesOpen cube.now bits.now }
    ensures low { IsPart cube.now bits.now (Lacks bits.now) result.0 }
    ensures high { IsPart cube.now bits.now (Has bits.now) result.1 }
{
    let clear = Cube {
        mask: bits.bytes,
        value: 0,
        ctx_mask: bits.context,
        ctx_value: 0,
    };
    let set = Cube {
        mask: bits.bytes,
        value: bits.bytes,
        ctx_mask: bits.context,
        ctx_value: bits.context,
    };
    (cube.joined(&clear), cube.joined(&set))
}

/// The highest of the bits, where there is one.
pub fn highest(bits: &Point) -> Option<Point>
    ensures { MatchOption result (IsNoBit bits.now) (IsHighest bits.now) }
{
    if bits.bytes != 0 {
        return Some(Point {
            bytes: masks::top_bit(bits.bytes),
            context: 0,
        });
    }
    if bits.context != 0 {
        return Some(Point {
            bytes: 0,
            context: masks::top_bit(bits.context.into()) as u64,
        });
    }
    None
}
