//! The hull of a union of cubes.

ghost use Rattle.std.specs.Prelude.{◌≡◌, MatchOption, length};
ghost use Rattle.sl_cube_sets.specs.Unions.{IsHullOf};

use sl_cube::Cube;

/// The least cube that has all points of the cubes, or `None` where there are none.
pub fn hull_of(cubes: &[Cube]) -> Option<Cube>
    ensures { MatchOption result (length cubes.now ≡ 0) (IsHullOf cubes.now) }
{
    if cubes.len() == 0 {
        return None;
    }
    let first = cubes[0];
    let mut hull = first.hull2(&first);
    for cube in cubes {
        hull = hull.hull2(cube);
    }
    Some(hull)
}
