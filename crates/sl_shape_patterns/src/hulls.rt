//! The hulls of tables.

ghost use Rattle.std.specs.Prelude.{◌≡◌, ◌⊎◌};
ghost use Rattle.sl_shape_patterns.specs.Hulls.{IsHullOrNone, TableHas};
ghost use Rattle.sl_shape_patterns.specs.Patterns.{InHull};
ghost use Rattle.sl_cube_sets.specs.Sets.{HasAt};
ghost use Rattle.sl_cube_sets.specs.Unions.{has_set};

use sl_cube::Cube;
use sl_cube_sets::{CubeSet, hull_of};
use sl_spec::CtorId;

/// The hull of the points of both cubes, as far as they are there.
fn joined_hull(first: Option<Cube>, second: Option<Cube>) -> Option<Cube>
    ensures { IsHullOrNone (λ p. InHull first p ⊎ InHull second p) result }
{
    let Some(one) = first else {
        let other = second?;
        return Some(other.hull2(&other));
    };
    let Some(other) = second else {
        return Some(one.hull2(&one));
    };
    Some(one.hull2(&other))
}

/// The hull of the set of a constructor.
fn set_hull(sets: &[CubeSet], number: CtorId) -> Option<Cube>
    ensures { IsHullOrNone (λ p. HasAt has_set sets.now p number) result }
{
    let set = sets.get(number.0 as usize)?;
    hull_of(&set.cubes)
}

/// The hull of a table: the least cube that has all points of the sets of its constructors, and
/// none where they have no point. The sets stand at the constructors' numbers.
pub fn table_hull(sets: &[CubeSet], constructors: &[CtorId]) -> Option<Cube>
    ensures { IsHullOrNone (TableHas sets.now constructors.now) result }
{
    let mut hull = None;
    'each: for index in 0..constructors.len() {
        hull = joined_hull(hull, set_hull(sets, constructors[index]));
    }
    hull
}
