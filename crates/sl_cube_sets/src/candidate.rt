//! What is left of a set in a region of points.

ghost use Rattle.std.specs.Cow.{cow_slice_items};
ghost use Rattle.sl_cube_sets.specs.Unions.{AreInside};

use sl_cube::Cube;
use std::borrow::CowSlice;

/// What is left in a region of points of the set at an index of a table: its cubes, which are lent
/// until some of them are taken away, and a cube that has all their points.
#[derive(Debug, Drop)]
pub struct Candidate<'a> {
    pub set: usize,
    pub hull: Cube,
    pub cubes: CowSlice<'a, Cube>,
    pub ghost in_hull: { AreInside hull (cow_slice_items cubes) },
}

impl<'a> Candidate<'a> {
    ghost use Rattle.std.specs.Prelude.{◌≡◌};
    ghost use Rattle.sl_cube_sets.specs.Left.{cubes_of};

    /// The candidate once more, without a copy of its cubes.
    pub fn lent(&self) -> Candidate<'_>
        ensures set { result.set ≡ self.now.set }
        ensures cubes { cubes_of result ≡ cubes_of self.now }
    {
        Candidate {
            set: self.set,
            hull: self.hull,
            cubes: CowSlice::Borrowed(self.cubes.as_slice()),
        }
    }
}
