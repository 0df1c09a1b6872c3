//! Sets of points as unions of cubes: how they lie to one another, their hull, and whether at each
//! point that some of them has, one of them is the most specific.
#![tactic(auto)]

mod answers;
mod candidate;
mod hull;
mod least;
mod pair;
mod points;
mod report;
mod search;
mod within;

pub use hull::hull_of;
pub use report::{Apart, Report, first_unsettled};
use sl_cube::Cube;
pub use within::{is_below, is_within};

/// A set of points: all those of its cubes. A set without cubes has no point.
#[derive(Debug, Drop)]
pub struct CubeSet {
    pub cubes: Vec<Cube>,
}
