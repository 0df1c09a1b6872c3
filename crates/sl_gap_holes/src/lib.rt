//! Points at which a set is the choice of its table and behind which another table has none.
#![tactic(auto)]

mod covers;
mod holes;
mod windows;

pub use holes::{HolePoints, least_hole};
