//! Constraints of patterns, each a field compared with a number, as unions of cubes; cubes at a
//! place of an instruction; how many cubes a constraint needs, and which bytes it looks at.
#![tactic(auto)]

mod bits;
mod codes;
mod constraint;
mod cubes;
mod homes;
mod lists;
mod places;
mod shift;
mod windows;

pub use constraint::Constraint;
pub use lists::{meets_of, put_all};
pub use shift::{moved, put_moved};
