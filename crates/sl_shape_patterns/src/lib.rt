//! Bit patterns as unions of cubes, how many cubes they may need, which bytes they look at, and the
//! hulls of tables.
#![tactic(auto)]

mod constraints;
mod constructors;
mod counts;
mod hulls;
mod laws;
mod names;
mod reader;
mod sets;
mod windows;

pub use counts::{constructor_count, pattern_count};
pub use hulls::table_hull;
pub use laws::each_asks_its_own;
pub use reader::{Lengths, Reader};
