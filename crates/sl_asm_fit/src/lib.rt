//! Lists of bytes of a given length: those whose bytes at a place are in a cube, those that meet
//! demands, and those that pass a test.
#![tactic(auto)]

ghost use Rattle.std.specs.Prelude.{◌≡◌, bit_and};

mod cells;
mod lists;
mod regions;
mod solving;

pub use lists::{Test, passing};
pub use regions::{all_lists, least, narrow_one, narrowed};
pub use solving::{Demand, solve};

/// What is known of a byte: its bits under the mask are those of the value.
#[derive(Clone, Copy, Debug, PartialEq, Eq)]
pub struct Cell {
    pub mask: u8,
    pub value: u8,
    pub ghost within: { bit_and value mask ≡ value },
}
