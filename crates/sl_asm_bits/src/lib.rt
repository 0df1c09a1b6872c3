//! What is known of numbers of 64 bits, and what follows for the values of operators.
#![tactic(auto)]

ghost use Rattle.std.specs.Prelude.{◌≡◌, bit_and};

mod bitwise;
mod numbers;
mod operators;
mod shifts;
mod sums;
#[cfg(test)]
mod tests;

pub use numbers::{
    are_apart, exact, exact_bits, implies, joint, low_bits, nothing, ones, under, whole,
};
pub use operators::{operated, prefixed};
pub use shifts::{lowered, raised};

/// What is known of a number of 64 bits: its bits under the mask are those of the value.
#[derive(Clone, Copy, Debug, PartialEq, Eq)]
pub struct Known {
    pub mask: u64,
    pub value: u64,
    pub ghost within: { bit_and value mask ≡ value },
}
