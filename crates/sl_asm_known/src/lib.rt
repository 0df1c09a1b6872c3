//! What is known of the value of an expression of an action for all lists of a region, and in which
//! order the bits on which it hangs are tried.
#![tactic(auto)]

mod fields;
mod halves;
mod judging;
mod narrowing;
mod order;
mod values;

pub use halves::half;
pub use judging::{Verdict, judge};
pub use narrowing::{narrowed_by_bits, narrowed_by_own};
pub use order::next_bit;
use sl_asm_bits::Known;
pub use values::known;

/// Where an expression of an action is reckoned, but for the bytes.
#[derive(Clone, Copy)]
pub struct Frame<'a> {
    /// The node's place, in bytes from the instruction's start.
    pub at: u32,
    /// The lengths of the node's table operands that are known.
    pub lengths: &'a [u32],
    pub context: u64,
    /// The address of the instruction.
    pub start: u64,
    /// The address after it.
    pub next: u64,
    /// What is known of the values of the node's action names so far.
    pub names: &'a [Known],
}

/// A bit of a list of bytes.
#[derive(Clone, Copy, Debug, PartialEq, Eq)]
pub struct Bit {
    /// The index of its byte.
    pub index: usize,
    /// Its position in the byte, 0 the least significant.
    pub place: u32,
}
