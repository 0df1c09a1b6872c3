//! The operators of constraints and of disassembly actions, on 64-bit two's complement.
#![tactic(auto)]

mod operators;

pub use operators::{literal, prefix_value, value_of};
