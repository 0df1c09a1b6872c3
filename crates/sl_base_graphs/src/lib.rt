//! Graphs given as lists of numbers: which nodes reach themselves, an order in which each node
//! stands behind its successors, so that values can be reckoned level by level, and the nodes by
//! their heights.
#![tactic(auto)]

mod heights;
mod laws;
mod order;
mod search;
mod sorting;

pub use heights::heights_of;
pub use laws::{reaching_is_told, values_meet_equations};
pub use order::{Levels, order_of};
pub use sorting::sorted_by_height;
