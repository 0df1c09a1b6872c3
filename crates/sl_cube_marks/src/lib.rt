//! Which sets of a settled table are the choice at some point.
#![tactic(auto)]

mod best;
mod marks;
mod narrowing;

pub use marks::chosen_sets;
