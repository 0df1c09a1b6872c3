//! Regions narrowed to the lists that give expressions of actions wanted values.
#![tactic(auto)]

mod names;
mod narrowing;
mod sides;

pub use names::narrowed_by_names;
pub use narrowing::narrowed_by;
