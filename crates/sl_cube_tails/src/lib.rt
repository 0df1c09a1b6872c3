//! Points that some tail follows which is not covered.
#![tactic(auto)]

mod covers;
mod least;
mod search;

pub use covers::Cover;
pub use least::least_uncovered;
