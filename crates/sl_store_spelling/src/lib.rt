//! Laws of how the trees of packed specifications are spelled.
#![tactic(auto)]

pub mod laws;
