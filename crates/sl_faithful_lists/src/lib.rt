//! Lists of operations that are faithful to decoded instructions.
#![tactic(auto)]

pub mod laws;
