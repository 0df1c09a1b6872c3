//! What instructions do to a machine, one after another.
#![tactic(auto)]

pub mod laws;
