//! The format of packed specifications, as definitions in `specs/`, and its laws.
#![tactic(auto)]

pub mod forms;
pub mod laws;
