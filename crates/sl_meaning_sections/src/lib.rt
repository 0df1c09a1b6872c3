//! What sections and instructions mean, without p-code, as a definition, and its laws.
#![tactic(auto)]

pub mod laws;
