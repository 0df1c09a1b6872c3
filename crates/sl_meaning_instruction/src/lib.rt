//! The instruction that a decoded tree stands for, as a definition, and its laws.
#![tactic(auto)]

pub mod laws;
