//! The operations of sections and instructions as a definition, and the law that they do what is
//! meant.
#![tactic(auto)]

pub mod laws;
