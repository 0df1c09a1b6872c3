//! Laws: the lists of operations of instructions are well formed, and short.
#![tactic(auto)]

pub mod laws;
