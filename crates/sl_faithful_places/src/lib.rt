//! What the definitions of a specification stand for, and the laws that what an accepted text
//! defines lies where it can, and that a space is default.
#![tactic(auto)]

pub mod laws;
