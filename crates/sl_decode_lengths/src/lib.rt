//! The laws that each instruction of a specification, and of an accepted text, has from 1 to 255
//! bytes.
#![tactic(auto)]

pub mod accepted_laws;
pub mod laws;
