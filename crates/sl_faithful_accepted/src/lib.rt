//! The law that lists of operations are faithful to the instructions of an accepted text.
#![tactic(auto)]

pub mod laws;
pub mod operand_laws;
pub mod text_laws;
