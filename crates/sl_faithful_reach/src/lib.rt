//! The laws that the bytes of an instruction, and some behind it, decide its decode and what its
//! tree stands for.
#![tactic(auto)]

pub mod decode_laws;
pub mod instruction_laws;
