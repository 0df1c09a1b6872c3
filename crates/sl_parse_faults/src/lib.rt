//! Where the fault of symbols stands that spell no specification, as a definition, and the laws that tie it to
//! the reader.
#![tactic(auto)]

pub mod laws;
