//! The reader of a specification's symbols, as a definition, and the laws that tie it to the spelling of trees.
#![tactic(auto)]

pub mod laws;
