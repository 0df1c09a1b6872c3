//! The trees of a specification and the symbols that spell them.
#![tactic(auto)]

pub mod constructors;
pub mod definitions;
pub mod expressions;
pub mod items;
pub mod laws;
pub mod patterns;
pub mod statements;
pub mod symbols;
