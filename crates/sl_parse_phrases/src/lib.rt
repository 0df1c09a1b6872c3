//! Expressions and bit patterns of a specification, read from its symbols. Each reading function gives what the
//! reader of the definitions gives of the symbols that are left, unless memory fails.
#![tactic(auto)]

pub mod atoms;
pub mod expressions;
pub mod missing;
pub mod operators;
pub mod patterns;
pub mod shapes;
pub mod stop;
pub mod symbols;
