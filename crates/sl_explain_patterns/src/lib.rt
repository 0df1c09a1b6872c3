//! The part of a pattern that has its fault, as far as the tokens of a text tell: a value that its
//! field never has, and fields of two tokens that are joined by `&`.
#![tactic(auto)]

mod findings;
mod laws;
mod words;

pub use findings::{Culprit, Finding, find_joined, find_never};
pub use laws::parts_are_lines;
pub use words::{push_advice, push_fault};
