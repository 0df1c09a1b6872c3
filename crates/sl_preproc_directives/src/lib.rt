//! The lines of a specification's text, and what stands on them: directives with their conditions, and names to replace.
#![tactic(auto)]

mod bytes;
mod condition;
pub mod definitions;
pub mod directive;
pub mod fault;
mod lines;
pub mod page;
pub mod parts;
mod replace;
pub mod replacer;
mod replacing;
mod wholes;

pub use lines::first_line;
