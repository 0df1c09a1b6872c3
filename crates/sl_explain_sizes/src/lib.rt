//! The part of a section whose sizes are at fault, as far as the tokens of a text tell: two that
//! differ where they are asked to be equal, or a value of which nothing says the size.
//!
//! An expression is read from the operator that is applied last (`specs/Operators.antt`), and its
//! size from its parts (`specs/Values.antt`); macros are taken out call by call
//! (`specs/Sections.antt`). A local has a size of which nothing says anything where two that nothing
//! else has do.
#![tactic(auto)]

mod faults;
mod laws;
mod operators;
mod sections;
mod slices;
mod values;
mod widths;
mod words;

pub use faults::{Culprit, Finding, Inside, Why};
pub use laws::sizes_are_lines;
pub use sections::{find_clash, find_unfixed};
pub use slices::Extent;
pub use words::{push_advice, push_fault};
