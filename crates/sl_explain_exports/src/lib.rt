//! What is wrong with the exports of tables, and with parts of registers, as far as the tokens of a
//! text tell: the constructor that exports nothing, or a constant that is assigned, or another size
//! than the first one.
#![tactic(auto)]

mod constructors;
mod findings;
mod laws;
mod words;

pub use findings::{Culprit, Finding, find_export_culprit};
pub use laws::export_culprits_are_lines;
pub use words::{push_advice, push_fault, sentence_of};
