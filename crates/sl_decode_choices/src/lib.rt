//! The choice of the most specific constructor of each table, by a chooser for each.
#![tactic(auto)]

mod choosers;
pub mod laws;

pub use choosers::Choosers;
