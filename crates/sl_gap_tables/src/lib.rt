//! What tables leave unmatched, and which constructors are chosen at some point.
#![tactic(auto)]

mod chosen;
mod gaps;

pub use chosen::chosen_constructors;
pub use gaps::{cubes_of, table_gaps};
