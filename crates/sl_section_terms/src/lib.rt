//! What the names of a section stand for, and its expressions with their names taken out, each with
//! its size variable.
#![tactic(auto)]

mod expressions;
mod names;
mod operands;
mod operators;
mod reach;

pub use expressions::{is_dropped, size_if_written, take, term, terms};
pub use names::{NamedSymbol, Names, add_symbol, small, space_named, userop_named};
pub use operands::named_operands;
pub use reach::{Reach, if_below, reach_of};
