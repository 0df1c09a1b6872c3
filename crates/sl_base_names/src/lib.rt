//! Names with their indices. A search takes a time in the logarithm of how many there are, whatever
//! the names are.
#![tactic(auto)]

mod by_name;
mod names;

pub use names::NameIndex;
