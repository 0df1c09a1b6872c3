//! A region narrowed by what a text says of the bytes: the nodes of the decode are gone over for all
//! lists of the region at once, and of each what is known of it is kept.
#![tactic(auto)]

mod nodes;
mod operands;
mod reader;
mod spots;

pub use reader::{Reader, Setting};
