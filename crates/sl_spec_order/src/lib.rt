//! The order in which tables are shaped: by their heights, and those of one height by their first
//! constructors.
#![tactic(auto)]

mod appearing;
mod graph;
mod order;

pub use order::shaping_order;
