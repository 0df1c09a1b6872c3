//! Rules over the tables and constructors of a whole text: a default space, constructors of
//! `instruction`, tables that reach themselves, and the lengths and nodes of instructions.
#![tactic(auto)]

mod block_lengths;
mod faults;
mod judge;
mod lengths;
mod quantities;
mod rows;
mod rules;

pub use faults::{LateFault, Place};
pub use judge::judge_tables;
pub use rows::{Row, all_rows, graph, grouped, number};
