//! The names of a pattern, each with how it stands; and disassembly actions: rules 21 to 25, and
//! the names that they set.
#![tactic(auto)]

mod actions;
mod blocks;
mod levels;
mod names_used;
mod part;
mod pattern_names;
mod pending;
mod rules;
mod set_names;
mod walk;

pub use blocks::{ActionFacts, JudgedBlocks, judge_actions};
pub use part::Part;
pub use rules::is_global;
pub use walk::{is_table, parts_of};
