//! Rules with their numbers: which one is broken first, and steps that end at the first refusal.
#![tactic(auto)]

mod fault;
mod laws;
mod names;

pub use fault::Fault;
pub use laws::{first_broken_is_first, refusal_is_first, steps_go_in_parts};
pub use names::{NameSet, are_distinct, is_among};
