//! The weight of constructors, and rule 38's limit on it.
#![tactic(auto)]

mod macros;
mod sizes;
mod statements;
mod weights;

pub use weights::first_heavy;
