//! The decode of an instruction, as a definition, and its laws.
#![tactic(auto)]

mod entries;
mod faults;
mod kinds;
pub mod laws;
mod notes;

pub use entries::Entry;
pub use faults::Fault;
pub use kinds::Kind;
pub use notes::Noted;
