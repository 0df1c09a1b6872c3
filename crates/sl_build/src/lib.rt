//! From a decoded instruction to its list of operations.
#![tactic(auto)]

mod built;
mod exports;
mod fields;
mod filling;
mod numbers;
mod references;
mod sections;
mod slots;
mod templates;
mod trees;
mod unimplemented;
mod work;

pub use built::{Built, Decoded};
pub use sections::Sections;
