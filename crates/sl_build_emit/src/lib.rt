//! The operations of templates at a node.
#![tactic(auto)]

mod bits;
mod extract;
mod given;
mod insert;
mod masks;
mod operations;
mod parts;
mod pieces;
mod reading;
mod reference;
mod sections;
mod site;
mod slots;
mod targets;
mod varnodes;

pub use reference::{Number, Reference};
pub use sections::place;
pub use site::Site;
