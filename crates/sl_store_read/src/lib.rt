//! Packed specifications, read: each reading function gives what the reader of the definitions
//! gives of the bytes that are left, unless memory runs out. `Part` has what is in lists; blocks
//! read themselves as deep as they may be.
#![tactic(auto)]

mod actions;
mod constructors;
mod definitions;
mod files;
mod items;
mod parts;
mod statements;

pub use files::file_names;
pub use items::{Placed, all_items};
