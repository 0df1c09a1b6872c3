//! Definitions and attached lists: rules 1 to 15, and what each item adds to the tables.
#![tactic(auto)]

mod attached;
mod attributes;
mod context;
mod items;
mod known;
mod members;
mod tokens;

pub use attached::attach;
pub use context::define_context;
pub use items::{define, set_alignment, set_endian};
pub use known::{Known, begin, is_endian, opening};
pub use tokens::define_token;
