//! The context at each address, by the commits of `globalset`.
#![tactic(auto)]

mod bits;
mod commits;
pub mod laws;
mod map;
mod runs;
mod several;
mod tree;

pub use commits::Commit;
pub use map::ContextMap;
