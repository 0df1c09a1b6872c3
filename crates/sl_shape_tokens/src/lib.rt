//! The shapes of patterns: how many bytes they have, by their tokens.
#![tactic(auto)]

mod bytes;
mod lists;
mod nodes;
mod shapes;
mod shaping;
mod walking;

pub use bytes::ListBytes;
pub use lists::Lists;
pub use nodes::TokenList;
pub use shapes::{Kind, Shape};
pub use shaping::{extended, of_nothing};
