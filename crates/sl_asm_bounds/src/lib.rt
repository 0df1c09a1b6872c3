//! What is known of a node without its bytes: a region that has them, bounds of its length, and the
//! context that it leaves.
#![tactic(auto)]

mod bounds;
mod contexts;
mod hulls;
mod operands;

pub use bounds::{Bounds, UNBOUNDED, copied, either, unknown};
pub use contexts::after_steps;
pub use hulls::{hull, narrow_some};
pub use operands::{Lengths, text_of};
