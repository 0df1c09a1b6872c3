//! The sets of all constructors and the hulls of all tables, or the first constructor with a fault.
#![tactic(auto)]

mod below;
mod constructor;
mod errors;
mod extent;
mod extents;
mod faults;
mod joining;
mod leaves;
mod lengths;
mod order;
mod shaping;
mod stop;
mod tables;

pub use errors::ShapeError;
pub use shaping::{Shapes, shape};
