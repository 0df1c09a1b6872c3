//! What the patterns and the actions of constructors come to at their nodes, made once.
#![tactic(auto)]

mod action_steps;
mod early;
mod expressions;
mod late;
mod open_blocks;
mod plans;
mod rows;
mod settled;
mod shared;
mod uses;
mod values;

pub use early::Early;
pub use expressions::{address, compile};
pub use late::{Late, look_up};
pub use plans::{Plan, Slot, make_plan, make_plans};
pub use rows::Steps;
pub use values::{Scope, Value, reckon};
