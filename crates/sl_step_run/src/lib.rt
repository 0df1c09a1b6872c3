//! Runs the instructions of an image, and tells what they did to the machine.
#![tactic(auto)]

pub mod counted_laws;
mod execution;
mod fault;
pub mod laws;
mod lines;
mod opening;
mod running;

pub use execution::{Execution, execute};
pub use fault::RunFault;
pub use lines::held;
pub use running::{Ran, run_image};
pub use sl_step::{EmuFault, Machine};
