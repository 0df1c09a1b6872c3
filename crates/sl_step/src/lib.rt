//! One step of a machine: the next instruction is decoded from its memory, and its list is run.
#![tactic(auto)]

mod buffers;
mod error;
mod instruction;
mod machine;
mod run;
mod sight;
mod spaces;
mod step;
mod stepper;
mod window;

pub use buffers::StepBuffers;
pub use error::{EmuFault, StepError};
pub use instruction::Instruction;
pub use machine::Machine;
pub use spaces::default_space;
pub use step::Trace;
pub use stepper::Stepper;
