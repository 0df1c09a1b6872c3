//! The emulator: runs lists of p-code operations over the state of a machine.
#![tactic(auto)]

mod emu;
mod laws;
mod narrow;
mod operands;
mod perform;
mod run;
mod step;
mod temporaries;

pub use emu::{Emu, KeepingEmu, Runner};
pub use laws::texts_fix_runs;
pub use run::{EmuError, JUMP_LIMIT, Left, run_ops, run_ops_in};
pub use temporaries::Temporaries;
