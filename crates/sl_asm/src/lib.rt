//! The assembler: where a constructor is chosen, and bytes that decode to a text.
#![tactic(auto)]

mod assembling;
mod regions;
mod searching;
mod wanted;

pub use assembling::{assemble, assemble_as_long};
pub use regions::region;
pub use sl_asm_narrow::Reader;
pub use wanted::Wanted;
