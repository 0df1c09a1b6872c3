//! The decode of instructions, over plans of constructors, into buffers that are used again.
#![tactic(auto)]

mod addresses;
mod decode;
mod disassembler;
mod early;
mod finish;
mod grow;
mod late;
mod outcomes;
mod points;
mod walk;

pub use addresses::address_size;
pub use decode::Choose;
pub use disassembler::Disassembler;
pub use outcomes::DecodeError;
pub use walk::{Instruction, Walk};
