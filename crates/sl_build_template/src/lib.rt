//! Templates of sections: their operations, made once, with operands, locals and the places of
//! labels left open.
#![tactic(auto)]

mod form;
mod known;
mod piece;
mod puts;
mod sizes;
mod slot;
mod statements;
mod steps;
mod symbols;
mod terms;
mod varnodes;

pub use form::Form;
pub use piece::{Insert, NewBits, Part, Piece, Tail};
pub use sizes::{of_address, sized};
pub use slot::{Given, Slot, Whole, slot_size};
pub use steps::template;
pub use varnodes::{above, all_but, amount, constant, cut, in_space};
