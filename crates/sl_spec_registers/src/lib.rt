//! Spaces, registers, bit ranges and user operations, and that names are new: rules 3 to 8, and what
//! each of these definitions adds to the tables.
#![tactic(auto)]

mod bit_ranges;
mod names;
mod registers;
mod spaces;
mod userops;

pub use bit_ranges::define_bit_ranges;
pub use names::{are_new, is_new};
pub use registers::{define_registers, is_skipped, register_number};
pub use spaces::define_space;
pub use userops::define_userops;
