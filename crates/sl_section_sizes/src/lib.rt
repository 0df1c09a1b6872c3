//! The sizes of all sections of a text, constructors taken in the order in which they are shaped.
#![tactic(auto)]

mod addresses;
mod constructor;
mod exports;
mod faults;
mod laws;
mod operands;
mod order;
mod putting;
mod rows;
mod sizes;
mod sizing;
mod stop;
mod whole_laws;

pub use addresses::address_sizes;
pub use constructor::Constructor;
pub use faults::{SizeFault, SizesError};
pub use laws::outcome_is_one;
pub use sizes::section_sizes;
pub use sizing::{Sizes, all_sizes};
pub use stop::{SizingError, Stop};
pub use whole_laws::sizes_are_of_the_whole;
