//! Sections of constructors, flat: without names, scopes and macros, and with a size variable at
//! each expression.
#![tactic(auto)]

mod section;
mod step;
mod symbol;
mod term;

pub use section::{MOST_VARIABLES, Section};
pub use step::{Direct, Export, Label, Step};
pub use symbol::{Span, Storage, Symbol, written_size};
pub use term::{Order, Term, bits, dropped, kept, load, one, paren, two, variable};
