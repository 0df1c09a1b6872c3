//! The text of an instruction, by its decode.
#![tactic(auto)]

mod displays;
mod entries;
mod fields;
mod lengths;
mod making;
mod numbers;
mod spans;
mod templates;
mod texts;

pub use making::{make_template, make_templates};
pub use numbers::push_number;
pub use templates::{Part, Template};
pub use texts::{Instruction, push_text};
