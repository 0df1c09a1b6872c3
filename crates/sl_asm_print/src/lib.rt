//! Texts read backwards: the numbers that digits stand for, what a text says of a field's bits, and the
//! ways to cut a text into the parts of a display.
#![tactic(auto)]

mod digits;
mod fields;
mod splitting;

pub use digits::number_with;
pub use fields::bits_with_text;
pub use splitting::{begins_with, splits};
