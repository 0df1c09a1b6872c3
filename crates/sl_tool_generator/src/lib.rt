//! What the command `gen` works on: a specification of 64 constructors, an image of a number of
//! instructions, and the line that is printed of them.
#![tactic(auto)]

mod image;
mod line;
mod specification;

pub use image::generated_image;
pub use line::{Figures, push_line};
pub use specification::generated_specification;
