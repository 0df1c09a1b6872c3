//! The preprocessor: [`expand`] turns a specification's main file, and the files that it includes,
//! into one text and says where each line of it comes from.
//!
//! `specs/Trees.antt` has the tree of a file's lines, and `specs/Expansion.antt` says by recursion
//! on it which text that is, which files are asked for, and which refusal comes where there is no
//! text.
#![tactic(auto)]

mod error;
mod groups;
mod inclusion;
pub mod laws;
mod naming;
mod places;
mod text;
mod work;

pub use error::PreError;
pub use inclusion::expand;
pub use places::Place;
pub use text::Expanded;
