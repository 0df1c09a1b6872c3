//! The parts of rules 26 to 31 that ask for no name's meaning: written sizes, labels, and where
//! `build` and `export` stand.
#![tactic(auto)]

mod labels;
mod places;
mod sizes;

pub use labels::has_labels;
pub use places::{exports_last, exports_nothing, is_macro_body};
pub use sizes::body_has_sizes;
