//! From the tree of a specification to its tables with the sets of all constructors, or to the first
//! reason why it is refused.
#![tactic(auto)]

mod compiled;
mod compiling;
mod error;
mod laws;
mod places;

pub use compiled::Compiled;
pub use compiling::compile;
pub use error::{Ambiguity, CompileError, Flaw};
pub use laws::{outcome_is_one, some_outcome};
pub use sl_bind::Bound;
pub use sl_conflict::{Apart, Checked};
