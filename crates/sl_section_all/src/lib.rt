//! The flat sections of all constructors of a text, and rules 38 and 39 over them.
#![tactic(auto)]

mod judge;
mod laws;
mod scopes;
mod sections;

pub use judge::{Judged, judge_sections};
pub use laws::no_table_reaches_itself;
pub use scopes::{Scopes, Text, text_of};
pub use sections::flat_sections;
