//! From the tree of a section to the flat section: names, scopes and macros taken out, and size
//! variables numbered.
#![tactic(auto)]

mod arguments;
mod macros;
mod placing;
mod reading;
mod sections;
mod state;
mod statements;
mod work;

pub use macros::MacroBody;
pub use sections::resolve;
