//! Rules 26 to 31 of sections and macros, and the names that are known behind a statement.
#![tactic(auto)]

mod builds;
mod calls;
mod exports;
mod expressions;
mod holding;
mod judge;
mod kinds;
mod macros;
mod places;
mod scopes;
mod statements;
mod whole_text;

pub use expressions::reads;
pub use judge::{judge_macro, judge_section};
pub use macros::{Signature, add_signature, signature_of};
pub use statements::{go_on, statement_knows};
pub use whole_text::{Whole, whole_of};
