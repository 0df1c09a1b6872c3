//! The report on what a specification leaves unmatched: the least unmatched point of each table, the
//! constructors that are never chosen, and the points at which an operand fails under its parent.
#![tactic(auto)]

mod findings;
mod holes;
mod laws;
mod report;
mod reports;
mod unmarked;

pub use laws::{report_is_one, some_report};
pub use report::{Hole, Report};
pub use reports::gaps;
