//! What sections export, and rules 38 and 39 on it.
#![tactic(auto)]

mod exporting;
mod graphs;
mod handing;
mod judge;
mod marks;
mod misused;
mod rows;
mod spread;
mod standing;
mod unexported;

pub use judge::judge_sections;
