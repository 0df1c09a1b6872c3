//! The context that words FIELD=VALUE of a command line give.
#![tactic(auto)]

mod words;

pub use words::{BadWord, Cause, starting_context};
