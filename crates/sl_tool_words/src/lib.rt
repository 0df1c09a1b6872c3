//! The words of the command line, read with `clap`.
#![tactic(auto)]

mod arguments;
mod command;
mod reading;

pub use reading::request_of;
