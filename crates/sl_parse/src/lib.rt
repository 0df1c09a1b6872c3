//! The parser: from the tokens of a specification to its tree (SLEIGH manual, from "Basic Specification Layout" to
//! "P-code Macros").
//!
//! `parse` makes a symbol of each token and reads items until none is left. Each reading function stands for a reader
//! of the definitions: it ensures that it gives what that reader gives of the symbols that are left, unless memory
//! fails. So of the whole it is proved that
//! - the tokens are the spelling of the tree that is returned, which is within all limits, and each item keeps the
//!   index of its first token;
//! - an error has the place and the reason that the definitions give, and no other error is told of these tokens;
//! - memory alone may fail otherwise.
//!
//! Lists are loops, and what is nested is recursive: expressions and patterns up to 256 operators and brackets, blocks
//! up to 16 inside one another. `parts` and `statements` have semantic sections, `actions` disassembly actions,
//! `attributes` and `definitions` what follows `define` and `attach`, `constructors` and `blocks` the rest.
#![tactic(auto)]

mod actions;
mod attributes;
mod blocks;
mod constructors;
mod definitions;
mod items;
mod lists;
mod parser;
mod parts;
mod statements;

pub use parser::{ParseError, parse};
