//! What more is said of a refusal than its first line: where it is, in which constructor, what is
//! asked of a text, and what to write instead where that is known. `specs/Facts.antt` has the lines
//! of each kind of refusal.
#![tactic(auto)]

mod facts;
mod laws;
mod parts;
mod sentences;
mod sizes;
mod syntax;
mod tables;

pub use facts::{push_cause_facts, push_flaw_facts, push_item_facts, push_lex_facts};
pub use laws::facts_are_lines;
pub use syntax::push_parse_facts;
pub use tables::{push_ambiguity_facts, push_settling_facts};
