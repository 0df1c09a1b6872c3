//! What is legal in a text that is accepted, and nearly always a slip: a name that nothing uses, a
//! local that is never read, an attached list from which members were left out.
//!
//! Each note is told of a token, exactly where `specs/Uses.antt`, `specs/Lists.antt` and
//! `specs/Locals.antt` say; `specs/Lines.antt` has the lines.
#![tactic(auto)]

mod laws;
mod lines;
mod lists;
mod locals;
mod notes;
mod uses;

pub use laws::notes_are_lines;
pub use lines::push_notes;
