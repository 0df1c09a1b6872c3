//! Lines that say more of a refusal: the place of a token with its line and carets under it, and
//! labels with words. Whatever bytes a text has, each is one line. `specs/Excerpts.antt` says what
//! is shown of a line, `specs/FactLines.antt` what each line has.
#![tactic(auto)]

mod excerpt;
mod facts;
pub mod laws;
mod line;

pub use excerpt::push_up_to;
pub use facts::{push_fact, push_line, push_spot};
