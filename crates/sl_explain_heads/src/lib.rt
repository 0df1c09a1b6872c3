//! Items as their tokens tell them: a constructor by its table, its display and its pattern with
//! those of the blocks round it, a macro by its name; and tokens as words, with the modes in which
//! they stand. `specs/Words.antt` and `specs/Heads.antt` say what each is.
#![tactic(auto)]

mod heads;
pub mod laws;
mod words;

pub use heads::{
    constructor_words, from, name_or, push_head, push_pattern, table_at, table_in, table_of,
};
pub use words::{
    Mode, begins_item, blocks_round, mode_at, next_mode, push_token, step_in, text_at, text_before,
};
