//! The word of an item that breaks a rule, and what is wrong with it.
//!
//! An item is told by its tokens (`specs/Places.antt`), what names are by the definitions of the
//! text (`specs/Names.antt`). Each rule is a row of tests (`specs/Culprits.antt`); the culprit is
//! the first word, in the text's order, with which something is wrong.
#![tactic(auto)]

mod arguments;
mod brackets;
mod culprits;
mod definitions;
mod findings;
mod item;
mod laws;
mod names;
mod patterns;
mod places;
mod ranges;
mod sections;
mod tokens;
mod words;

pub use culprits::{Culprit, find_culprit, item_at};
pub use definitions::{is_attached_role, size_of, times_in, width_at};
pub use findings::Finding;
pub use item::{
    Item, begins_at, is_bit_range, is_context_field, is_free, is_pattern, is_register, is_section,
    is_table, is_token_field,
};
pub use laws::culprits_are_lines;
pub use names::{Kind, Mention, Role, definition, kind_by, mentions, steps_to};
pub use places::{Form, Part, Place, places_of};
pub use sections::{is_assigned_bits, is_called, is_table_operand, is_value_name};
pub use tokens::{
    has_after, has_before, has_here, is, is_integer_at, is_word_at, number_after, text_after,
};
pub use words::{push_advice, push_fault, push_hex, push_kind, sentence_of};
