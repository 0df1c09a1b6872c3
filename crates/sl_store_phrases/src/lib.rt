//! Expressions and bit patterns of packed specifications, read: each reading function gives what the
//! reader of the definitions gives of the bytes that are left, unless memory runs out. Expressions
//! and patterns read themselves within the room that is left for operators and brackets.
#![tactic(auto)]

mod expressions;
mod made;
mod operands;
mod patterns;
mod words;

pub use expressions::whole_expression;
pub use operands::taken;
pub use patterns::whole_pattern;
pub use words::{
    blank, byte, called_name, caret, first_name, invoked_name, member_word, name, natural,
    shown_word, text, width, width_option,
};
