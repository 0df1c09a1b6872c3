//! The tokens of a specification's text.
#![tactic(auto)]

mod bytes;
pub mod laws;
mod lexemes;
mod lexer;
mod marks;
mod mode;
mod numbers;

pub use lexer::lex;
use thiserror::Error;

/// What a token is (SLEIGH manual, "Basic Specification Layout"; in displays, "The Display Section").
#[derive(Clone, Copy, Debug, PartialEq, Eq)]
pub enum TokKind {
    /// A letter, `_` or a dot, and then letters, digits, `_` and dots. Outside displays three dots end it.
    Word,
    /// Decimal digits, `0x` and hexadecimal digits, or `0b` and binary digits, with the number that they
    /// spell.
    Integer(u64),
    /// The bytes 0x20 to 0x7E but `"` between two quotes. The token's bytes have the quotes too.
    Text,
    /// An operator or a bracket. Each mode has its own; displays have none.
    Mark,
    /// Spaces, tabs, carriage returns and line feeds in a display, as many as stand there.
    Blank,
    /// `^` in a display.
    Caret,
    /// Any other byte 0x21 to 0x7E in a display, by itself; digits too.
    Char,
}

/// A token: its kind, its bytes, which are a slice of the text, and the offset in bytes at which they
/// begin in the text.
#[derive(Clone, Copy, Debug)]
pub struct Tok<'a> {
    pub kind: TokKind,
    pub text: &'a [u8],
    pub from: usize,
}

/// Why a text has no tokens: the first place, as an offset in bytes, where it can't go on.
#[derive(Clone, Copy, Debug, Drop, PartialEq, Eq, Error)]
pub enum LexError {
    /// A byte that begins no lexeme of its mode, or one behind an opening quote that is neither 0x20 to
    /// 0x7E nor a line feed.
    #[error("BadByte")]
    BadByte(usize),
    /// The place of an opening quote before whose closing one the line or the text ends.
    #[error("OpenString")]
    OpenString(usize),
    /// The place of the first digit of an integer above 2^64 - 1.
    #[error("WideInteger")]
    WideInteger(usize),
    /// The list of tokens could not grow.
    #[error("NoMemory")]
    NoMemory,
}
