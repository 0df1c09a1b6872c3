//! Bytes of packed specifications: numbers, names, texts, lists and optional parts, and what reading and
//! writing owe each other.
#![tactic(auto)]

mod bytes;
pub mod laws;
mod lexemes;
mod orders;
mod tables;
mod words;
mod write;

pub use bytes::{Bytes, Stop};
pub use lexemes::{Lexeme, lexeme_here, put_bytes};
pub use tables::Coded;
pub use words::{
    BlankBytes, CalledBytes, CaretBytes, CharBytes, FirstBytes, InvokedBytes, MemberBytes,
    NameBytes, ShownBytes, TextBytes,
};
pub use write::put_number;

#[cfg(test)]
mod tests;
