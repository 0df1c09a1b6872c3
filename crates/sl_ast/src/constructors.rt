//! Constructors, blocks of them, and macros.

use crate::patterns::{Action, Pattern};
use crate::statements::Stmt;

/// A token of a display section (SLEIGH manual, "The Display Section"), with its bytes.
#[derive(Clone, Copy, Debug)]
pub enum Shown<'a> {
    Word(&'a [u8]),
    /// A text with its quotes.
    Text(&'a [u8]),
    Blank(&'a [u8]),
    /// `^`, which joins its neighbours.
    Caret(&'a [u8]),
    /// Another byte by itself.
    Char(&'a [u8]),
}

/// What a constructor does.
#[derive(Drop)]
pub enum Section<'a> {
    Statements(Vec<Stmt<'a>>),
    /// `unimpl`
    Unimplemented,
}

/// A constructor (SLEIGH manual, "Constructors"). No table name stands for that of the block round it, or
/// for `instruction`.
#[derive(Drop)]
pub struct Constructor<'a> {
    pub table: Option<&'a [u8]>,
    pub display: Vec<Shown<'a>>,
    pub pattern: Pattern<'a>,
    pub actions: Option<Vec<Action<'a>>>,
    pub section: Section<'a>,
}

/// What a `with` block gives to each constructor inside (SLEIGH manual, "The with block").
#[derive(Drop)]
pub struct Head<'a> {
    pub table: Option<&'a [u8]>,
    pub pattern: Option<Pattern<'a>>,
    pub actions: Option<Vec<Action<'a>>>,
}

/// What stands inside a `with` block: a constructor, or a block again. Each has the index of its first token
/// in the token list.
#[derive(Drop)]
pub enum Inner<'a> {
    Constructor(usize, Constructor<'a>),
    With(usize, Head<'a>, Vec<Inner<'a>>),
}

/// A macro (SLEIGH manual, "P-code Macros").
#[derive(Drop)]
pub struct Macro<'a> {
    pub name: &'a [u8],
    pub parameters: Vec<&'a [u8]>,
    pub body: Vec<Stmt<'a>>,
}
