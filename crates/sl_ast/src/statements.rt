//! Statements of semantic sections and macros.

use crate::expressions::Expr;

/// `*[space]:n`, with its two optional parts.
#[derive(Clone, Copy, Debug)]
pub struct Star<'a> {
    pub space: Option<&'a [u8]>,
    pub size: Option<u64>,
}

/// What stands left of `=`.
#[derive(Drop)]
pub enum Left<'a> {
    Name(&'a [u8]),
    /// `name[l,c]`
    Bits(&'a [u8], u64, u64),
    /// `*[space]:n pointer`
    Star(Star<'a>, Expr<'a>),
}

/// A target that is written out.
#[derive(Clone, Copy, Debug)]
pub enum Direct<'a> {
    /// `<label>`
    Label(&'a [u8]),
    Name(&'a [u8]),
    Integer(u64),
}

/// Where a `goto` leads.
#[derive(Drop)]
pub enum Dest<'a> {
    Direct(Direct<'a>),
    /// `[expression]`
    Computed(Expr<'a>),
}

/// What a `call` calls.
#[derive(Drop)]
pub enum Target<'a> {
    Name(&'a [u8]),
    Integer(u64),
    /// `[expression]`
    Computed(Expr<'a>),
}

/// The pointer of an exported star form.
#[derive(Clone, Copy, Debug)]
pub enum Pointer<'a> {
    Name(&'a [u8]),
    Integer(u64),
}

/// What a section exports.
#[derive(Clone, Copy, Debug)]
pub enum Exported<'a> {
    Name(&'a [u8]),
    Star(Star<'a>, Pointer<'a>),
}

/// A statement (SLEIGH manual, "The Semantic Section", "Statements").
#[derive(Drop)]
pub enum Stmt<'a> {
    /// `local name:n = expression;`, the size and the expression being optional.
    Local(&'a [u8], Option<u64>, Option<Expr<'a>>),
    /// `name:n = expression;`
    Declare(&'a [u8], u64, Expr<'a>),
    Assign(Left<'a>, Expr<'a>),
    Goto(Dest<'a>),
    /// `if expression goto target;`
    Branch(Expr<'a>, Direct<'a>),
    Call(Target<'a>),
    /// `return [expression];`
    Return(Expr<'a>),
    Build(&'a [u8]),
    Export(Exported<'a>),
    /// `name(arguments);`, of a macro or a user-defined operation; there may be no argument.
    Invoke(&'a [u8], Vec<Expr<'a>>),
    /// `<name>`
    Label(&'a [u8]),
}
