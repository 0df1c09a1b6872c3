//! Bit patterns and disassembly actions of constructors.

ghost use Rattle.std.specs.Prelude.{◌≡◌, IfOk};
ghost use Rattle.sl_ast.specs.Trees.{bare, constraint, group, ellipsis, joined};
ghost use Rattle.sl_ast.specs.Views.{expression_of, pattern_of};

use crate::expressions::Expr;
use std::alloc::{AllocError, Global};

/// How a field is compared with an expression.
#[derive(Clone, Copy, Debug, PartialEq, Eq)]
pub enum Relation {
    /// `=`
    Equal,
    /// `!=`
    NotEqual,
    /// `<`
    Less,
    /// `<=`
    LessEqual,
    /// `>`
    Greater,
    /// `>=`
    GreaterEqual,
}

/// What joins two patterns.
#[derive(Clone, Copy, Debug, PartialEq, Eq)]
pub enum PatternOp {
    /// `&`
    And,
    /// `;`
    Then,
    /// `|`
    Or,
}

/// A bit pattern (SLEIGH manual, "The Bit Pattern Section"). Parentheses are kept.
#[derive(Drop)]
pub enum Pattern<'a> {
    /// A name alone: a field, a table or `epsilon`.
    Name(&'a [u8]),
    /// A field with a relation and an expression.
    Constraint(&'a [u8], Relation, Expr<'a>),
    Paren(Box<Pattern<'a>>),
    /// A pattern with `...` behind it.
    Ellipsis(Box<Pattern<'a>>),
    Joined(PatternOp, Box<Pattern<'a>>, Box<Pattern<'a>>),
}

/// The address of a `globalset`: a name, or this language's own integer.
#[derive(Clone, Copy, Debug)]
pub enum Address<'a> {
    Name(&'a [u8]),
    Integer(u64),
}

/// A disassembly action (SLEIGH manual, "Disassembly Actions Section").
#[derive(Drop)]
pub enum Action<'a> {
    /// `name = expression;`
    Assign(&'a [u8], Expr<'a>),
    /// `globalset(address, field);`
    GlobalSet(Address<'a>, &'a [u8]),
}

/// The pattern that is a name alone.
pub fn bare<'a>(name: &'a [u8]) -> Pattern<'a>
    ensures { pattern_of result ≡ bare name.now }
{
    Pattern::Name(name)
}

/// A field compared with an expression.
pub fn constraint<'a>(field: &'a [u8], relation: Relation, value: Expr<'a>) -> Pattern<'a>
    ensures { pattern_of result ≡ constraint field.now relation (expression_of value.entry) }
{
    Pattern::Constraint(field, relation, value)
}

/// `(inner)`.
pub fn group<'a>(alloc: Global, inner: Pattern<'a>) -> Result<Pattern<'a>, AllocError>
    ensures { IfOk result (λ p. pattern_of p ≡ group (pattern_of inner.entry)) }
{
    Ok(Pattern::Paren(Box::new(alloc, inner)?))
}

/// `inner ...`.
pub fn ellipsis<'a>(alloc: Global, inner: Pattern<'a>) -> Result<Pattern<'a>, AllocError>
    ensures { IfOk result (λ p. pattern_of p ≡ ellipsis (pattern_of inner.entry)) }
{
    Ok(Pattern::Ellipsis(Box::new(alloc, inner)?))
}

/// Two patterns joined.
pub fn joined<'a>(
    alloc: Global,
    op: PatternOp,
    left: Pattern<'a>,
    right: Pattern<'a>,
) -> Result<Pattern<'a>, AllocError>
    ensures { IfOk result (λ p. pattern_of p ≡ joined op (pattern_of left.entry) (pattern_of right.entry)) }
{
    let left = Box::new(alloc, left)?;
    Ok(Pattern::Joined(op, left, Box::new(alloc, right)?))
}
