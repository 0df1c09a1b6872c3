//! Expressions of sections, actions and constraints.

ghost use Rattle.std.specs.Prelude.{◌≡◌, IfOk, option_map};
ghost use Rattle.sl_ast.specs.Trees.{integer, named, paren, call, sized, dropped, bits, prefix, star, binary};
ghost use Rattle.sl_ast.specs.Views.{arguments, bytes, expression_of, expressions_of};

use std::alloc::{AllocError, Global};

#[derive(Clone, Copy, Debug, PartialEq, Eq)]
pub enum PrefixOp {
    /// `-`
    Negate,
    /// `~`
    Complement,
    /// `!`
    Not,
}

/// The operators between two operands, of which an expression of a section, an action or a constraint takes
/// each its own.
#[derive(Clone, Copy, Debug, PartialEq, Eq)]
pub enum BinaryOp {
    /// `*`
    Multiply,
    /// `/`
    Divide,
    /// `%`
    Remainder,
    /// `s/`
    SignedDivide,
    /// `s%`
    SignedRemainder,
    /// `+`
    Add,
    /// `-`
    Subtract,
    /// `<<`
    ShiftLeft,
    /// `>>`
    ShiftRight,
    /// `s>>`
    SignedShiftRight,
    /// `<`
    Less,
    /// `<=`
    LessEqual,
    /// `>`
    Greater,
    /// `>=`
    GreaterEqual,
    /// `s<`
    SignedLess,
    /// `s<=`
    SignedLessEqual,
    /// `s>`
    SignedGreater,
    /// `s>=`
    SignedGreaterEqual,
    /// `==`
    Equal,
    /// `!=`
    NotEqual,
    /// `&`
    And,
    /// `^`
    Xor,
    /// `|`
    Or,
    /// `&&`
    BooleanAnd,
    /// `^^`
    BooleanXor,
    /// `||`
    BooleanOr,
    /// `$and`
    WordAnd,
    /// `$xor`
    WordXor,
    /// `$or`
    WordOr,
}

/// An expression (SLEIGH manual, "Expressions" of the semantic section, "Pattern Expressions" of disassembly
/// actions). Parentheses are kept.
#[derive(Drop)]
pub enum Expr<'a> {
    Integer(u64),
    Name(&'a [u8]),
    /// An expression in parentheses.
    Paren(Box<Expr<'a>>),
    /// A call with one argument or more.
    Call(&'a [u8], Vec<Expr<'a>>),
    /// `x:n`, the value at a size of n bytes.
    Sized(Box<Expr<'a>>, u64),
    /// `x(n)`, the value without its n least bytes.
    Dropped(Box<Expr<'a>>, u64),
    /// `x[l,c]`, c bits from bit l on.
    Bits(Box<Expr<'a>>, u64, u64),
    Prefix(PrefixOp, Box<Expr<'a>>),
    /// `*[space]:n p`, memory at a pointer.
    Star(Option<&'a [u8]>, Option<u64>, Box<Expr<'a>>),
    Binary(BinaryOp, Box<Expr<'a>>, Box<Expr<'a>>),
}

/// The expression that is an integer.
pub fn integer<'a>(value: u64) -> Expr<'a>
    ensures { expression_of result ≡ integer value }
{
    Expr::Integer(value)
}

/// The expression that is a name.
pub fn named<'a>(name: &'a [u8]) -> Expr<'a>
    ensures { expression_of result ≡ named name.now }
{
    Expr::Name(name)
}

/// `name(arguments)`.
pub fn call<'a>(name: &'a [u8], given: Vec<Expr<'a>>) -> Expr<'a>
    ensures { expression_of result ≡ call name.now (arguments (expressions_of given.entry.items)) }
{
    Expr::Call(name, given)
}

/// `(inner)`.
pub fn paren<'a>(alloc: Global, inner: Expr<'a>) -> Result<Expr<'a>, AllocError>
    ensures { IfOk result (λ e. expression_of e ≡ paren (expression_of inner.entry)) }
{
    Ok(Expr::Paren(Box::new(alloc, inner)?))
}

/// `inner:size`, with the size in bytes.
pub fn sized<'a>(alloc: Global, inner: Expr<'a>, size: u64) -> Result<Expr<'a>, AllocError>
    ensures { IfOk result (λ e. expression_of e ≡ sized (expression_of inner.entry) size) }
{
    Ok(Expr::Sized(Box::new(alloc, inner)?, size))
}

/// `inner(count)`, with the count of bytes that are dropped.
pub fn dropped<'a>(alloc: Global, inner: Expr<'a>, count: u64) -> Result<Expr<'a>, AllocError>
    ensures { IfOk result (λ e. expression_of e ≡ dropped (expression_of inner.entry) count) }
{
    Ok(Expr::Dropped(Box::new(alloc, inner)?, count))
}

/// `inner[low,count]`, with the least bit and the count of bits.
pub fn bits<'a>(
    alloc: Global,
    inner: Expr<'a>,
    low: u64,
    count: u64,
) -> Result<Expr<'a>, AllocError>
    ensures { IfOk result (λ e. expression_of e ≡ bits (expression_of inner.entry) low count) }
{
    Ok(Expr::Bits(Box::new(alloc, inner)?, low, count))
}

/// An operator before its operand.
pub fn prefix<'a>(alloc: Global, op: PrefixOp, inner: Expr<'a>) -> Result<Expr<'a>, AllocError>
    ensures { IfOk result (λ e. expression_of e ≡ prefix op (expression_of inner.entry)) }
{
    Ok(Expr::Prefix(op, Box::new(alloc, inner)?))
}

/// `*[space]:size pointer`.
pub fn star<'a>(
    alloc: Global,
    space: Option<&'a [u8]>,
    size: Option<u64>,
    pointer: Expr<'a>,
) -> Result<Expr<'a>, AllocError>
    ensures { IfOk result (λ e. expression_of e ≡ star (option_map bytes space.entry) size (expression_of pointer.entry)) }
{
    Ok(Expr::Star(space, size, Box::new(alloc, pointer)?))
}

/// An operator between its operands.
pub fn binary<'a>(
    alloc: Global,
    op: BinaryOp,
    left: Expr<'a>,
    right: Expr<'a>,
) -> Result<Expr<'a>, AllocError>
    ensures { IfOk result (λ e. expression_of e ≡ binary op (expression_of left.entry) (expression_of right.entry)) }
{
    let left = Box::new(alloc, left)?;
    Ok(Expr::Binary(op, left, Box::new(alloc, right)?))
}
