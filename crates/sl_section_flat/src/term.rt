//! Expressions.

ghost use Rattle.std.specs.Prelude.{◌≡◌, IfOk, option_map};
ghost use Rattle.sl_section_flat.specs.Sections as s;
ghost use Rattle.sl_section_flat.specs.Views.{number_of, term_of};
ghost use Rattle.sl_section_flat.specs.Chains.{bytes_of};

use crate::symbol::{Span, Symbol};
use sl_word::{Op1, Op2, Size, SpaceId, UserId};
use std::alloc::{AllocError, Global};

/// The order in which an operation takes the two values, which are always reckoned from left to
/// right.
#[derive(Clone, Copy, Debug)]
pub enum Order {
    AsWritten,
    /// The right value first: `a > b` is `b < a`.
    Exchanged,
}

/// An expression. Its last number is its size variable.
#[derive(Drop)]
pub enum Term {
    /// An integer.
    Number(u64, u32),
    /// An integer with its size.
    Sized(u64, Size, u32),
    Name(Symbol, u32),
    /// In parentheses.
    Paren(Box<Term>, u32),
    /// `x:n`, the n least bytes.
    Kept(Box<Term>, Size, u32),
    /// `x(n)`, the value without its n least bytes. n is at most 16.
    Dropped(Box<Term>, u8, u32),
    /// `x[l,c]`
    Bits(Box<Term>, Span, u32),
    /// Memory at a pointer, of this size where one is written, in the default space where none is.
    Load(Option<SpaceId>, Option<Size>, Box<Term>, u32),
    One(Op1, Box<Term>, u32),
    Two(Op2, Order, Box<Term>, Box<Term>, u32),
    /// A user operation with its arguments.
    User(UserId, Vec<Term>, u32),
}

/// An expression in parentheses.
pub fn paren(alloc: Global, t: Term, x: u32) -> Result<Term, AllocError>
    ensures { IfOk result (λ r. term_of r ≡ s.paren (term_of t) x) }
{
    Ok(Term::Paren(Box::new(alloc, t)?, x))
}

/// `t:n`
pub fn kept(alloc: Global, t: Term, n: Size, x: u32) -> Result<Term, AllocError>
    ensures { IfOk result (λ r. term_of r ≡ s.kept (term_of t) n.bytes x) }
{
    Ok(Term::Kept(Box::new(alloc, t)?, n, x))
}

/// `t(n)`
pub fn dropped(alloc: Global, t: Term, n: u8, x: u32) -> Result<Term, AllocError>
    ensures { IfOk result (λ r. term_of r ≡ s.dropped (term_of t) n x) }
{
    Ok(Term::Dropped(Box::new(alloc, t)?, n, x))
}

/// `t[l,c]`
pub fn bits(alloc: Global, t: Term, span: Span, x: u32) -> Result<Term, AllocError>
    ensures { IfOk result (λ r. term_of r ≡ s.bits (term_of t) span.low span.count x) }
{
    Ok(Term::Bits(Box::new(alloc, t)?, span, x))
}

/// Memory at a pointer.
pub fn load(
    alloc: Global,
    space: Option<SpaceId>,
    size: Option<Size>,
    t: Term,
    x: u32,
) -> Result<Term, AllocError>
    ensures { IfOk result (λ r. term_of r
        ≡ s.load (option_map number_of space) (option_map bytes_of size) (term_of t) x) }
{
    Ok(Term::Load(space, size, Box::new(alloc, t)?, x))
}

/// An operation on one value.
pub fn one(alloc: Global, op: Op1, t: Term, x: u32) -> Result<Term, AllocError>
    ensures { IfOk result (λ r. term_of r ≡ s.one op (term_of t) x) }
{
    Ok(Term::One(op, Box::new(alloc, t)?, x))
}

/// An operation on two values.
pub fn two(
    alloc: Global,
    op: Op2,
    order: Order,
    a: Term,
    b: Term,
    x: u32,
) -> Result<Term, AllocError>
    ensures { IfOk result (λ r. term_of r ≡ s.two op order (term_of a) (term_of b) x) }
{
    let a = Box::new(alloc, a)?;
    Ok(Term::Two(op, order, a, Box::new(alloc, b)?, x))
}

/// The size variable of an expression's value: parentheses have one of their own beside it.
pub fn variable(t: &Term) -> u32
    ensures { result ≡ s.variable_of (term_of t.now) }
{
    match t {
        Term::Number(_, x) => *x,
        Term::Sized(_, _, x) => *x,
        Term::Name(_, x) => *x,
        Term::Paren(t, _) => variable(t),
        Term::Kept(_, _, x) => *x,
        Term::Dropped(_, _, x) => *x,
        Term::Bits(_, _, x) => *x,
        Term::Load(_, _, _, x) => *x,
        Term::One(_, _, x) => *x,
        Term::Two(_, _, _, _, x) => *x,
        Term::User(_, _, x) => *x,
    }
}
