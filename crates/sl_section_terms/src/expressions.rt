//! Expressions.

ghost use Rattle.std.specs.Prelude.{◌≡◌, ◌+◌, min, is_some, IfOk, OnOk, option_map};
ghost use Rattle.sl_ast.specs.Views.{arguments, expression_of, expressions_of};
ghost use Rattle.sl_section_flat.specs.Sections as s;
ghost use Rattle.sl_section_flat.specs.Sections.{bounded};
ghost use Rattle.sl_section_flat.specs.Views.{symbol_of, term_of, terms_of};
ghost use Rattle.sl_section_flat.specs.Chains.{bytes_of};
ghost use Rattle.sl_section_terms.specs.Terms.{called, integer_of, single_integer, term_at};
ghost use Rattle.sl_section_terms.specs.Terms.{terms_at};
ghost use Rattle.sl_section_terms.specs.Scopes.{symbol_named};
ghost use Rattle.sl_section_terms.specs.Dropped.{dropped_view};
ghost use Rattle.sl_section_terms.specs.Terms.{binary_term, dropped_of, unary_term, user_term};
ghost use Rattle.sl_section_terms.specs.Terms.{variables};
ghost use Rattle.sl_section_terms.specs.Terms.{variables_in};

use crate::names::{Names, space_named, userop_named};
use crate::operators::{binary_function, operation, order, prefix_operation, unary_function};
use crate::reach::Reach;
use sl_ast::expressions::Expr;
use sl_section_flat::{
    Order, Span, Symbol, Term, bits, dropped, kept, load, one, paren, two, written_size,
};
use sl_spec::Tables;
use sl_word::{Op1, Op2, Size, UserId};
use std::alloc::{AllocError, Global};

/// The next number. 2^32 of them would be want of memory.
pub fn take(next: &mut u32) -> Result<u32, AllocError>
    ensures value { IfOk result (λ x. x ≡ next.old) }
    ensures moved { OnOk result (next.new ≡ next.old + 1) }
{
    let x = *next;
    match x.checked_add(1) {
        Some(behind) => {
            *next = behind;
            Ok(x)
        }
        None => Err(AllocError),
    }
}

/// The integer that an expression is.
fn integer_of(e: &Expr) -> Option<u64>
    ensures { result ≡ integer_of (expression_of e.now) }
{
    match e {
        Expr::Integer(v) => Some(*v),
        Expr::Name(_) => None,
        Expr::Paren(_) => None,
        Expr::Call(_, _) => None,
        Expr::Sized(_, _) => None,
        Expr::Dropped(_, _) => None,
        Expr::Bits(_, _, _) => None,
        Expr::Prefix(_, _) => None,
        Expr::Star(_, _, _) => None,
        Expr::Binary(_, _, _) => None,
    }
}

/// The integer that is the only argument.
fn single_integer(es: &[Expr]) -> Option<u64>
    ensures { result ≡ single_integer (arguments (expressions_of es.now)) }
{
    if es.len() == 1 {
        integer_of(&es[0])
    } else {
        None
    }
}

/// How many bytes are dropped, where 16 stands for more.
fn dropped_bytes(n: u64) -> u8
    ensures { result ≡ min n 16 }
{
    n.min(16) as u8
}

/// A size where one is written.
pub fn size_if_written(size: Option<u64>) -> Option<Size>
    ensures { option_map bytes_of result ≡ option_map bounded size }
{
    match size {
        Some(bytes) => Some(written_size(bytes)),
        None => None,
    }
}

fn user_term(op: Option<UserId>, given: Vec<Term>, x: u32) -> Term
    ensures { term_of result
        ≡ user_term (option_map (λ u. u.0) op) (terms_of given.items) x }
{
    match op {
        Some(op) => Term::User(op, given, x),
        None => Term::Number(0, x),
    }
}

fn unary_term(
    alloc: Global,
    function: Option<Op1>,
    op: Option<UserId>,
    a: Term,
    x: u32,
) -> Result<Term, AllocError>
    ensures { IfOk result (λ r. term_of r
        ≡ unary_term function (option_map (λ u. u.0) op) (term_of a) x) }
{
    match function {
        Some(f) => one(alloc, f, a, x),
        None => {
            let mut given = Vec::new(alloc);
            given.push(a)?;
            Ok(user_term(op, given, x))
        }
    }
}

fn binary_term(
    alloc: Global,
    function: Option<Op2>,
    op: Option<UserId>,
    a: Term,
    b: Term,
    x: u32,
) -> Result<Term, AllocError>
    ensures { IfOk result (λ r. term_of r
        ≡ binary_term function (option_map (λ u. u.0) op) (term_of a) (term_of b) x) }
{
    match function {
        Some(f) => two(alloc, f, Order::AsWritten, a, b, x),
        None => {
            let mut given = Vec::new(alloc);
            given.push(a)?;
            given.push(b)?;
            Ok(user_term(op, given, x))
        }
    }
}

/// A call of a function or a user operation with these arguments.
fn called(
    alloc: Global,
    t: &Tables,
    reach: Reach,
    name: &[u8],
    given: Vec<Term>,
    x: u32,
) -> Result<Term, AllocError>
    ensures { IfOk result (λ r. term_of r
        ≡ called t.now reach name.now (terms_of given.items) x) }
{
    let op = userop_named(t, reach, name)?;
    let mut given = given;
    let count = given.len();
    let Some(last) = given.pop() else {
        return Ok(user_term(op, given, x));
    };
    if count == 1 {
        return unary_term(alloc, unary_function(name), op, last, x);
    }
    if count == 2 {
        if let Some(first) = given.pop() {
            return binary_term(alloc, binary_function(name), op, first, last, x);
        }
    }
    given.push(last)?;
    Ok(user_term(op, given, x))
}

/// What a call drops bytes of, and how many, where it isn't one.
fn dropped_of(t: &Tables, names: &Names, name: &[u8], es: &[Expr]) -> Option<(Symbol, u64)>
    ensures { option_map dropped_view result ≡ dropped_of (symbol_named t.now names.now name.now)
        (single_integer (arguments (expressions_of es.now))) }
{
    let symbol = names.symbol_named(t, name)?;
    let n = single_integer(es)?;
    Some((symbol, n))
}

/// Whether a call drops bytes of what its name stands for.
pub fn is_dropped(t: &Tables, names: &Names, name: &[u8], es: &[Expr]) -> bool
    ensures { result ≡ is_some (dropped_of (symbol_named t.now names.now name.now)
        (single_integer (arguments (expressions_of es.now)))) }
{
    dropped_of(t, names, name, es).is_some()
}

/// A name's value without its least bytes.
fn name_dropped(alloc: Global, of: (Symbol, u64), next: &mut u32) -> Result<Term, AllocError>
    ensures value { IfOk result (λ r. term_of r ≡ s.dropped
        (s.name (symbol_of of.0) next.old) (min of.1 16) (next.old + 1)) }
    ensures moved { OnOk result (next.new ≡ next.old + 2) }
{
    let name = Term::Name(of.0, take(next)?);
    let x = take(next)?;
    dropped(alloc, name, dropped_bytes(of.1), x)
}

/// The expression with its names taken out. Its first size variable is the next one.
#[cycle(terms)]
pub fn term<'a>(
    alloc: Global,
    t: &Tables<'a>,
    names: &Names<'a>,
    next: &mut u32,
    e: &Expr<'a>,
) -> Result<Term, AllocError>
    ensures value { IfOk result (λ r. term_of r
        ≡ term_at t.now names.now next.old (expression_of e.now)) }
    ensures moved { OnOk result (next.new ≡ next.old + variables (expression_of e.now)) }
{
    match e {
        Expr::Integer(v) => {
            let x = take(next)?;
            Ok(Term::Number(*v, x))
        }
        Expr::Name(w) => {
            let x = take(next)?;
            Ok(Term::Name(names.known_symbol(t, w), x))
        }
        Expr::Paren(e) => {
            let inner = term(alloc, t, names, next, e)?;
            let x = take(next)?;
            paren(alloc, inner, x)
        }
        Expr::Sized(e, n) => match integer_of(e) {
            Some(v) => {
                let x = take(next)?;
                Ok(Term::Sized(v, written_size(*n), x))
            }
            None => {
                let inner = term(alloc, t, names, next, e)?;
                let x = take(next)?;
                kept(alloc, inner, written_size(*n), x)
            }
        },
        Expr::Dropped(e, n) => {
            let inner = term(alloc, t, names, next, e)?;
            let x = take(next)?;
            dropped(alloc, inner, dropped_bytes(*n), x)
        }
        Expr::Bits(e, low, count) => {
            let inner = term(alloc, t, names, next, e)?;
            let x = take(next)?;
            bits(alloc, inner, Span::new(*low, *count), x)
        }
        Expr::Prefix(op, e) => {
            let inner = term(alloc, t, names, next, e)?;
            let x = take(next)?;
            one(alloc, prefix_operation(*op), inner, x)
        }
        Expr::Star(space, n, e) => {
            let space = space_named(t, names.reach, *space)?;
            let inner = term(alloc, t, names, next, e)?;
            let x = take(next)?;
            load(alloc, space, size_if_written(*n), inner, x)
        }
        Expr::Binary(op, a, b) => {
            let a = term(alloc, t, names, next, a)?;
            let b = term(alloc, t, names, next, b)?;
            let x = take(next)?;
            two(alloc, operation(*op), order(*op), a, b, x)
        }
        Expr::Call(w, es) => match dropped_of(t, names, w, es.as_slice()) {
            Some(found) => name_dropped(alloc, found, next),
            None => {
                let given = terms(alloc, t, names, next, es.as_slice())?;
                let x = take(next)?;
                called(alloc, t, names.reach, w, given, x)
            }
        },
    }
}

/// The arguments of a call. Their first size variable is the next one.
#[cycle(terms)]
pub fn terms<'a>(
    alloc: Global,
    t: &Tables<'a>,
    names: &Names<'a>,
    next: &mut u32,
    es: &[Expr<'a>],
) -> Result<Vec<Term>, AllocError>
    ensures value { IfOk result (λ r. terms_of r.items
        ≡ terms_at t.now names.now next.old (arguments (expressions_of es.now))) }
    ensures moved { OnOk result (next.new
        ≡ next.old + variables_in (arguments (expressions_of es.now))) }
{
    let mut given = Vec::new(alloc);
    'given: for index in 0..es.len() {
        given.push(term(alloc, t, names, next, &es[index])?)?;
    }
    Ok(given)
}
