//! Expressions without others inside, and expressions that are made of those that were read.

ghost use Rattle.std.specs.Prelude.{◌≡◌, ◌+◌, IfOk, option_map};
ghost use Rattle.sl_ast.specs.Trees as tree;
ghost use Rattle.sl_ast.specs.Validity.{weight};
ghost use Rattle.sl_ast.specs.Views.{expression_of};
ghost use Rattle.sl_store_bytes.specs.Reads.{Reads, now_of};
ghost use Rattle.sl_store_phrases.specs.Within.{integer_here, name_here, sized_end, dropped_end, bits_end};
ghost use Rattle.sl_store_phrases.specs.Within.{operand_end, operand_weight};
ghost use Rattle.sl_store_phrases.specs.Within.{Makes};

use crate::words::{name, natural, width};
use sl_ast::expressions::{
    BinaryOp, Expr, PrefixOp, binary, bits, dropped, integer, named, paren, prefix, sized, star,
};
use sl_store_bytes::{Bytes, Stop};
use sl_store_format::forms::ExpressionForm;
use std::alloc::Global;

/// An integer, after its byte.
pub fn integer_here<'a>(bytes: &mut Bytes<'a>) -> Result<Expr<'a>, Stop>
    ensures reads { Reads expression_of (integer_here bytes.old) result bytes.new }
    ensures light { IfOk result (λ e. weight (expression_of e) ≡ 0) }
{
    let value = natural(bytes)?;
    Ok(integer(value))
}

/// A name, after its byte.
pub fn name_here<'a>(bytes: &mut Bytes<'a>) -> Result<Expr<'a>, Stop>
    ensures reads { Reads expression_of (name_here bytes.old) result bytes.new }
    ensures light { IfOk result (λ e. weight (expression_of e) ≡ 0) }
{
    let name = name(bytes)?;
    Ok(named(name))
}

/// `(inner)`.
pub fn paren_of<'a>(alloc: Global, inner: Expr<'a>) -> Result<Expr<'a>, Stop>
    ensures { Makes (tree.paren (expression_of inner.entry)) result }
{
    let whole = paren(alloc, inner)?;
    Ok(whole)
}

/// An operator with its operand.
pub fn prefix_of<'a>(alloc: Global, op: PrefixOp, inner: Expr<'a>) -> Result<Expr<'a>, Stop>
    ensures { Makes (tree.prefix op (expression_of inner.entry)) result }
{
    let whole = prefix(alloc, op, inner)?;
    Ok(whole)
}

/// `*[space]:size pointer`.
pub fn star_of<'a>(
    alloc: Global,
    space: Option<&'a [u8]>,
    size: Option<u64>,
    pointer: Expr<'a>,
) -> Result<Expr<'a>, Stop>
    ensures { Makes (tree.star (option_map now_of space.entry) size (expression_of pointer.entry))
        result }
{
    let whole = star(alloc, space, size, pointer)?;
    Ok(whole)
}

/// An operator with both operands.
pub fn binary_of<'a>(
    alloc: Global,
    op: BinaryOp,
    left: Expr<'a>,
    right: Expr<'a>,
) -> Result<Expr<'a>, Stop>
    ensures { Makes (tree.binary op (expression_of left.entry) (expression_of right.entry)) result }
{
    let whole = binary(alloc, op, left, right)?;
    Ok(whole)
}

/// `inner:n`.
fn sized_end<'a>(alloc: Global, bytes: &mut Bytes<'a>, inner: Expr<'a>) -> Result<Expr<'a>, Stop>
    ensures reads { Reads expression_of (sized_end (expression_of inner.entry) bytes.old) result
        bytes.new }
    ensures light { IfOk result (λ e. weight (expression_of e) ≡ weight (expression_of inner.entry)) }
{
    let size = width(bytes)?;
    let whole = sized(alloc, inner, size)?;
    Ok(whole)
}

/// `inner(n)`.
fn dropped_end<'a>(alloc: Global, bytes: &mut Bytes<'a>, inner: Expr<'a>) -> Result<Expr<'a>, Stop>
    ensures reads { Reads expression_of (dropped_end (expression_of inner.entry) bytes.old) result
        bytes.new }
    ensures light { IfOk result (λ e. weight (expression_of e) ≡ weight (expression_of inner.entry)
        + 1) }
{
    let count = natural(bytes)?;
    let whole = dropped(alloc, inner, count)?;
    Ok(whole)
}

/// `inner[l,c]`.
fn bits_end<'a>(alloc: Global, bytes: &mut Bytes<'a>, inner: Expr<'a>) -> Result<Expr<'a>, Stop>
    ensures reads { Reads expression_of (bits_end (expression_of inner.entry) bytes.old) result
        bytes.new }
    ensures light { IfOk result (λ e. weight (expression_of e) ≡ weight (expression_of inner.entry)
        + 1) }
{
    let low = natural(bytes)?;
    let count = natural(bytes)?;
    let whole = bits(alloc, inner, low, count)?;
    Ok(whole)
}

/// The operand with what follows it.
pub fn operand_end<'a>(
    alloc: Global,
    bytes: &mut Bytes<'a>,
    form: ExpressionForm,
    inner: Expr<'a>,
) -> Result<Expr<'a>, Stop>
    ensures reads { Reads expression_of (operand_end form (expression_of inner.entry) bytes.old)
        result bytes.new }
    ensures light { IfOk result (λ e. weight (expression_of e) ≡ weight (expression_of inner.entry)
        + operand_weight form) }
{
    match form {
        ExpressionForm::Sized => sized_end(alloc, bytes, inner),
        ExpressionForm::Dropped => dropped_end(alloc, bytes, inner),
        _ => bits_end(alloc, bytes, inner),
    }
}
