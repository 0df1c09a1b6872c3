//! Expressions of sections, actions and constraints.

ghost use Rattle.std.specs.Prelude.{◌≡◌, ◌-◌, IfOk};
ghost use Rattle.sl_ast.specs.Validity.{weights};
ghost use Rattle.sl_ast.specs.Views.{arguments, expression_of, expressions_of};
ghost use Rattle.sl_store_format.specs.Expressions as reader;
ghost use Rattle.sl_store_bytes.specs.Reads.{Reads, seen_by};
ghost use Rattle.sl_parse_phrases.specs.Kinds.{kind_of};
ghost use Rattle.sl_store_phrases.specs.Within.{followed, form_of, ReadsForm, Spends};

use crate::made::{binary_of, integer_here, name_here, operand_end, paren_of, prefix_of, star_of};
use crate::operands::{
    form_here, operand_form, operand_room, operator_here, prefix_here, space_here,
};
use crate::words::{called_name, width_option};
use sl_ast::expressions::{Expr, call};
use sl_parse_phrases::operators::{Kind, right_rank};
use sl_parse_phrases::shapes::left_rank;
use sl_store_bytes::{Bytes, Stop};
use sl_store_format::forms::ExpressionForm;
use std::alloc::Global;

/// How many operators and brackets an outermost expression may have.
pub const HEAVIEST: u64 = 256;

/// The loosest rank of an expression.
pub const LOOSEST: u8 = 10;

/// An expression of the rank or tighter, with expressions inside one another fewer than `depth`
/// times. It takes what it needs of the room.
#[cycle(expression)]
pub fn expression<'a>(
    alloc: Global,
    bytes: &mut Bytes<'a>,
    kind: Kind,
    depth: u64,
    room: &mut u64,
    rank: u8,
) -> Result<Expr<'a>, Stop>
    ensures reads { Reads expression_of (reader.expression (kind_of kind) depth room.old rank
        bytes.old) result bytes.new }
    ensures spent { Spends room.old room.new result }
{
    if depth == 0 {
        return Err(bytes.refuse());
    }
    formed(alloc, bytes, kind, depth - 1, room, rank)
}

/// An expression of the rank or tighter, by its form.
#[cycle(expression)]
#[tactic(auto, unfolding(sl_store_format::specs::Expressions::sized_here, sl_store_format::specs::Expressions::dropped_here, sl_store_format::specs::Expressions::bits_here, sl_store_format::specs::Expressions::operand))]
fn formed<'a>(
    alloc: Global,
    bytes: &mut Bytes<'a>,
    kind: Kind,
    depth: u64,
    room: &mut u64,
    rank: u8,
) -> Result<Expr<'a>, Stop>
    ensures reads { ReadsForm (form_of rank) kind depth room.old bytes.old result bytes.new }
    ensures spent { Spends room.old room.new result }
{
    match form_here(bytes, kind, *room, rank)? {
        ExpressionForm::Sized => {
            followed(alloc, bytes, kind, depth, room, ExpressionForm::Sized)
        }
        ExpressionForm::Dropped => {
            followed(alloc, bytes, kind, depth, room, ExpressionForm::Dropped)
        }
        ExpressionForm::Bits => followed(alloc, bytes, kind, depth, room, ExpressionForm::Bits),
        ExpressionForm::Prefix => prefixed(alloc, bytes, kind, depth, room),
        ExpressionForm::Star => starred(alloc, bytes, kind, depth, room),
        ExpressionForm::Binary => joined_here(alloc, bytes, kind, depth, room, rank),
        ExpressionForm::Integer => simple(alloc, bytes, kind, depth, room, ExpressionForm::Integer),
        ExpressionForm::Name => simple(alloc, bytes, kind, depth, room, ExpressionForm::Name),
        ExpressionForm::Paren => simple(alloc, bytes, kind, depth, room, ExpressionForm::Paren),
        ExpressionForm::Call => simple(alloc, bytes, kind, depth, room, ExpressionForm::Call),
    }
}

/// An integer, a name, an expression in brackets, or else a call.
#[cycle(expression)]
fn simple<'a>(
    alloc: Global,
    bytes: &mut Bytes<'a>,
    kind: Kind,
    depth: u64,
    room: &mut u64,
    form: ExpressionForm,
) -> Result<Expr<'a>, Stop>
    ensures reads { ReadsForm (λ k inner room. reader.simple k inner room form) kind depth room.old
        bytes.old result bytes.new }
    ensures spent { Spends room.old room.new result }
{
    match form {
        ExpressionForm::Integer => integer_here(bytes),
        ExpressionForm::Name => name_here(bytes),
        ExpressionForm::Paren => bracketed(alloc, bytes, kind, depth, room),
        _ => called(alloc, bytes, kind, depth, room),
    }
}

/// An expression in brackets, after its byte.
#[cycle(expression)]
#[tactic(auto, unfolding(sl_store_format::specs::Expressions::bracketed))]
fn bracketed<'a>(
    alloc: Global,
    bytes: &mut Bytes<'a>,
    kind: Kind,
    depth: u64,
    room: &mut u64,
) -> Result<Expr<'a>, Stop>
    ensures reads { ReadsForm reader.bracketed kind depth room.old bytes.old result bytes.new }
    ensures spent { Spends room.old room.new result }
{
    *room = room.saturating_sub(1);
    let inner = expression(alloc, bytes, kind, depth, room, LOOSEST)?;
    paren_of(alloc, inner)
}

/// A call, after its byte.
#[cycle(expression)]
#[tactic(auto, unfolding(sl_store_format::specs::Expressions::called))]
fn called<'a>(
    alloc: Global,
    bytes: &mut Bytes<'a>,
    kind: Kind,
    depth: u64,
    room: &mut u64,
) -> Result<Expr<'a>, Stop>
    ensures reads { ReadsForm reader.called kind depth room.old bytes.old result bytes.new }
    ensures spent { Spends room.old room.new result }
{
    let name = called_name(bytes)?;
    *room = room.saturating_sub(1);
    let given = given(alloc, bytes, kind, depth, room)?;
    Ok(call(name, given))
}

/// The arguments of a call, one or more.
#[cycle(expression)]
#[tactic(auto, unfolding(sl_store_format::specs::Expressions::given))]
fn given<'a>(
    alloc: Global,
    bytes: &mut Bytes<'a>,
    kind: Kind,
    depth: u64,
    room: &mut u64,
) -> Result<Vec<Expr<'a>>, Stop>
    ensures reads { Reads (seen_by expression_of) (reader.given (kind_of kind) (reader.expression
        (kind_of kind) depth) room.old bytes.old) result bytes.new }
    ensures spent { IfOk result (λ es. room.new ≡ room.old - weights (arguments (expressions_of
        es.items))) }
{
    let count = bytes.number(1, u64::MAX)?;
    let mut found = Vec::new(alloc);
    'rounds: for _round in 0..count {
        found.push(expression(alloc, bytes, kind, depth, room, LOOSEST)?)?;
    }
    Ok(found)
}

/// `x:n`, `x(n)` or `x[l,c]`, after its byte.
#[cycle(expression)]
fn followed<'a>(
    alloc: Global,
    bytes: &mut Bytes<'a>,
    kind: Kind,
    depth: u64,
    room: &mut u64,
    form: ExpressionForm,
) -> Result<Expr<'a>, Stop>
    ensures reads { ReadsForm (followed form) kind depth room.old bytes.old result bytes.new }
    ensures spent { Spends room.old room.new result }
{
    *room = operand_room(form, *room);
    let operand = operand_form(bytes, form, *room)?;
    let inner = simple(alloc, bytes, kind, depth, room, operand)?;
    operand_end(alloc, bytes, form, inner)
}

/// An operator with its operand, after the byte.
#[cycle(expression)]
#[tactic(auto, unfolding(sl_store_format::specs::Expressions::prefixed))]
fn prefixed<'a>(
    alloc: Global,
    bytes: &mut Bytes<'a>,
    kind: Kind,
    depth: u64,
    room: &mut u64,
) -> Result<Expr<'a>, Stop>
    ensures reads { ReadsForm reader.prefixed kind depth room.old bytes.old result bytes.new }
    ensures spent { Spends room.old room.new result }
{
    let op = prefix_here(bytes, kind)?;
    *room = room.saturating_sub(1);
    let inner = expression(alloc, bytes, kind, depth, room, 0)?;
    prefix_of(alloc, op, inner)
}

/// `*[space]:n p`, after the byte.
#[cycle(expression)]
#[tactic(auto, unfolding(sl_store_format::specs::Expressions::starred))]
fn starred<'a>(
    alloc: Global,
    bytes: &mut Bytes<'a>,
    kind: Kind,
    depth: u64,
    room: &mut u64,
) -> Result<Expr<'a>, Stop>
    ensures reads { ReadsForm reader.starred kind depth room.old bytes.old result bytes.new }
    ensures spent { Spends room.old room.new result }
{
    *room = room.saturating_sub(1);
    let space = space_here(bytes, room)?;
    let size = width_option(bytes)?;
    let pointer = expression(alloc, bytes, kind, depth, room, 0)?;
    star_of(alloc, space, size, pointer)
}

/// An operator with both operands, after the byte.
#[cycle(expression)]
#[tactic(auto, unfolding(sl_store_format::specs::Expressions::joined_here))]
fn joined_here<'a>(
    alloc: Global,
    bytes: &mut Bytes<'a>,
    kind: Kind,
    depth: u64,
    room: &mut u64,
    rank: u8,
) -> Result<Expr<'a>, Stop>
    ensures reads { ReadsForm (λ k inner room. reader.joined_here k inner room rank) kind depth
        room.old bytes.old result bytes.new }
    ensures spent { Spends room.old room.new result }
{
    let op = operator_here(bytes, kind, rank)?;
    *room = room.saturating_sub(1);
    let left = expression(alloc, bytes, kind, depth, room, left_rank(op))?;
    let right = expression(alloc, bytes, kind, depth, room, right_rank(op))?;
    binary_of(alloc, op, left, right)
}

/// An expression that is in no other.
pub fn whole_expression<'a>(
    alloc: Global,
    bytes: &mut Bytes<'a>,
    kind: Kind,
) -> Result<Expr<'a>, Stop>
    ensures { Reads expression_of (reader.whole_expression (kind_of kind) bytes.old) result
        bytes.new }
{
    let mut room = HEAVIEST;
    let found = expression(alloc, bytes, kind, HEAVIEST + 1, &mut room, LOOSEST)?;
    Ok(found)
}
