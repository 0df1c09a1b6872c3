//! Expressions of actions as values.

ghost use Rattle.std.specs.Prelude.{◌≡◌, ◌+◌, ℕ, IfOk, Some, Ok};
ghost use Rattle.sl_ast.specs.Views.{expression_of, operand_of_address};
ghost use Rattle.sl_decode_meaning.specs.Actions.{address_value};
ghost use Rattle.sl_decode_meaning.specs.Kinds.{kind_of};
ghost use Rattle.sl_decode_meaning.specs.Lookups.{given};
ghost use Rattle.sl_decode_meaning.specs.Values.{Site, expression_value, operated, prefixed, reads};
ghost use Rattle.sl_decode_leaves.specs.Extents.{extent, leaves_at};
ghost use Rattle.sl_decode_plan.specs.Values.{value_in};
ghost use Rattle.sl_spec.specs.declared.tables.Tables.{Tables as TablesOf};

use crate::values::Value;
use sl_ast::expressions::{BinaryOp, Expr, PrefixOp};
use sl_ast::patterns::Address;
use sl_decode_leaves::{Extent, JoinedLeaves, kind_of, place_of};
use sl_decode_meaning::Kind;
use sl_spec::{FieldId, Operand, Tables};
use sl_spec_operators::{literal, prefix_value, value_of};
use std::alloc::{AllocError, Global};

/// What a field gives whose token stands at the place.
#[tactic(auto, using(crate::proofs::LookLemmas::plain))]
fn read_field(t: &Tables, id: FieldId, place: Extent) -> Value
    ensures { (s : Site) → value_in t.now s result
        ≡ given t.now id s.bytes (s.at + extent place s.lengths) s.context }
{
    if t.attached.get(id).is_none() {
        return Value::Plain(id, place);
    }
    Value::Field(id, place)
}

/// What a name gives.
fn read_name(
    t: &Tables,
    operands: &[Operand],
    leaves: &JoinedLeaves,
    name: &[u8],
) -> Result<Value, AllocError>
    ensures { IfOk result (λ v. (s : Site) → value_in t.now s v
        ≡ reads t.now operands.now (leaves_at s.lengths leaves.now) s name.now) }
{
    match kind_of(t, operands, name)? {
        Kind::Field(id) => {
            let place = place_of(leaves, name)?;
            Ok(read_field(t, id, place))
        }
        Kind::Action(number) => Ok(Value::Named(number)),
        Kind::Start => Ok(Value::Start),
        Kind::Next => Ok(Value::Next),
        Kind::Table(_) => Ok(Value::Number(0)),
        Kind::Nothing => Ok(Value::Number(0)),
    }
}

/// An operator over two values, reckoned at once if both are numbers.
fn joined(alloc: Global, op: BinaryOp, left: Value, right: Value) -> Result<Value, AllocError>
    ensures { IfOk result (λ v. (t : TablesOf) (s : Site) → value_in t s v
        ≡ operated s.ctor op (value_in t s left) (value_in t s right)) }
{
    if let (Value::Number(a), Value::Number(b)) = (&left, &right) {
        if let Some(n) = value_of(op, *a, *b) {
            return Ok(Value::Number(n));
        }
    }
    let first = Box::new(alloc, left)?;
    Ok(Value::Binary(op, first, Box::new(alloc, right)?))
}

/// An operator before a value.
fn preceded(alloc: Global, op: PrefixOp, inner: Value) -> Result<Value, AllocError>
    ensures { IfOk result (λ v. (t : TablesOf) (s : Site) → value_in t s v
        ≡ prefixed s.ctor op (value_in t s inner)) }
{
    if let Value::Number(a) = &inner {
        if let Some(n) = prefix_value(op, *a) {
            return Ok(Value::Number(n));
        }
    }
    Ok(Value::Prefix(op, Box::new(alloc, inner)?))
}

/// What an expression of an action comes to.
#[tactic(auto, unfolding(sl_decode_meaning::specs::Values::expression_value))]
pub fn compile(
    alloc: Global,
    t: &Tables,
    operands: &[Operand],
    leaves: &JoinedLeaves,
    e: &Expr,
) -> Result<Value, AllocError>
    ensures { IfOk result (λ v. (s : Site) → value_in t.now s v ≡ expression_value s.ctor
        (reads t.now operands.now (leaves_at s.lengths leaves.now) s) (expression_of e.now)) }
{
    match e {
        Expr::Integer(n) => Ok(Value::Number(literal(*n))),
        Expr::Name(name) => {
            let value = read_name(t, operands, leaves, name)?;
            Ok(value)
        }
        Expr::Paren(inner) => compile(alloc, t, operands, leaves, inner),
        Expr::Prefix(op, inner) => {
            let inner = compile(alloc, t, operands, leaves, inner)?;
            let value = preceded(alloc, *op, inner)?;
            Ok(value)
        }
        Expr::Binary(op, left, right) => {
            let first = compile(alloc, t, operands, leaves, left)?;
            let second = compile(alloc, t, operands, leaves, right)?;
            let value = joined(alloc, *op, first, second)?;
            Ok(value)
        }
        Expr::Call(_, _) => Ok(Value::Undefined),
        Expr::Sized(_, _) => Ok(Value::Undefined),
        Expr::Dropped(_, _) => Ok(Value::Undefined),
        Expr::Bits(_, _, _) => Ok(Value::Undefined),
        Expr::Star(_, _, _) => Ok(Value::Undefined),
    }
}

/// What the address of a commit comes to.
pub fn address(
    t: &Tables,
    operands: &[Operand],
    leaves: &JoinedLeaves,
    of: &Address,
) -> Result<Value, AllocError>
    ensures { IfOk result (λ v. (s : Site) → value_in t.now s v ≡ address_value
        (reads t.now operands.now (leaves_at s.lengths leaves.now) s)
        (operand_of_address of.now)) }
{
    match of {
        Address::Name(name) => {
            let value = read_name(t, operands, leaves, name)?;
            Ok(value)
        }
        Address::Integer(n) => Ok(Value::Number(literal(*n))),
    }
}
