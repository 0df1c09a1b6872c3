//! Values of actions at a node.

ghost use Rattle.std.specs.Prelude.{◌≡◌, Ok};
ghost use Rattle.sl_decode_meaning.specs.Values.{operated, prefixed};
ghost use Rattle.sl_decode_plan.specs.Values.{site_of, value_in};

use sl_ast::expressions::{BinaryOp, PrefixOp};
use sl_decode_leaves::{Extent, extent_of, given, own};
use sl_decode_meaning::Fault;
use sl_spec::{CtorId, FieldId, Tables};
use sl_spec_operators::{literal, prefix_value, value_of};

/// What an expression of an action comes to.
#[derive(Drop)]
pub enum Value {
    Number(i64),
    /// `inst_start`
    Start,
    /// `inst_next`
    Next,
    /// The action name of this number.
    Named(u32),
    /// A field, and the place of its token in bytes from the node's own.
    Field(FieldId, Extent),
    /// The same of a field that nothing is attached to.
    Plain(FieldId, Extent),
    Prefix(PrefixOp, Box<Value>),
    Binary(BinaryOp, Box<Value>, Box<Value>),
    /// An expression of a form that actions lack.
    Undefined,
}

/// What values hang on.
#[derive(Clone, Copy)]
pub struct Scope<'a> {
    pub ctor: CtorId,
    /// The bytes from the instruction's first on.
    pub bytes: &'a [u8],
    /// The node's place, in bytes from the instruction's start.
    pub at: u32,
    /// The lengths of the node's table operands that are known.
    pub lengths: &'a [u32],
    pub context: u64,
    /// The address of the instruction.
    pub start: u64,
    /// The address behind it.
    pub next: u64,
    /// The values of the node's action names so far.
    pub values: &'a [i64],
}

/// The value of an operator; an action of the constructor has none where a divisor is 0.
fn operated(ctor: CtorId, op: BinaryOp, left: i64, right: i64) -> Result<i64, Fault>
    ensures { result ≡ operated ctor op (Ok left) (Ok right) }
{
    match value_of(op, left, right) {
        Some(value) => Ok(value),
        None => Err(Fault::ActionDivide { constructor: ctor }),
    }
}

fn prefixed(ctor: CtorId, op: PrefixOp, inner: i64) -> Result<i64, Fault>
    ensures { result ≡ prefixed ctor op (Ok inner) }
{
    match prefix_value(op, inner) {
        Some(value) => Ok(value),
        None => Err(Fault::ActionDivide { constructor: ctor }),
    }
}

/// The value, or the first fault from left to right.
pub fn reckon(t: &Tables, scope: &Scope, v: &Value) -> Result<i64, Fault>
    ensures { result ≡ value_in t.now (site_of scope.now) v.now }
{
    match v {
        Value::Number(n) => Ok(*n),
        Value::Start => Ok(literal(scope.start)),
        Value::Next => Ok(literal(scope.next)),
        Value::Named(number) => Ok(scope.values.get(*number as usize).copied().unwrap_or(0)),
        Value::Field(id, place) => {
            let at = u64::from(scope.at).saturating_add(extent_of(place, scope.lengths));
            given(t, *id, scope.bytes, at, scope.context)
        }
        Value::Plain(id, place) => {
            let at = u64::from(scope.at).saturating_add(extent_of(place, scope.lengths));
            Ok(own(t, *id, scope.bytes, at, scope.context))
        }
        Value::Prefix(op, inner) => {
            let inner = reckon(t, scope, inner)?;
            prefixed(scope.ctor, *op, inner)
        }
        Value::Binary(op, left, right) => {
            let left = reckon(t, scope, left)?;
            let right = reckon(t, scope, right)?;
            operated(scope.ctor, *op, left, right)
        }
        Value::Undefined => Err(Fault::ActionDivide {
            constructor: scope.ctor,
        }),
    }
}
