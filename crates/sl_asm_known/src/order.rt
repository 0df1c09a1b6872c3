//! The order in which the open bits of an expression are tried: first those of amounts of shifts
//! and of divisors; then each by the lowest bit of the value that hangs on it, its index in its
//! field and the shifts above it. So each bit that is fixed settles one more bit of the value,
//! where the expression is one to one.

ghost use Rattle.std.specs.Prelude.{◌≤◌, ◌<◌, List, IfSome, IsTrue};
ghost use Rattle.sl_asm_fit.specs.declared.Cell.{Cell as CellOf};
ghost use Rattle.sl_asm_known.specs.OpenBits.{IsOpenIn};

use crate::fields::WINDOW;
use crate::values::{known, place_of};
use crate::{Bit, Frame};
use sl_asm_bits::{Known, whole};
use sl_asm_fit::Cell;
use sl_ast::expressions::BinaryOp;
use sl_decode_leaves::token_of;
use sl_decode_plan::Value;
use sl_spec::{Field, FieldId, Tables, Token};
use sl_word::Endian;

/// The level of the lowest bit of a value. Amounts and divisors begin at 0, and so come before.
const LOWEST: u32 = 64;

/// An open bit, and the lowest bit of the value that hangs on it.
#[derive(Clone, Copy)]
struct Turn {
    level: u32,
    bit: Bit,
}

/// The one whose turn is first.
fn sooner(a: Option<Turn>, b: Option<Turn>) -> Option<Turn>
    ensures { (region : List CellOf) → IfSome a (λ x. IsOpenIn region x.bit)
        → IfSome b (λ x. IsOpenIn region x.bit) → IfSome result (λ x. IsOpenIn region x.bit) }
{
    match (a, b) {
        (Some(x), Some(y)) => { if y.level < x.level { Some(y) } else { Some(x) } }
        (Some(x), None) => Some(x),
        (None, b) => b,
    }
}

/// The bit of a token's integer at a position, as a bit of the bytes.
fn bit_in(token: &Token, at: u64, position: u32) -> Bit
    requires { at ≤ 272 }
    ensures { result.place < 8 }
{
    let size = u64::from(token.bits / 8);
    let byte = u64::from(position / 8) % size;
    let index = match token.endian {
        Endian::Little => at + byte,
        Endian::Big => at + (size - 1 - byte),
    };
    Bit {
        index: index as usize,
        place: position % 8,
    }
}

/// Whether the region leaves the bit open.
fn is_open(region: &[Cell], bit: &Bit) -> bool
    requires { bit.now.place < 8 }
    ensures { IsTrue result → IsOpenIn region.now bit.now }
{
    let index = bit.index;
    if index < region.len() {
        let cell = region[index];
        return u64::from(cell.mask) & (1 << bit.place) == 0;
    }
    false
}

/// The lowest open bit of a field of a token that stands at the place.
fn lowest_open(of: &Field, token: &Token, region: &[Cell], at: u64, level: u32) -> Option<Turn>
    requires { at ≤ 272 }
    ensures { IfSome result (λ x. IsOpenIn region.now x.bit) }
{
    for index in 0..u32::from(of.width()) {
        let bit = bit_in(token, at, u32::from(of.low) + index);
        if is_open(region, &bit) {
            return Some(Turn {
                level: level.saturating_add(index),
                bit,
            });
        }
    }
    None
}

/// The lowest open bit of a field; none of the context.
fn field_turn(t: &Tables, id: FieldId, region: &[Cell], at: u64, level: u32) -> Option<Turn>
    ensures { IfSome result (λ x. IsOpenIn region.now x.bit) }
{
    let of = t.fields.at(id.number() as usize)?;
    let token = token_of(t, of)?;
    if at > WINDOW {
        return None;
    }
    lowest_open(of, token, region, at, level)
}

/// How far the other side of a product moves a number up at least.
fn zeros_of(known: Option<Known>) -> u32 {
    match known {
        Some(k) => (!k.mask | k.value).trailing_zeros(),
        None => 0,
    }
}

/// How far a shift moves a number, if that is known.
fn amount_of(known: Option<Known>) -> u32 {
    match known {
        Some(k) => match whole(&k) {
            Some(n) => n.cast_unsigned().min(64) as u32,
            None => 0,
        },
        None => 0,
    }
}

/// The open bit whose turn is first, where the lowest bit of the value is at the level.
fn next_turn(t: &Tables, frame: &Frame, region: &[Cell], v: &Value, level: u32) -> Option<Turn>
    ensures { IfSome result (λ x. IsOpenIn region.now x.bit) }
{
    match v {
        Value::Field(id, place) => { field_turn(t, *id, region, place_of(frame, place), level) }
        Value::Plain(id, place) => { field_turn(t, *id, region, place_of(frame, place), level) }
        Value::Prefix(_, inner) => next_turn(t, frame, region, inner, level),
        Value::Binary(op, left, right) => {
            let (a, b) = levels(t, frame, region, *op, left, right, level);
            let first = next_turn(t, frame, region, left, a);
            let second = next_turn(t, frame, region, right, b);
            sooner(first, second)
        }
        _ => None,
    }
}

/// The levels of the lowest bits of both sides of an operator.
fn levels(
    t: &Tables,
    frame: &Frame,
    region: &[Cell],
    op: BinaryOp,
    left: &Value,
    right: &Value,
    level: u32,
) -> (u32, u32) {
    match op {
        BinaryOp::ShiftLeft => {
            let amount = amount_of(known(t, frame, region, right));
            (level.saturating_add(amount), 0)
        }
        BinaryOp::ShiftRight => {
            let amount = amount_of(known(t, frame, region, right));
            (level.saturating_sub(amount), 0)
        }
        BinaryOp::Divide => (level, 0),
        BinaryOp::Multiply => {
            let first = zeros_of(known(t, frame, region, left));
            let second = zeros_of(known(t, frame, region, right));
            (level.saturating_add(second), level.saturating_add(first))
        }
        _ => (level, level),
    }
}

/// The bit to be tried next, if the region leaves open a bit of a field of the expression.
pub fn next_bit(t: &Tables, frame: &Frame, region: &[Cell], v: &Value) -> Option<Bit>
    ensures { IfSome result (IsOpenIn region.now) }
{
    match next_turn(t, frame, region, v, LOWEST) {
        Some(turn) => Some(turn.bit),
        None => None,
    }
}
