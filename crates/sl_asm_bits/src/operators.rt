//! What is known of the values of operators.

ghost use Rattle.std.specs.Prelude.{◌≡◌, ℕ, ℤ, ◌+ℤ◌, ◌-ℤ◌, ◌*ℤ◌, neg_ℤ, negsuc, IfSome};
ghost use Rattle.std.specs.Int.{w64, cast_unsigned};
ghost use Rattle.sl_spec_operators.specs.Operators.{left_by, prefix_value, right_by, value_of};
ghost use Rattle.sl_spec_operators.specs.Operators as spec;
ghost use Rattle.sl_spec_operators.specs.Operators.{wrapped};
ghost use Rattle.sl_asm_bits.specs.Known.{HasBits, IsLeft};

use crate::Known;
use crate::bitwise::{both, differing, either, flipped};
use crate::numbers::{exact, exact_bits, nothing, whole};
use crate::shifts::{lowered, raised};
use crate::sums::{product, sum};
use sl_ast::expressions::{BinaryOp, PrefixOp};
use sl_spec_operators::value_of;

/// What is known of `x + y`.
fn added(a: &Known, b: &Known) -> Known
    ensures { (x y : ℤ) → HasBits a.now x → HasBits b.now y → HasBits result (wrapped (x +ℤ y)) }
{
    sum(a, b, 0)
}

/// What is known of `x - y`, which is `x + ~y + 1`.
fn subtracted(a: &Known, b: &Known) -> Known
    ensures { (x y : ℤ) → HasBits a.now x → HasBits b.now y → HasBits result (wrapped (x -ℤ y)) }
{
    sum(a, &flipped(b), 1)
}

/// What is known of `-x`, which is `~x + 1`.
fn negated(a: &Known) -> Known
    ensures { (x : ℤ) → HasBits a.now x → HasBits result (wrapped (neg_ℤ x)) }
{
    sum(&exact_bits(0), &flipped(a), 1)
}

/// What is known of `~x`.
fn complement(a: &Known) -> Known
    ensures { (x : ℤ) → HasBits a.now x → HasBits result (negsuc 0 -ℤ x) }
{
    flipped(a)
}

/// What is known of `x * y`.
fn multiplied(a: &Known, b: &Known) -> Known
    ensures { (x y : ℤ) → HasBits a.now x → HasBits b.now y → HasBits result (wrapped (x *ℤ y)) }
{
    product(a, b)
}

/// What is known of a quotient: all where both numbers are known; `None` where it is one by 0.
fn divided(a: &Known, b: &Known) -> Option<Known>
    ensures { (x y : ℤ) → HasBits a.now x → HasBits b.now y
        → IfSome (spec.quotient x y) (IsLeft result) }
{
    let (Some(left), Some(right)) = (whole(a), whole(b)) else {
        return Some(nothing());
    };
    match value_of(BinaryOp::Divide, left, right) {
        Some(n) => Some(exact(n)),
        None => None,
    }
}

/// What is known of `x << y`: nothing until the amount is known.
fn shifted_left(a: &Known, b: &Known) -> Known
    ensures { (x y : ℤ) → HasBits a.now x → HasBits b.now y
        → HasBits result (left_by x (cast_unsigned w64 y)) }
{
    let Some(amount) = whole(b) else {
        return nothing();
    };
    let amount = amount.cast_unsigned();
    if amount < 64 {
        raised(a, amount as u32)
    } else {
        exact(0)
    }
}

/// What is known of `x >> y`: nothing until the amount is known.
fn shifted_right(a: &Known, b: &Known) -> Known
    ensures { (x y : ℤ) → HasBits a.now x → HasBits b.now y
        → HasBits result (right_by x (cast_unsigned w64 y)) }
{
    let Some(amount) = whole(b) else {
        return nothing();
    };
    let amount = amount.cast_unsigned();
    if amount < 64 {
        lowered(a, amount as u32)
    } else {
        lowered(a, 63)
    }
}

/// What is known of the value of an operator; `None` where it has none.
pub fn operated(op: BinaryOp, a: &Known, b: &Known) -> Option<Known>
    ensures { (x y : ℤ) → HasBits a.now x → HasBits b.now y
        → IfSome (value_of op x y) (IsLeft result) }
{
    match op {
        BinaryOp::Multiply => Some(multiplied(a, b)),
        BinaryOp::Divide => divided(a, b),
        BinaryOp::Add => Some(added(a, b)),
        BinaryOp::Subtract => Some(subtracted(a, b)),
        BinaryOp::ShiftLeft => Some(shifted_left(a, b)),
        BinaryOp::ShiftRight => Some(shifted_right(a, b)),
        BinaryOp::And => Some(both(a, b)),
        BinaryOp::Xor => Some(differing(a, b)),
        BinaryOp::Or => Some(either(a, b)),
        BinaryOp::WordAnd => Some(both(a, b)),
        BinaryOp::WordXor => Some(differing(a, b)),
        BinaryOp::WordOr => Some(either(a, b)),
        _ => None,
    }
}

/// What is known of the value of an operator before a number; `None` where it has none.
pub fn prefixed(op: PrefixOp, a: &Known) -> Option<Known>
    ensures { (x : ℤ) → HasBits a.now x → IfSome (prefix_value op x) (IsLeft result) }
{
    match op {
        PrefixOp::Negate => Some(negated(a)),
        PrefixOp::Complement => Some(complement(a)),
        PrefixOp::Not => None,
    }
}
