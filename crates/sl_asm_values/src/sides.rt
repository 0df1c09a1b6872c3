//! What a wanted value says of one side of an operator, where something is known of the other side.

ghost use Rattle.std.specs.Prelude.{ℤ, ◌+ℤ◌, FitsSigned, IfSome};
ghost use Rattle.std.specs.Int.{w64, cast_unsigned, int_bit_and, int_bit_or};
ghost use Rattle.sl_asm_bits.specs.Known.{HasBits};
ghost use Rattle.sl_asm_values.specs.Sides.{AreSides};
ghost use Rattle.sl_spec_operators.specs.Operators.{left_by, wrapped};

use sl_asm_bits::{Known, nothing, operated, under, whole};
use sl_ast::expressions::BinaryOp;

/// What is known of `x` by `x & y`: it is 1 where that is, and the same where `y` is 1.
fn side_of_and(wanted: &Known, other: &Known) -> Known
    ensures { (x y : ℤ) → FitsSigned w64 x → HasBits other.now y
        → HasBits wanted.now (int_bit_and w64 x y) → HasBits result x }
{
    under(wanted.mask & (wanted.value | other.value), wanted.value)
}

/// What is known of `x` by `x | y`: it is 0 where that is, and the same where `y` is 0.
fn side_of_or(wanted: &Known, other: &Known) -> Known
    ensures { (x y : ℤ) → FitsSigned w64 x → HasBits other.now y
        → HasBits wanted.now (int_bit_or w64 x y) → HasBits result x }
{
    let zeros = (wanted.mask ^ wanted.value) | (other.mask ^ other.value);
    under(wanted.mask & zeros, wanted.value)
}

/// What is known of `x` by `x + y`, which is that less `y`.
fn side_of_sum(wanted: &Known, other: &Known) -> Known
    ensures { (x y : ℤ) → FitsSigned w64 x → HasBits other.now y
        → HasBits wanted.now (wrapped (x +ℤ y)) → HasBits result x }
{
    match operated(BinaryOp::Subtract, wanted, other) {
        Some(known) => known,
        None => nothing(),
    }
}

/// What is known of `x` by `x << n`, where the amount is known: its bits that are left.
fn side_of_shift(wanted: &Known, amount: &Known) -> Known
    ensures { (x y : ℤ) → FitsSigned w64 x → HasBits amount.now y
        → HasBits wanted.now (left_by x (cast_unsigned w64 y)) → HasBits result x }
{
    let Some(number) = whole(amount) else {
        return nothing();
    };
    let count = number.cast_unsigned();
    if count < 64 {
        under(wanted.mask >> count, wanted.value >> count)
    } else {
        nothing()
    }
}

/// What is known of the sides of an operator by the bits that its value is to have, each by what is
/// known of the other one; `None` for operators by which nothing is.
pub(crate) fn sides(
    op: BinaryOp,
    wanted: &Known,
    first: &Known,
    second: &Known,
) -> Option<(Known, Known)>
    ensures { IfSome result (λ both. AreSides op wanted.now first.now second.now both.0 both.1) }
{
    match op {
        BinaryOp::Add => Some((side_of_sum(wanted, second), side_of_sum(wanted, first))),
        BinaryOp::And => Some((side_of_and(wanted, second), side_of_and(wanted, first))),
        BinaryOp::Or => Some((side_of_or(wanted, second), side_of_or(wanted, first))),
        BinaryOp::ShiftLeft => Some((side_of_shift(wanted, second), nothing())),
        _ => None,
    }
}
