//! The operators of constraints and of disassembly actions.

ghost use Rattle.std.specs.Prelude.{◌≡◌, pos};
ghost use Rattle.sl_spec_operators.specs.Operators.{left_by, prefix_value, quotient, right_by};
ghost use Rattle.sl_spec_operators.specs.Operators.{value_of, wrapped};

use sl_ast::expressions::{BinaryOp, PrefixOp};

/// A literal in 64-bit two's complement.
pub fn literal(n: u64) -> i64
    ensures { result ≡ wrapped (pos n) }
{
    n.cast_signed()
}

/// The quotient rounded toward zero, in 64-bit two's complement; none by 0.
fn quotient(a: i64, b: i64) -> Option<i64>
    ensures { result ≡ quotient a b }
{
    if b == 0 {
        None
    } else {
        Some(a.wrapping_div(b))
    }
}

/// A number whose bits are moved up; 0 from 64 places on.
fn left_by(a: i64, amount: u64) -> i64
    ensures { result ≡ left_by a amount }
{
    if amount < 64 { a << amount } else { 0 }
}

/// A number whose bits are moved down with its sign kept.
fn right_by(a: i64, amount: u64) -> i64
    ensures { result ≡ right_by a amount }
{
    if amount < 64 { a >> amount } else { a >> 63 }
}

/// What an operator gives, in 64-bit two's complement. None where a divisor is 0, and where neither
/// constraints nor actions have such an operator.
#[tactic(auto, using(std::proofs::lemmas::Int::wraps))]
pub fn value_of(op: BinaryOp, a: i64, b: i64) -> Option<i64>
    ensures { result ≡ value_of op a b }
{
    match op {
        BinaryOp::Multiply => Some(a.wrapping_mul(b)),
        BinaryOp::Divide => quotient(a, b),
        BinaryOp::Add => Some(a.wrapping_add(b)),
        BinaryOp::Subtract => Some(a.wrapping_sub(b)),
        BinaryOp::ShiftLeft => Some(left_by(a, b.cast_unsigned())),
        BinaryOp::ShiftRight => Some(right_by(a, b.cast_unsigned())),
        BinaryOp::And | BinaryOp::WordAnd => Some(a & b),
        BinaryOp::Xor | BinaryOp::WordXor => Some(a ^ b),
        BinaryOp::Or | BinaryOp::WordOr => Some(a | b),
        _ => None,
    }
}

/// What an operator before a value gives, in 64-bit two's complement.
#[tactic(auto, using(std::proofs::lemmas::Int::wraps))]
pub fn prefix_value(op: PrefixOp, a: i64) -> Option<i64>
    ensures { result ≡ prefix_value op a }
{
    match op {
        PrefixOp::Negate => Some(a.wrapping_neg()),
        PrefixOp::Complement => Some(!a),
        PrefixOp::Not => None,
    }
}
