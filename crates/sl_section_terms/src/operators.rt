//! Operators and functions as operations of p-code.

ghost use Rattle.std.specs.Prelude.{◌≡◌};
ghost use Rattle.sl_section_terms.specs.Operators.{binary_function, operation, order};
ghost use Rattle.sl_section_terms.specs.Operators.{prefix_operation};
ghost use Rattle.sl_section_terms.specs.Operators.{unary_function};

use sl_ast::expressions::{BinaryOp, PrefixOp};
use sl_section_flat::Order;
use sl_word::{Op1, Op2};

pub fn prefix_operation(op: PrefixOp) -> Op1
    ensures { result ≡ prefix_operation op }
{
    match op {
        PrefixOp::Negate => Op1::Int2Comp,
        PrefixOp::Complement => Op1::IntNegate,
        PrefixOp::Not => Op1::BoolNegate,
    }
}

/// The operation of an operator; `order` says which operand comes first.
pub fn operation(op: BinaryOp) -> Op2
    ensures { result ≡ operation op }
{
    match op {
        BinaryOp::Multiply => Op2::IntMult,
        BinaryOp::Divide => Op2::IntDiv,
        BinaryOp::Remainder => Op2::IntRem,
        BinaryOp::SignedDivide => Op2::IntSdiv,
        BinaryOp::SignedRemainder => Op2::IntSrem,
        BinaryOp::Add => Op2::IntAdd,
        BinaryOp::Subtract => Op2::IntSub,
        BinaryOp::ShiftLeft => Op2::IntLeft,
        BinaryOp::ShiftRight => Op2::IntRight,
        BinaryOp::SignedShiftRight => Op2::IntSright,
        BinaryOp::Less | BinaryOp::Greater => Op2::IntLess,
        BinaryOp::LessEqual | BinaryOp::GreaterEqual => Op2::IntLessEqual,
        BinaryOp::SignedLess | BinaryOp::SignedGreater => Op2::IntSless,
        BinaryOp::SignedLessEqual | BinaryOp::SignedGreaterEqual => Op2::IntSlessEqual,
        BinaryOp::Equal => Op2::IntEqual,
        BinaryOp::NotEqual => Op2::IntNotEqual,
        BinaryOp::And | BinaryOp::WordAnd => Op2::IntAnd,
        BinaryOp::Xor | BinaryOp::WordXor => Op2::IntXor,
        BinaryOp::Or | BinaryOp::WordOr => Op2::IntOr,
        BinaryOp::BooleanAnd => Op2::BoolAnd,
        BinaryOp::BooleanXor => Op2::BoolXor,
        BinaryOp::BooleanOr => Op2::BoolOr,
    }
}

/// The order in which the operation takes the operands.
pub fn order(op: BinaryOp) -> Order
    ensures { result ≡ order op }
{
    match op {
        BinaryOp::Greater => Order::Exchanged,
        BinaryOp::GreaterEqual => Order::Exchanged,
        BinaryOp::SignedGreater => Order::Exchanged,
        BinaryOp::SignedGreaterEqual => Order::Exchanged,
        _ => Order::AsWritten,
    }
}

/// The operation of a function of one argument.
pub fn unary_function(name: &[u8]) -> Option<Op1>
    ensures { result ≡ unary_function name.now }
{
    if name == b"zext".as_slice() {
        Some(Op1::IntZext)
    } else if name == b"sext".as_slice() {
        Some(Op1::IntSext)
    } else if name == b"popcount".as_slice() {
        Some(Op1::PopCount)
    } else if name == b"lzcount".as_slice() {
        Some(Op1::LzCount)
    } else {
        None
    }
}

/// The operation of a function of two arguments.
pub fn binary_function(name: &[u8]) -> Option<Op2>
    ensures { result ≡ binary_function name.now }
{
    if name == b"carry".as_slice() {
        Some(Op2::IntCarry)
    } else if name == b"scarry".as_slice() {
        Some(Op2::IntScarry)
    } else if name == b"sborrow".as_slice() {
        Some(Op2::IntSborrow)
    } else {
        None
    }
}
