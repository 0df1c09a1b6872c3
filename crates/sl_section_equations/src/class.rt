//! How operations tie sizes.

ghost use Rattle.std.specs.Prelude.{◌≡◌};
ghost use Rattle.sl_section_equations.specs.Equations.{class_of};

use sl_word::Op2;

/// How an operation on two values ties the sizes of its parts and of its result.
#[derive(Clone, Copy, Debug)]
pub enum Class {
    /// Both parts and the result have one size.
    Alike,
    /// The result has the size of the left part.
    Shift,
    /// Both parts have one size, the result has one byte.
    Test,
    /// All have one byte.
    Boolean,
}

pub(crate) fn class_of(op: Op2) -> Class
    ensures { result ≡ class_of op }
{
    match op {
        Op2::IntLeft | Op2::IntRight | Op2::IntSright => Class::Shift,
        Op2::IntEqual | Op2::IntNotEqual | Op2::IntLess | Op2::IntLessEqual => Class::Test,
        Op2::IntSless | Op2::IntSlessEqual => Class::Test,
        Op2::IntCarry | Op2::IntScarry | Op2::IntSborrow => Class::Test,
        Op2::BoolAnd | Op2::BoolOr | Op2::BoolXor => Class::Boolean,
        Op2::IntAdd | Op2::IntSub | Op2::IntMult | Op2::IntDiv | Op2::IntRem => Class::Alike,
        Op2::IntSdiv | Op2::IntSrem | Op2::IntAnd | Op2::IntOr | Op2::IntXor => Class::Alike,
        Op2::Subpiece => Class::Alike,
    }
}
