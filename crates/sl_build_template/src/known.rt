//! What the text says of a value.

ghost use Rattle.std.specs.Prelude.{◌≡◌, ◌^◌, nat_lt};
ghost use Rattle.sl_faithful_code.specs.Bits as bits;
ghost use Rattle.sl_section_flat.specs.Views.{symbol_of, term_of};

use sl_section_flat::{Order, Symbol, Term};
use sl_word::{Op1, Op2};

fn symbol_is_below(a: Symbol, count: u8) -> bool
    ensures { result ≡ bits.symbol_is_below (symbol_of a) count }
{
    match a {
        Symbol::BitRange(_, span) => span.count <= count,
        Symbol::Register(_) | Symbol::Local(_) | Symbol::Table(_) => false,
        Symbol::Attached(_, _) | Symbol::Value(_) | Symbol::Start => false,
        Symbol::Next | Symbol::Integer(_) => false,
    }
}

/// Whether a number has no bits but the lowest `count`.
#[tactic(auto, using(crate::proofs::Numbers::nothing_above, crate::proofs::Numbers::is_narrow))]
fn number_is_below(number: u64, count: u8) -> bool
    ensures { result ≡ nat_lt number (2 ^ count) }
{
    if count < 64 {
        return number >> u32::from(count) == 0;
    }
    true
}

/// Whether an operator is known to give no bits but the lowest `count`, where its operand is known
/// to have none, or isn't.
fn one_is_below(op: Op1, value: bool, count: u8) -> bool
    ensures { result ≡ bits.one_is_below op value count }
{
    match op {
        Op1::IntZext => value,
        Op1::BoolNegate => value && 0 < count,
        Op1::Copy | Op1::IntNegate | Op1::Int2Comp => false,
        Op1::IntSext | Op1::PopCount | Op1::LzCount => false,
    }
}

/// The same of two operands.
fn two_is_below(op: Op2, first: bool, second: bool, count: u8) -> bool
    ensures { result ≡ bits.two_is_below op first second count }
{
    match op {
        Op2::IntAnd | Op2::BoolAnd => first || second,
        Op2::IntOr | Op2::BoolOr | Op2::IntXor | Op2::BoolXor => first && second,
        Op2::IntEqual | Op2::IntNotEqual => 0 < count,
        Op2::IntLess | Op2::IntLessEqual | Op2::IntSless | Op2::IntSlessEqual => 0 < count,
        Op2::IntCarry | Op2::IntScarry | Op2::IntSborrow => 0 < count,
        Op2::IntAdd | Op2::IntSub | Op2::IntMult => false,
        Op2::IntDiv | Op2::IntRem | Op2::IntSdiv | Op2::IntSrem => false,
        Op2::IntLeft | Op2::IntRight | Op2::IntSright => false,
        Op2::Subpiece => false,
    }
}

/// The same of operands as they are written.
fn ordered_is_below(op: Op2, order: Order, left: bool, right: bool, count: u8) -> bool
    ensures { result ≡ bits.ordered_is_below op order left right count }
{
    match order {
        Order::AsWritten => two_is_below(op, left, right, count),
        Order::Exchanged => two_is_below(op, right, left, count),
    }
}

/// Whether the value of an expression is known to have no bits but the lowest `count`.
pub(crate) fn is_below(e: &Term, count: u8) -> bool
    ensures { result ≡ bits.is_below (term_of e.now) count }
{
    match e {
        Term::Number(v, _) => number_is_below(*v, count),
        Term::Sized(v, _, _) => number_is_below(*v, count),
        Term::Name(a, _) => symbol_is_below(*a, count),
        Term::Paren(e, _) => is_below(e, count),
        Term::Bits(_, span, _) => span.count <= count,
        Term::One(op, e, _) => one_is_below(*op, is_below(e, count), count),
        Term::Two(op, order, a, b, _) => {
            let (left, right) = (is_below(a, count), is_below(b, count));
            ordered_is_below(*op, *order, left, right, count)
        }
        Term::Kept(_, _, _) => false,
        Term::Dropped(_, _, _) => false,
        Term::Load(_, _, _, _) => false,
        Term::User(_, _, _) => false,
    }
}
