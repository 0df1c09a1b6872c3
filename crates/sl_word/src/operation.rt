//! The operations of p-code on words.

ghost use Rattle.std.specs.Prelude.{◌≡◌, ◌^◌, ◌<◌, ◌↔◌, IsTrue, IsErr, IfOk};
ghost use Rattle.sl_word.specs.Operations.{value1, value2, TakesSizes1, TakesSizes2, IsDivision};
ghost use Rattle.sl_word.specs.Operations.{EqualSizes, TestSizes, ByteSizes};

use crate::arithmetic::{
    bits_and, bits_or, bits_xor, complement, difference, is_carry, leading_zero_bits, one_bits,
    product, quotient, remainder, shifted_left, shifted_right, subpiece, sum, truth, zero_extended,
};
use crate::signed::{
    is_signed_at_most, is_signed_borrow, is_signed_carry, is_signed_less, opposite, sign_extended,
    signed_quotient, signed_remainder, signed_shifted_right,
};
use crate::{Size, Word};

/// An operation on one word, by its name in the P-Code Reference Manual.
///
/// n is the size of the operand in bytes.
#[derive(Clone, Copy, Debug, PartialEq, Eq)]
pub enum Op1 {
    /// The word itself.
    Copy,
    /// `~`: each bit turned.
    IntNegate,
    /// Prefix `-`: the number that adds up to 0 with the word, modulo 256^n.
    Int2Comp,
    /// `!`, of one byte: its lowest bit turned.
    BoolNegate,
    /// `zext`: the same number with more bytes, or as many.
    IntZext,
    /// `sext`: the same signed number with more bytes, or as many.
    IntSext,
    /// `popcount`: how many bits are 1.
    PopCount,
    /// `lzcount`: how many bits are above the highest 1; for 0 all 8n.
    LzCount,
}

/// An operation on two words, by its name in the P-Code Reference Manual.
///
/// n is the size of the first operand in bytes. Signed operands are read as two's complement.
#[derive(Clone, Copy, Debug, PartialEq, Eq)]
pub enum Op2 {
    /// `+`, modulo 256^n.
    IntAdd,
    /// `-`, modulo 256^n.
    IntSub,
    /// `*`, modulo 256^n.
    IntMult,
    /// `/`: the quotient, rounded down.
    IntDiv,
    /// `%`: the remainder.
    IntRem,
    /// `s/`: the signed quotient, rounded toward 0.
    IntSdiv,
    /// `s%`: the signed remainder, with the sign of the first operand.
    IntSrem,
    /// `<<`: bits move up; from 8n on nothing is left.
    IntLeft,
    /// `>>`: bits move down; from 8n on nothing is left.
    IntRight,
    /// `s>>`: bits move down below copies of the sign bit; from 8n on those alone are left.
    IntSright,
    /// `&`.
    IntAnd,
    /// `|`.
    IntOr,
    /// `^`.
    IntXor,
    /// `==`. Each test gives 1 where it holds, else 0, in one byte.
    IntEqual,
    /// `!=`.
    IntNotEqual,
    /// `<`.
    IntLess,
    /// `<=`.
    IntLessEqual,
    /// `s<`.
    IntSless,
    /// `s<=`.
    IntSlessEqual,
    /// `carry`: the sum is 256^n or more.
    IntCarry,
    /// `scarry`: the signed sum is out of the range of n bytes.
    IntScarry,
    /// `sborrow`: the signed difference is out of the range of n bytes.
    IntSborrow,
    /// `&&`, of bytes.
    BoolAnd,
    /// `||`, of bytes.
    BoolOr,
    /// `^^`, of bytes.
    BoolXor,
    /// The bytes of the first operand from one on, which the second operand says; 0 is the least
    /// significant one.
    Subpiece,
}

/// A division has no value, since the divisor is 0.
#[derive(Clone, Copy, Debug, PartialEq, Eq)]
pub struct DivideByZero;

impl Op1 {
    /// Whether the operation takes an operand of this size and gives a result of the size `out`.
    pub fn takes_sizes(self, a: Size, out: Size) -> bool
        ensures { IsTrue result ↔ TakesSizes1 self a.bytes out.bytes }
    {
        match self {
            Op1::Copy | Op1::IntNegate | Op1::Int2Comp => out.bytes == a.bytes,
            Op1::BoolNegate => a.bytes == 1 && out.bytes == 1,
            Op1::IntZext | Op1::IntSext => a.bytes <= out.bytes,
            Op1::PopCount | Op1::LzCount => true,
        }
    }
}

impl Op2 {
    /// Whether the operation takes operands of these sizes, the second of which is the number `b_bits`,
    /// and gives a result of the size `out`. The number counts for `Subpiece` alone.
    pub fn takes_sizes(self, a: Size, b: Size, b_bits: u64, out: Size) -> bool
        ensures { IsTrue result ↔ TakesSizes2 self a.bytes b.bytes out.bytes b_bits }
    {
        match self {
            Op2::IntAdd | Op2::IntSub | Op2::IntMult | Op2::IntDiv | Op2::IntRem => {
                are_equal(a, b, out)
            }
            Op2::IntSdiv | Op2::IntSrem | Op2::IntAnd | Op2::IntOr | Op2::IntXor => {
                are_equal(a, b, out)
            }
            Op2::IntLeft | Op2::IntRight | Op2::IntSright => out.bytes == a.bytes,
            Op2::IntEqual | Op2::IntNotEqual | Op2::IntLess | Op2::IntLessEqual => {
                are_of_a_test(a, b, out)
            }
            Op2::IntSless | Op2::IntSlessEqual => are_of_a_test(a, b, out),
            Op2::IntCarry | Op2::IntScarry | Op2::IntSborrow => are_of_a_test(a, b, out),
            Op2::BoolAnd | Op2::BoolOr | Op2::BoolXor => are_bytes(a, b, out),
            Op2::Subpiece => u64::from(out.bytes) <= u64::from(a.bytes).saturating_sub(b_bits),
        }
    }

    fn is_division(self) -> bool
        ensures { IsTrue result ↔ IsDivision self }
    {
        matches!(
            self,
            Op2::IntDiv | Op2::IntRem | Op2::IntSdiv | Op2::IntSrem
        )
    }
}

fn are_equal(a: Size, b: Size, out: Size) -> bool
    ensures { IsTrue result ↔ EqualSizes a.bytes b.bytes out.bytes }
{
    b.bytes == a.bytes && out.bytes == a.bytes
}

fn are_of_a_test(a: Size, b: Size, out: Size) -> bool
    ensures { IsTrue result ↔ TestSizes a.bytes b.bytes out.bytes }
{
    b.bytes == a.bytes && out.bytes == 1
}

fn are_bytes(a: Size, b: Size, out: Size) -> bool
    ensures { IsTrue result ↔ ByteSizes a.bytes b.bytes out.bytes }
{
    a.bytes == 1 && b.bytes == 1 && out.bytes == 1
}

/// The result of an operation on one word, of the size `out`.
pub fn apply1(op: Op1, a: Word, out: Size) -> Word
    requires { TakesSizes1 op a.size.bytes out.bytes }
    ensures size { result.size ≡ out }
    ensures value { result.bits ≡ value1 op a.size.bytes out.bytes a.bits }
{
    let bits = bits1(op, a, out);
    Word { bits, size: out }
}

/// The result of an operation on two words, of the size `out`.
pub fn apply2(op: Op2, a: Word, b: Word, out: Size) -> Result<Word, DivideByZero>
    requires { TakesSizes2 op a.size.bytes b.size.bytes out.bytes b.bits }
    ensures divide_by_zero { IsErr result ↔ (IsDivision op × (b.bits ≡ 0)) }
    ensures size { IfOk result (λ word. word.size ≡ out) }
    ensures value { IfOk result (λ word. word.bits ≡ value2 op a.size.bytes out.bytes a.bits b.bits) }
{
    if op.is_division() && b.bits == 0 {
        return Err(DivideByZero);
    }
    let bits = bits2(op, a, b, out);
    Ok(Word { bits, size: out })
}

fn bits1(op: Op1, a: Word, out: Size) -> u128
    requires { TakesSizes1 op a.size.bytes out.bytes }
    ensures value { result ≡ value1 op a.size.bytes out.bytes a.bits }
    ensures below { result < 256 ^ out.bytes }
{
    match op {
        Op1::Copy => a.bits,
        Op1::IntNegate => complement(a),
        Op1::Int2Comp => opposite(a),
        Op1::BoolNegate => a.bits ^ 1,
        Op1::IntZext => zero_extended(a, out),
        Op1::IntSext => sign_extended(a, out),
        Op1::PopCount => one_bits(a, out),
        Op1::LzCount => leading_zero_bits(a, out),
    }
}

fn bits2(op: Op2, a: Word, b: Word, out: Size) -> u128
    requires sizes { TakesSizes2 op a.size.bytes b.size.bytes out.bytes b.bits }
    requires divisor { IsDivision op → 0 < b.bits }
    ensures value { result ≡ value2 op a.size.bytes out.bytes a.bits b.bits }
    ensures below { result < 256 ^ out.bytes }
{
    match op {
        Op2::IntAdd => sum(a, b),
        Op2::IntSub => difference(a, b),
        Op2::IntMult => product(a, b),
        Op2::IntDiv => quotient(a, b),
        Op2::IntRem => remainder(a, b),
        Op2::IntSdiv => signed_quotient(a, b),
        Op2::IntSrem => signed_remainder(a, b),
        Op2::IntLeft => shifted_left(a, b.bits),
        Op2::IntRight => shifted_right(a.bits, b.bits),
        Op2::IntSright => signed_shifted_right(a, b.bits),
        Op2::IntAnd | Op2::BoolAnd => bits_and(a, b),
        Op2::IntOr | Op2::BoolOr => bits_or(a, b),
        Op2::IntXor | Op2::BoolXor => bits_xor(a, b),
        Op2::IntEqual => truth(a.bits == b.bits, out),
        Op2::IntNotEqual => truth(a.bits != b.bits, out),
        Op2::IntLess => truth(a.bits < b.bits, out),
        Op2::IntLessEqual => truth(a.bits <= b.bits, out),
        Op2::IntSless => truth(is_signed_less(a, b), out),
        Op2::IntSlessEqual => truth(is_signed_at_most(a, b), out),
        Op2::IntCarry => truth(is_carry(a, b), out),
        Op2::IntScarry => truth(is_signed_carry(a, b), out),
        Op2::IntSborrow => truth(is_signed_borrow(a, b), out),
        Op2::Subpiece => subpiece(a, b.bits, out),
    }
}
