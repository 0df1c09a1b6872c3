//! Operations on words of at most 8 bytes, by numbers of 64 bits.

ghost use Rattle.std.specs.Prelude.{◌≡◌, ◌*◌, ◌+◌, ◌-◌, ◌/◌, ◌%◌, ◌^◌, ◌<◌, ◌≤◌, ◌↔◌};
ghost use Rattle.std.specs.Prelude.{bit_and, bit_or, bit_xor, pos, neg_ℤ, ◌-ℤ◌, int_lt, int_le};
ghost use Rattle.std.specs.Prelude.{IsTrue, IfSome};
ghost use Rattle.std.specs.Int.{from_bool, int_shr};
ghost use Rattle.sl_word.specs.Numbers.{residue, signed_value};
ghost use Rattle.sl_word.specs.Operations.{IsDivision, TakesSizes1, TakesSizes2, value1, value2};

use sl_word::{Narrow, Op1, Op2, Size};

// The number is in the upper half of its size.
fn is_negative(a: Narrow) -> bool
    ensures { IsTrue result ↔ (256 ^ a.size.bytes ≤ 2 * a.bits) }
{
    a.bits > greatest(a.size) / 2
}

// The greatest number of a size.
fn greatest(size: Size) -> u64
    requires { size.bytes ≤ 8 }
    ensures { result + 1 ≡ 256 ^ size.bytes }
{
    u64::MAX >> (64 - 8 * u32::from(size.bytes))
}

// The lowest bytes of a number.
fn low(value: u64, size: Size) -> u64
    requires { size.bytes ≤ 8 }
    ensures value { result ≡ value % 256 ^ size.bytes }
    ensures below { result < 256 ^ size.bytes }
{
    value & greatest(size)
}

/// The number that an operation makes of one. None where it isn't made here.
pub(crate) fn bits1(op: Op1, a: Narrow, out: Size) -> Option<u64>
    requires { TakesSizes1 op a.size.bytes out.bytes }
    ensures value { IfSome result (λ bits. bits ≡ value1 op a.size.bytes out.bytes a.bits) }
    ensures below { IfSome result (λ bits. bits < 256 ^ out.bytes) }
{
    match op {
        Op1::Copy | Op1::IntZext => Some(zero_extended(a, out)),
        Op1::IntNegate => Some(complement(a)),
        Op1::BoolNegate => Some(a.bits ^ 1),
        Op1::Int2Comp => Some(opposite(a)),
        Op1::IntSext => sign_extended(a, out),
        Op1::PopCount | Op1::LzCount => None,
    }
}

/// The number that an operation makes of two. None where it isn't made here, as no division is.
pub(crate) fn bits2(op: Op2, a: Narrow, b: Narrow, out: Size) -> Option<u64>
    requires { TakesSizes2 op a.size.bytes b.size.bytes out.bytes b.bits }
    ensures value { IfSome result (λ bits. bits ≡ value2 op a.size.bytes out.bytes a.bits b.bits) }
    ensures below { IfSome result (λ bits. bits < 256 ^ out.bytes) }
    ensures whole { IfSome result (λ bits. IsDivision op → ⊥) }
{
    match op {
        Op2::IntAdd => Some(sum(a, b)),
        Op2::IntSub => Some(difference(a, b)),
        Op2::IntMult => Some(product(a, b)),
        Op2::IntLeft => Some(shifted_left(a, b.bits)),
        Op2::IntRight => Some(shifted_right(a.bits, b.bits)),
        Op2::IntSright => Some(signed_shifted_right(a, b.bits)),
        Op2::IntAnd | Op2::BoolAnd => Some(bits_and(a, b)),
        Op2::IntOr | Op2::BoolOr => Some(bits_or(a, b)),
        Op2::IntXor | Op2::BoolXor => Some(bits_xor(a, b)),
        Op2::IntEqual => Some(truth(a.bits == b.bits, out)),
        Op2::IntNotEqual => Some(truth(a.bits != b.bits, out)),
        Op2::IntLess => Some(truth(a.bits < b.bits, out)),
        Op2::IntLessEqual => Some(truth(a.bits <= b.bits, out)),
        Op2::IntSless => Some(truth(is_signed_less(a, b), out)),
        Op2::IntSlessEqual => Some(truth(is_signed_at_most(a, b), out)),
        Op2::IntCarry => Some(truth(is_carry(a, b), out)),
        Op2::Subpiece => Some(subpiece(a, b.bits, out)),
        Op2::IntDiv | Op2::IntRem | Op2::IntSdiv | Op2::IntSrem => None,
        Op2::IntScarry | Op2::IntSborrow => None,
    }
}

fn sum(a: Narrow, b: Narrow) -> u64
    ensures value { result ≡ (a.bits + b.bits) % 256 ^ a.size.bytes }
    ensures below { result < 256 ^ a.size.bytes }
{
    low(a.bits.wrapping_add(b.bits), a.size)
}

fn product(a: Narrow, b: Narrow) -> u64
    ensures value { result ≡ (a.bits * b.bits) % 256 ^ a.size.bytes }
    ensures below { result < 256 ^ a.size.bytes }
{
    low(a.bits.wrapping_mul(b.bits), a.size)
}

// The negative of a number.
fn negative(magnitude: u64, size: Size) -> u64
    requires narrow { size.bytes ≤ 8 }
    requires inside { magnitude < 256 ^ size.bytes }
    ensures value { result ≡ residue size.bytes (neg_ℤ (pos magnitude)) }
    ensures below { result < 256 ^ size.bytes }
{
    let greatest = greatest(size);
    if magnitude == 0 {
        0
    } else {
        greatest - (magnitude - 1)
    }
}

// The number that adds up to 0 with `a`.
fn opposite(a: Narrow) -> u64
    ensures value { result ≡ (256 ^ a.size.bytes - a.bits) % 256 ^ a.size.bytes }
    ensures below { result < 256 ^ a.size.bytes }
{
    negative(a.bits, a.size)
}

fn difference(a: Narrow, b: Narrow) -> u64
    requires { b.size.bytes ≡ a.size.bytes }
    ensures value { result ≡ residue a.size.bytes (pos a.bits -ℤ pos b.bits) }
    ensures below { result < 256 ^ a.size.bytes }
{
    if b.bits <= a.bits {
        a.bits - b.bits
    } else {
        negative(b.bits - a.bits, a.size)
    }
}

// Each bit turned.
fn complement(a: Narrow) -> u64
    ensures value { result ≡ 256 ^ a.size.bytes - 1 - a.bits }
    ensures below { result < 256 ^ a.size.bytes }
{
    greatest(a.size) - a.bits
}

fn bits_and(a: Narrow, b: Narrow) -> u64
    ensures value { result ≡ bit_and a.bits b.bits }
    ensures below { result < 256 ^ a.size.bytes }
{
    a.bits & b.bits
}

fn bits_or(a: Narrow, b: Narrow) -> u64
    requires { b.size.bytes ≡ a.size.bytes }
    ensures value { result ≡ bit_or a.bits b.bits }
    ensures below { result < 256 ^ a.size.bytes }
{
    a.bits | b.bits
}

fn bits_xor(a: Narrow, b: Narrow) -> u64
    requires { b.size.bytes ≡ a.size.bytes }
    ensures value { result ≡ bit_xor a.bits b.bits }
    ensures below { result < 256 ^ a.size.bytes }
{
    a.bits ^ b.bits
}

// Bits that are moved past the highest are lost.
fn shifted_left(a: Narrow, amount: u64) -> u64
    ensures value { result ≡ (a.bits * 2 ^ amount) % 256 ^ a.size.bytes }
    ensures below { result < 256 ^ a.size.bytes }
{
    if amount < 64 {
        low(a.bits << amount as u32, a.size)
    } else {
        0
    }
}

fn shifted_right(bits: u64, amount: u64) -> u64
    ensures { result ≡ bits / 2 ^ amount }
{
    if amount < 64 {
        bits >> amount as u32
    } else {
        0
    }
}

// The quotient by a power of 2, rounded down: copies of the sign bit come in from above.
fn signed_shifted_right(a: Narrow, amount: u64) -> u64
    ensures value { result ≡ residue a.size.bytes (int_shr (signed_value a.size.bytes a.bits) amount) }
    ensures below { result < 256 ^ a.size.bytes }
{
    let greatest = greatest(a.size);
    if is_negative(a) {
        greatest - shifted_right(greatest - a.bits, amount)
    } else {
        shifted_right(a.bits, amount)
    }
}

fn zero_extended(a: Narrow, out: Size) -> u64
    requires { a.size.bytes ≤ out.bytes }
    ensures value { result ≡ a.bits }
    ensures below { result < 256 ^ out.bytes }
{
    a.bits
}

// The same signed number with more bytes, where they are 8 at most.
#[tactic(auto, using(crate::proofs::NarrowLemmas::bytes_mono, crate::proofs::NarrowLemmas::kept))]
fn sign_extended(a: Narrow, out: Size) -> Option<u64>
    requires { a.size.bytes ≤ out.bytes }
    ensures value { IfSome result (λ bits. bits ≡ residue out.bytes (signed_value a.size.bytes a.bits)) }
    ensures below { IfSome result (λ bits. bits < 256 ^ out.bytes) }
{
    if !out.is_narrow() {
        return None;
    }
    let greatest_own = greatest(a.size);
    let greatest_out = greatest(out);
    if is_negative(a) {
        Some(greatest_out - (greatest_own - a.bits))
    } else {
        Some(a.bits)
    }
}

// 1 where the test holds, else 0.
fn truth(test: bool, out: Size) -> u64
    ensures value { result ≡ from_bool test }
    ensures below { result < 256 ^ out.bytes }
{
    u64::from(test)
}

fn is_carry(a: Narrow, b: Narrow) -> bool
    requires { b.size.bytes ≡ a.size.bytes }
    ensures { IsTrue result ↔ (256 ^ a.size.bytes ≤ a.bits + b.bits) }
{
    a.bits > greatest(a.size) - b.bits
}

fn is_signed_less(a: Narrow, b: Narrow) -> bool
    requires { b.size.bytes ≡ a.size.bytes }
    ensures { result ≡ int_lt (signed_value a.size.bytes a.bits) (signed_value a.size.bytes b.bits) }
{
    let negative = is_negative(a);
    if negative == is_negative(b) {
        a.bits < b.bits
    } else {
        negative
    }
}

fn is_signed_at_most(a: Narrow, b: Narrow) -> bool
    requires { b.size.bytes ≡ a.size.bytes }
    ensures { result ≡ int_le (signed_value a.size.bytes a.bits) (signed_value a.size.bytes b.bits) }
{
    !is_signed_less(b, a)
}

// Some bytes of a number, from one of its bytes on.
fn subpiece(a: Narrow, from: u64, out: Size) -> u64
    requires { out.bytes + from ≤ a.size.bytes }
    ensures value { result ≡ a.bits / 256 ^ from % 256 ^ out.bytes }
    ensures below { result < 256 ^ out.bytes }
{
    low(shifted_right(a.bits, 8 * from), out)
}
