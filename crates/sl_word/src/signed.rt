//! Two's complement: the signed reading of words, and the operations that need it.

ghost use Rattle.std.specs.Prelude.{◌≡◌, ◌*◌, ◌+◌, ◌-◌, ◌%◌, ◌^◌, ◌<◌, ◌≤◌, ◌↔◌, IsTrue, unsigned_abs, pos, neg_ℤ, ◌+ℤ◌, ◌-ℤ◌, int_lt, int_le, int_div, int_rem, not};
ghost use Rattle.std.specs.Int.{int_shr};
ghost use Rattle.sl_word.specs.Numbers.{signed_value, residue, fits_signed};

use crate::arithmetic::{difference, shifted_right, sum};
use crate::{Size, Word};

// The number is in the upper half of its size.
fn is_negative(word: Word) -> bool
    ensures { IsTrue result ↔ (256 ^ word.size.bytes ≤ 2 * word.bits) }
{
    word.bits > word.size.greatest() / 2
}

// The number without its sign.
fn magnitude(word: Word) -> u128
    ensures value { result ≡ unsigned_abs (signed_value word.size.bytes word.bits) }
    ensures below { result < 256 ^ word.size.bytes }
{
    if is_negative(word) {
        word.size.greatest() - word.bits + 1
    } else {
        word.bits
    }
}

// The negative of a number.
pub(crate) fn negative(magnitude: u128, size: Size) -> u128
    requires { magnitude < 256 ^ size.bytes }
    ensures value { result ≡ residue size.bytes (neg_ℤ (pos magnitude)) }
    ensures rest { 0 < magnitude → result + magnitude ≡ 256 ^ size.bytes }
    ensures below { result < 256 ^ size.bytes }
{
    let greatest = size.greatest();
    if magnitude == 0 {
        0
    } else {
        greatest - (magnitude - 1)
    }
}

// The number that adds up to 0 with `a`.
pub(crate) fn opposite(a: Word) -> u128
    ensures value { result ≡ (256 ^ a.size.bytes - a.bits) % 256 ^ a.size.bytes }
    ensures below { result < 256 ^ a.size.bytes }
{
    negative(a.bits, a.size)
}

// The quotient, rounded toward 0.
#[tactic(auto, using(crate::proofs::TwosComplement::kept, crate::proofs::TwosComplement::quotient_at_most))]
pub(crate) fn signed_quotient(a: Word, b: Word) -> u128
    requires equal { b.size.bytes ≡ a.size.bytes }
    requires divisor { 0 < b.bits }
    ensures value { result ≡ residue a.size.bytes (int_div (signed_value a.size.bytes a.bits) (signed_value a.size.bytes b.bits)) }
    ensures below { result < 256 ^ a.size.bytes }
{
    let quotient = magnitude(a) / magnitude(b);
    if is_negative(a) == is_negative(b) {
        quotient
    } else {
        negative(quotient, a.size)
    }
}

// The remainder, with the sign of `a`.
#[tactic(auto, using(crate::proofs::TwosComplement::kept, crate::proofs::TwosComplement::quotient_at_most))]
pub(crate) fn signed_remainder(a: Word, b: Word) -> u128
    requires equal { b.size.bytes ≡ a.size.bytes }
    requires divisor { 0 < b.bits }
    ensures value { result ≡ residue a.size.bytes (int_rem (signed_value a.size.bytes a.bits) (signed_value a.size.bytes b.bits)) }
    ensures below { result < 256 ^ a.size.bytes }
{
    let remainder = magnitude(a) % magnitude(b);
    if is_negative(a) {
        negative(remainder, a.size)
    } else {
        remainder
    }
}

// The quotient by a power of 2, rounded down: copies of the sign bit come in from above.
pub(crate) fn signed_shifted_right(a: Word, amount: u128) -> u128
    ensures value { result ≡ residue a.size.bytes (int_shr (signed_value a.size.bytes a.bits) amount) }
    ensures below { result < 256 ^ a.size.bytes }
{
    let greatest = a.size.greatest();
    if is_negative(a) {
        greatest - shifted_right(greatest - a.bits, amount)
    } else {
        shifted_right(a.bits, amount)
    }
}

#[tactic(auto, using(crate::proofs::Powers::bytes_mono, crate::proofs::TwosComplement::kept))]
pub(crate) fn sign_extended(a: Word, out: Size) -> u128
    requires { a.size.bytes ≤ out.bytes }
    ensures value { result ≡ residue out.bytes (signed_value a.size.bytes a.bits) }
    ensures below { result < 256 ^ out.bytes }
{
    let greatest = a.size.greatest();
    let greatest_out = out.greatest();
    if is_negative(a) {
        greatest_out - (greatest - a.bits)
    } else {
        a.bits
    }
}

pub(crate) fn is_signed_less(a: Word, b: Word) -> bool
    requires { b.size.bytes ≡ a.size.bytes }
    ensures { result ≡ int_lt (signed_value a.size.bytes a.bits) (signed_value a.size.bytes b.bits) }
{
    let negative = is_negative(a);
    if negative == is_negative(b) {
        a.bits < b.bits
    } else {
        negative
    }
}

pub(crate) fn is_signed_at_most(a: Word, b: Word) -> bool
    requires { b.size.bytes ≡ a.size.bytes }
    ensures { result ≡ int_le (signed_value a.size.bytes a.bits) (signed_value a.size.bytes b.bits) }
{
    !is_signed_less(b, a)
}

// Two numbers of one sign whose sum has the other.
#[tactic(auto, using(crate::proofs::Powers::bytes_even))]
pub(crate) fn is_signed_carry(a: Word, b: Word) -> bool
    requires { b.size.bytes ≡ a.size.bytes }
    ensures { result ≡ not (fits_signed a.size.bytes (signed_value a.size.bytes a.bits +ℤ signed_value a.size.bytes b.bits)) }
{
    let bits = sum(a, b);
    let total = Word { bits, size: a.size };
    if is_negative(a) {
        is_negative(b) && !is_negative(total)
    } else {
        !is_negative(b) && is_negative(total)
    }
}

// Two numbers of different signs whose difference hasn't the sign of the first.
#[tactic(auto, using(crate::proofs::Powers::bytes_even))]
pub(crate) fn is_signed_borrow(a: Word, b: Word) -> bool
    requires { b.size.bytes ≡ a.size.bytes }
    ensures { result ≡ not (fits_signed a.size.bytes (signed_value a.size.bytes a.bits -ℤ signed_value a.size.bytes b.bits)) }
{
    let bits = difference(a, b);
    let rest = Word { bits, size: a.size };
    if is_negative(a) {
        !is_negative(b) && !is_negative(rest)
    } else {
        is_negative(b) && is_negative(rest)
    }
}
