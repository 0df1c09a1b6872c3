//! Operations on words without a sign.

ghost use Rattle.std.specs.Prelude.{◌≡◌, ◌*◌, ◌+◌, ◌-◌, ◌/◌, ◌%◌, ◌^◌, ◌<◌, ◌≤◌, ◌↔◌, ◌⊎◌, IsTrue, bit_and, bit_or, bit_xor, pos, ◌-ℤ◌, count_ones};
ghost use Rattle.std.specs.Int.{from_bool};
ghost use Rattle.std.specs.Int.Count.{count_leading_zeros};
ghost use Rattle.sl_word.specs.Numbers.{residue};

use crate::signed::negative;
use crate::{Size, Word};

pub(crate) fn sum(a: Word, b: Word) -> u128
    requires { b.size.bytes ≡ a.size.bytes }
    ensures value { result ≡ (a.bits + b.bits) % 256 ^ a.size.bytes }
    ensures wraps { (result ≡ a.bits + b.bits) ⊎ (result + 256 ^ a.size.bytes ≡ a.bits + b.bits) }
    ensures below { result < 256 ^ a.size.bytes }
{
    a.size.low(a.bits.wrapping_add(b.bits))
}

pub(crate) fn product(a: Word, b: Word) -> u128
    ensures value { result ≡ (a.bits * b.bits) % 256 ^ a.size.bytes }
    ensures below { result < 256 ^ a.size.bytes }
{
    a.size.low(a.bits.wrapping_mul(b.bits))
}

pub(crate) fn difference(a: Word, b: Word) -> u128
    requires { b.size.bytes ≡ a.size.bytes }
    ensures value { result ≡ residue a.size.bytes (pos a.bits -ℤ pos b.bits) }
    ensures wraps { (result + b.bits ≡ a.bits) ⊎ (result + b.bits ≡ a.bits + 256 ^ a.size.bytes) }
    ensures below { result < 256 ^ a.size.bytes }
{
    if b.bits <= a.bits {
        a.bits - b.bits
    } else {
        negative(b.bits - a.bits, a.size)
    }
}

pub(crate) fn quotient(a: Word, b: Word) -> u128
    requires { 0 < b.bits }
    ensures value { result ≡ a.bits / b.bits }
    ensures below { result < 256 ^ a.size.bytes }
{
    a.bits / b.bits
}

pub(crate) fn remainder(a: Word, b: Word) -> u128
    requires { 0 < b.bits }
    ensures value { result ≡ a.bits % b.bits }
    ensures below { result < 256 ^ a.size.bytes }
{
    a.bits % b.bits
}

// Each bit turned.
pub(crate) fn complement(a: Word) -> u128
    ensures value { result ≡ 256 ^ a.size.bytes - 1 - a.bits }
    ensures below { result < 256 ^ a.size.bytes }
{
    a.size.greatest() - a.bits
}

pub(crate) fn bits_and(a: Word, b: Word) -> u128
    ensures value { result ≡ bit_and a.bits b.bits }
    ensures below { result < 256 ^ a.size.bytes }
{
    a.bits & b.bits
}

pub(crate) fn bits_or(a: Word, b: Word) -> u128
    requires { b.size.bytes ≡ a.size.bytes }
    ensures value { result ≡ bit_or a.bits b.bits }
    ensures below { result < 256 ^ a.size.bytes }
{
    a.bits | b.bits
}

pub(crate) fn bits_xor(a: Word, b: Word) -> u128
    requires { b.size.bytes ≡ a.size.bytes }
    ensures value { result ≡ bit_xor a.bits b.bits }
    ensures below { result < 256 ^ a.size.bytes }
{
    a.bits ^ b.bits
}

// Bits that are moved past the highest are lost.
pub(crate) fn shifted_left(a: Word, amount: u128) -> u128
    ensures value { result ≡ (a.bits * 2 ^ amount) % 256 ^ a.size.bytes }
    ensures below { result < 256 ^ a.size.bytes }
{
    let greatest = a.size.greatest();
    if amount < 128 {
        a.size.low(a.bits << amount as u32)
    } else {
        0
    }
}

pub(crate) fn shifted_right(bits: u128, amount: u128) -> u128
    ensures { result ≡ bits / 2 ^ amount }
{
    if amount < 128 {
        bits >> amount as u32
    } else {
        0
    }
}

pub(crate) fn zero_extended(a: Word, out: Size) -> u128
    requires { a.size.bytes ≤ out.bytes }
    ensures value { result ≡ a.bits }
    ensures below { result < 256 ^ out.bytes }
{
    a.bits
}

// 1 where the test holds, else 0.
pub(crate) fn truth(test: bool, out: Size) -> u128
    ensures value { result ≡ from_bool test }
    ensures below { result < 256 ^ out.bytes }
{
    u128::from(test)
}

pub(crate) fn is_carry(a: Word, b: Word) -> bool
    requires { b.size.bytes ≡ a.size.bytes }
    ensures { IsTrue result ↔ (256 ^ a.size.bytes ≤ a.bits + b.bits) }
{
    a.bits > a.size.greatest() - b.bits
}

// Some bytes of a number, from one of its bytes on.
pub(crate) fn subpiece(a: Word, from: u128, out: Size) -> u128
    requires { out.bytes + from ≤ a.size.bytes }
    ensures value { result ≡ a.bits / 256 ^ from % 256 ^ out.bytes }
    ensures below { result < 256 ^ out.bytes }
{
    out.low(shifted_right(a.bits, 8 * from))
}

pub(crate) fn one_bits(a: Word, out: Size) -> u128
    ensures value { result ≡ count_ones a.bits }
    ensures below { result < 256 ^ out.bytes }
{
    u128::from(a.bits.count_ones())
}

// The bits above the highest 1 of a number of this size.
pub(crate) fn leading_zero_bits(a: Word, out: Size) -> u128
    ensures value { result ≡ count_leading_zeros (8 * a.size.bytes) a.bits }
    ensures below { result < 256 ^ out.bytes }
{
    u128::from(a.bits.leading_zeros() - (128 - a.size.bit_count()))
}
