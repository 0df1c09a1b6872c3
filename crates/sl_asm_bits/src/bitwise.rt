//! Operators that go bit by bit.

ghost use Rattle.std.specs.Prelude.{ℕ, ℤ, ◌<◌, ◌^◌};
ghost use Rattle.std.specs.Int.{w64, bit_not, int_bit_and, int_bit_or, int_bit_xor};
ghost use Rattle.sl_asm_bits.specs.Known.{Has, HasBits};

use crate::Known;
use crate::numbers::under;

/// What is known of `x & y`: a bit that is 0 in one of them, too.
pub fn both(a: &Known, b: &Known) -> Known
    ensures { (x y : ℤ) → HasBits a.now x → HasBits b.now y
        → HasBits result (int_bit_and w64 x y) }
{
    let zeros = (a.mask ^ a.value) | (b.mask ^ b.value);
    under((a.mask & b.mask) | zeros, a.value & b.value)
}

/// What is known of `x | y`: a bit that is 1 in one of them, too.
pub fn either(a: &Known, b: &Known) -> Known
    ensures { (x y : ℤ) → HasBits a.now x → HasBits b.now y
        → HasBits result (int_bit_or w64 x y) }
{
    let ones = a.value | b.value;
    under((a.mask & b.mask) | ones, ones)
}

/// What is known of `x ^ y`: the bits that are known of both.
pub fn differing(a: &Known, b: &Known) -> Known
    ensures { (x y : ℤ) → HasBits a.now x → HasBits b.now y
        → HasBits result (int_bit_xor w64 x y) }
{
    under(a.mask & b.mask, a.value ^ b.value)
}

/// What is known of the bits of `~x`.
pub fn flipped(a: &Known) -> Known
    ensures { (n : ℕ) → n < 2 ^ 64 → Has a.now n → Has result (bit_not w64 n) }
{
    under(a.mask, !a.value)
}
