//! Numbers of which all, some or no bits are known.

ghost use Rattle.std.specs.Prelude.{◌≡◌, ◌≤◌, ◌-◌, ◌^◌, ◌↔◌, ◌⊎◌, ℕ, ℤ, IsTrue};
ghost use Rattle.std.specs.Prelude.{FitsSigned, IfSome};
ghost use Rattle.std.specs.Int.{w64, cast_unsigned};
ghost use Rattle.sl_cube.specs.Bits.{Agrees};
ghost use Rattle.sl_asm_bits.specs.Known.{Has, HasBits, IsSameBelow};

use crate::Known;

/// The bits of a number under a mask.
pub fn under(mask: u64, number: u64) -> Known
    ensures { (n : ℕ) → Agrees mask number n ↔ Has result n }
{
    Known {
        mask,
        value: number & mask,
    }
}

/// All bits of a number.
pub fn exact_bits(n: u64) -> Known
    ensures { Has result n }
{
    Known {
        mask: u64::MAX,
        value: n,
    }
}

/// All bits of a number in two's complement.
pub fn exact(n: i64) -> Known
    ensures has { HasBits result n }
    ensures only { (z : ℤ) → HasBits result z → z ≡ n }
{
    Known {
        mask: u64::MAX,
        value: n.cast_unsigned(),
    }
}

/// No bit.
pub fn nothing() -> Known
    ensures { (z : ℤ) → FitsSigned w64 z → HasBits result z }
{
    Known { mask: 0, value: 0 }
}

/// The number whose lowest bits are 1, `count` of them.
pub fn ones(count: u32) -> u64
    requires { count ≤ 64 }
    ensures { result ≡ 2 ^ count - 1 }
{
    if count == 64 {
        u64::MAX
    } else {
        (1u64 << count) - 1
    }
}

/// The lowest bits of a number, `count` of them.
pub fn low_bits(n: i64, count: u32) -> Known
    requires { count ≤ 64 }
    ensures { (z : ℤ) → FitsSigned w64 z → HasBits result z ↔ IsSameBelow count z n }
{
    under(ones(count), n.cast_unsigned())
}

/// What is known of a number of which one or the other is known.
pub fn joint(a: &Known, b: &Known) -> Known
    ensures left { (n : ℕ) → Has a.now n → Has result n }
    ensures right { (n : ℕ) → Has b.now n → Has result n }
{
    let shared = a.mask & b.mask;
    under(shared ^ (shared & (a.value ^ b.value)), a.value)
}

/// Whether no number has the bits of both.
pub fn are_apart(a: &Known, b: &Known) -> bool
    ensures { IsTrue result ↔ ((n : ℕ) → Has a.now n → Has b.now n → ⊥) }
{
    let shared = a.mask & b.mask;
    a.value & shared != b.value & shared
}

/// Whether each number that has the bits of `a` has those of `b`.
pub fn implies(a: &Known, b: &Known) -> bool
    ensures { IsTrue result ↔ ((n : ℕ) → Has a.now n → Has b.now n) }
{
    a.value & b.mask == b.value && a.mask & b.mask == b.mask
}

/// The number, if all its bits are known.
pub fn whole(k: &Known) -> Option<i64>
    ensures { IfSome result (λ n. (z : ℤ) → HasBits k.now z → z ≡ n) }
{
    if k.mask == u64::MAX {
        Some(k.value.cast_signed())
    } else {
        None
    }
}
