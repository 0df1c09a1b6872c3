//! Shifts by known amounts.

ghost use Rattle.std.specs.Prelude.{◌≡◌, ℕ, ℤ, ◌<◌, ◌+◌, ◌*◌, ◌%◌, ◌^◌, min};
ghost use Rattle.std.specs.Int.{bit_at, int_shr};
ghost use Rattle.sl_asm_bits.specs.Known.{Has, HasBits};

use crate::Known;
use crate::numbers::{ones, under};

/// What is known of `x << amount`: the lowest bits are 0.
pub fn raised(k: &Known, amount: u32) -> Known
    requires { amount < 64 }
    ensures { (n : ℕ) → Has k.now n → Has result (n * 2 ^ amount % 2 ^ 64) }
{
    under((k.mask << amount) | ones(amount), k.value << amount)
}

/// The bits moved down, copies of the highest one above them.
fn moved_down(bits: u64, amount: u32) -> u64
    requires { amount < 64 }
    ensures { (i : ℕ) → i < 64 → bit_at result i ≡ bit_at bits (min (i + amount) 63) }
{
    (bits.cast_signed() >> amount).cast_unsigned()
}

/// What is known of `x >> amount`, which keeps the sign.
pub fn lowered(k: &Known, amount: u32) -> Known
    requires { amount < 64 }
    ensures { (z : ℤ) → HasBits k.now z → HasBits result (int_shr z amount) }
{
    under(moved_down(k.mask, amount), moved_down(k.value, amount))
}
