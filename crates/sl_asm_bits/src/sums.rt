//! Sums, differences and products.

ghost use Rattle.std.specs.Prelude.{ℕ, ◌+◌, ◌*◌, ◌≤◌, ◌<◌, ◌%◌, ◌^◌};
ghost use Rattle.std.specs.Int.{bit_at};
ghost use Rattle.sl_asm_bits.specs.Known.{Has};

use crate::Known;
use crate::numbers::{exact_bits, under};
use crate::shifts::raised;

/// What is known of a sum with a carry. A bit of it is known where both bits are, and the carry
/// into it is the same for the least and for the greatest of the numbers.
pub fn sum(a: &Known, b: &Known, carry: u64) -> Known
    requires { carry ≤ 1 }
    ensures { (m n : ℕ) → m < 2 ^ 64 → n < 2 ^ 64 → Has a.now m → Has b.now n
        → Has result ((m + n + carry) % 2 ^ 64) }
{
    let least = a.value.wrapping_add(b.value).wrapping_add(carry);
    let first = a.value | !a.mask;
    let second = b.value | !b.mask;
    let greatest = first.wrapping_add(second).wrapping_add(carry);
    let shared = a.mask & b.mask;
    under(shared ^ (shared & (least ^ greatest)), least)
}

/// What is known of a number that is taken once or not at all, by a bit of another one.
fn row(k: &Known, index: u32, taken: &Known) -> Known
    requires { index < 64 }
    ensures { (m n : ℕ) → Has k.now m → Has taken.now n → Has result (bit_at m index * n) }
{
    let bit = 1u64 << index;
    if k.value & bit != 0 {
        return *taken;
    }
    if k.mask & bit != 0 {
        return exact_bits(0);
    }
    under(taken.mask ^ taken.value, 0)
}

/// What is known of a product: it is the sum of one number, moved up, for each bit of the other.
pub fn product(a: &Known, b: &Known) -> Known
    ensures { (m n : ℕ) → m < 2 ^ 64 → n < 2 ^ 64 → Has a.now m → Has b.now n
        → Has result (m * n % 2 ^ 64) }
{
    let mut all = exact_bits(0);
    for index in 0..64u32 {
        let next = row(a, index, &raised(b, index));
        all = sum(&all, &next, 0);
    }
    all
}
