//! Varnodes and counts of bits.

ghost use Rattle.std.specs.Prelude.{◌≡◌, ◌^◌, ◌%◌, ◌+◌, ◌-◌, ◌*◌, IfOk};
ghost use Rattle.sl_faithful_code.specs.Operations as o;

use crate::sizes::sized;
use sl_pcode::{Place2, Varnode};
use sl_word::{Size, SpaceId};
use std::alloc::AllocError;

/// The constant `v` of `n` bytes.
pub fn constant(v: u64, n: Size) -> Varnode
    ensures { result ≡ o.constant v n }
{
    Varnode {
        place: Place2::Const,
        offset: v,
        size: n,
    }
}

/// `n` bytes of a space.
pub fn in_space(space: SpaceId, offset: u64, n: Size) -> Varnode
    ensures { result ≡ o.in_space space.0 offset n }
{
    Varnode {
        place: Place2::In(space),
        offset,
        size: n,
    }
}

/// An amount of a shift or of bytes, a distance, or a number of a space or a user operation.
pub fn amount(v: u64) -> Varnode
    ensures { result ≡ o.amount v }
{
    constant(v, sized(4))
}

/// The next temporary value. 2^32 of them would be want of memory.
pub(crate) fn next_temp(t: u32) -> Result<u32, AllocError>
    ensures { IfOk result (λ n. n ≡ t + 1) }
{
    t.checked_add(1).ok_or(AllocError)
}

/// The number modulo 256^n.
pub fn cut(v: u64, n: Size) -> u64
    ensures { result ≡ v % 256 ^ n.bytes }
{
    match 256u64.checked_pow(u32::from(n.bytes)) {
        Some(m) => v % m,
        None => v,
    }
}

/// The bits above a span of a value of `n` bytes.
pub fn above(n: Size, low: u64, count: u64) -> u64
    ensures { result ≡ 8 * n.bytes - (low + count) }
{
    (8 * u64::from(n.bytes))
        .saturating_sub(low)
        .saturating_sub(count)
}

/// All bits of a value of `n` bytes but `count`.
pub fn all_but(n: Size, count: u64) -> u64
    ensures { result ≡ 8 * n.bytes - count }
{
    (8 * u64::from(n.bytes)).saturating_sub(count)
}
