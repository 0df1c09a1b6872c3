//! Masks, which are numbers of 64 bits.

ghost use Rattle.std.specs.Prelude.{◌≡◌, ◌≤◌, ◌+◌, ◌*◌, ◌%◌, ◌^◌, nat_le, nat_lt};
ghost use Rattle.sl_faithful_code.specs.Bits as b;

use crate::varnodes::greatest;
use sl_build_template::constant;
use sl_pcode::{Place2, Varnode};
use sl_section_flat::Span;
use sl_word::Size;

/// Whether a span ends at this bit or below.
fn ends_within(span: Span, bits: u64) -> bool
    ensures { result ≡ nat_le (span.low + span.count) bits }
{
    match span.low.checked_add(u64::from(span.count)) {
        Some(end) => end <= bits,
        None => false,
    }
}

/// Whether a value of `n` bytes has bits above a span.
pub(crate) fn ends_below(span: Span, n: Size) -> bool
    ensures { result ≡ nat_lt (span.low + span.count) (8 * n.bytes) }
{
    match span.low.checked_add(u64::from(span.count)) {
        Some(end) => end < 8 * u64::from(n.bytes),
        None => false,
    }
}

/// Whether a span lies in `n` bytes, and a constant has so many.
pub(crate) fn has_mask(n: Size, span: Span) -> bool
    ensures { result ≡ b.has_mask n span.low span.count }
{
    n.bytes <= 8 && ends_within(span, 8 * u64::from(n.bytes))
}

/// The lowest `count` bits.
pub(crate) fn ones(count: u64) -> u64
    requires { count ≤ 64 }
    ensures { result ≡ b.ones count }
{
    if count == 0 {
        return 0;
    }
    u64::MAX >> (64 - count)
}

/// The bits of a span.
pub(crate) fn mask(span: Span) -> u64
    requires { span.low + span.count ≤ 64 }
    ensures { result ≡ b.mask span.low span.count }
{
    ones(u64::from(span.count) + span.low) - ones(span.low)
}

/// The other bits of a value of `n` bytes.
pub(crate) fn others(n: Size, span: Span) -> Varnode
    requires few { n.bytes ≤ 8 }
    requires inside { span.low + span.count ≤ 8 * n.bytes }
    ensures { result ≡ b.others n span.low span.count }
{
    constant(greatest(n) - mask(span), n)
}

/// The lowest bits of a number at the place of a span.
pub(crate) fn placed(x: u64, span: Span) -> u64
    requires { span.low + span.count ≤ 64 }
    ensures { result ≡ x % 2 ^ span.count * 2 ^ span.low }
{
    let bits = x & ones(u64::from(span.count));
    if span.low < 64 { bits << span.low } else { 0 }
}

/// The number that a varnode is.
pub(crate) fn number_at(v: Varnode) -> Option<u64>
    ensures { result ≡ b.number_at v.place v.offset }
{
    match v.place {
        Place2::Const => Some(v.offset),
        Place2::Unique => None,
        Place2::In(_) => None,
    }
}
