//! Bits that are put into a value.

ghost use Rattle.std.specs.Prelude.{◌≡◌, ◌≤◌, ◌+◌, ◌*◌, ◌++◌, ◌∷◌, [], IfOk, OnOk};
ghost use Rattle.sl_faithful_code.specs.Bits as b;
ghost use Rattle.sl_faithful_code.specs.Operations as o;
ghost use Rattle.sl_build_emit.specs.Views.{inserted};
ghost use Rattle.sl_word.specs.declared.operation.Op2.TheVariants.{IntLeft, IntRight};

use crate::masks::{ends_below, has_mask, mask, number_at, ones, others, placed};
use crate::operations::Operations;
use crate::site::Site;
use crate::varnodes::at_temp;
use sl_build_template::{above, all_but, amount, constant};
use sl_pcode::Varnode;
use sl_section_flat::Span;
use sl_word::{Op1, Op2, Size};
use std::alloc::AllocError;

/// The lowest bits of a value, which are put into a span of another.
#[derive(Clone, Copy)]
pub(crate) struct Put {
    pub(crate) value: Varnode,
    /// The value has no bits but those.
    pub(crate) below: bool,
    pub(crate) span: Span,
}

/// A value of `size` bytes, `old`, in which bits are replaced.
#[derive(Clone, Copy)]
pub(crate) struct Bits {
    pub(crate) size: Size,
    pub(crate) old: Varnode,
    pub(crate) new: Put,
}

/// A value as one of `n` bytes.
fn widened(
    site: &Site<'_>,
    out: &mut Operations,
    t: u32,
    n: Size,
    v: Varnode,
) -> Result<Varnode, AllocError>
    ensures code { OnOk result (out.new ≡ out.old ++ b.widen site.now.top t n v) }
    ensures at { IfOk result (λ w. w ≡ b.widened site.now.top t n v) }
{
    if v.size.bytes < n.bytes {
        let new = at_temp(site, t, n);
        out.unary(Op1::IntZext, new, v)?;
        return Ok(new);
    }
    Ok(v)
}

/// Bits in their place, `v`, are joined with the other bits of the old value.
fn join(
    site: &Site<'_>,
    out: &mut Operations,
    t: u32,
    bits: Bits,
    v: Varnode,
    to: Varnode,
) -> Result<(), AllocError>
    requires few { bits.size.bytes ≤ 8 }
    requires inside { bits.new.span.low + bits.new.span.count ≤ 8 * bits.size.bytes }
    requires free { t ≤ 4 }
    ensures { OnOk result (out.new ≡ out.old
        ++ b.join site.now.top t bits.size bits.old v bits.new.span.low bits.new.span.count to) }
{
    let field = at_temp(site, t + 1, bits.size);
    let rest = others(bits.size, bits.new.span);
    out.binary(Op2::IntAnd, field, bits.old, rest)?;
    out.binary(Op2::IntOr, to, field, v)
}

/// The bits of a number, `k`, in their place.
fn number_put(
    site: &Site<'_>,
    out: &mut Operations,
    t: u32,
    bits: Bits,
    k: u64,
    to: Varnode,
) -> Result<(), AllocError>
    requires few { bits.size.bytes ≤ 8 }
    requires inside { bits.new.span.low + bits.new.span.count ≤ 8 * bits.size.bytes }
    requires free { t ≤ 4 }
    ensures { OnOk result (out.new ≡ out.old ++ b.number_put site.now.top t bits.size bits.old
        bits.new.span.low bits.new.span.count k to) }
{
    if k == 0 {
        return out.binary(Op2::IntAnd, to, bits.old, others(bits.size, bits.new.span));
    }
    if k == mask(bits.new.span) {
        return out.binary(Op2::IntOr, to, bits.old, constant(k, bits.size));
    }
    join(site, out, t, bits, constant(k, bits.size), to)
}

/// Whether the new value may have bits above those that are put, which would stay.
fn has_more(bits: Bits) -> bool
    ensures { result
        ≡ b.has_more bits.size bits.new.value bits.new.below bits.new.span.low bits.new.span.count }
{
    let wide = u64::from(bits.new.span.count) < 8 * u64::from(bits.new.value.size.bytes);
    !bits.new.below && (wide && ends_below(bits.new.span, bits.size))
}

/// The bits of a value.
fn value_put(
    site: &Site<'_>,
    out: &mut Operations,
    t: u32,
    bits: Bits,
    to: Varnode,
) -> Result<(), AllocError>
    requires few { bits.size.bytes ≤ 8 }
    requires inside { bits.new.span.low + bits.new.span.count ≤ 8 * bits.size.bytes }
    requires free { t ≤ 4 }
    ensures { OnOk result (out.new ≡ out.old ++ b.value_put site.now.top t bits.size bits.old
        bits.new.value bits.new.below bits.new.span.low bits.new.span.count to) }
{
    let (n, low) = (bits.size, bits.new.span.low);
    let new = at_temp(site, t, n);
    let all = constant(ones(u64::from(bits.new.span.count)), n);
    let wide = widened(site, out, t, n, bits.new.value)?;
    let few = out.binary_where(has_more(bits), Op2::IntAnd, new, wide, all)?;
    let there = out.binary_where(0 < low, Op2::IntLeft, new, few, amount(low))?;
    join(site, out, t, bits, there, to)
}

/// By a mask.
fn put_by_mask(
    site: &Site<'_>,
    out: &mut Operations,
    t: u32,
    bits: Bits,
    to: Varnode,
) -> Result<(), AllocError>
    requires few { bits.size.bytes ≤ 8 }
    requires inside { bits.new.span.low + bits.new.span.count ≤ 8 * bits.size.bytes }
    requires free { t ≤ 4 }
    ensures { OnOk result (out.new ≡ out.old ++ b.put_by_mask site.now.top
        (b.number_at bits.new.value.place bits.new.value.offset) t bits.size bits.old
        bits.new.value bits.new.below bits.new.span.low bits.new.span.count to) }
{
    match number_at(bits.new.value) {
        Some(k) => number_put(site, out, t, bits, placed(k, bits.new.span), to),
        None => value_put(site, out, t, bits, to),
    }
}

/// A value is moved up, and down again.
fn moved(
    out: &mut Operations,
    to: Varnode,
    from: Varnode,
    up: Varnode,
    down: Varnode,
) -> Result<(), AllocError>
    ensures { OnOk result (out.new ≡ out.old
        ++ (o.binary IntLeft to from up ∷ o.binary IntRight to to down ∷ [])) }
{
    out.binary(Op2::IntLeft, to, from, up)?;
    out.binary(Op2::IntRight, to, to, down)
}

/// By shifts.
fn put_by_shifts(
    site: &Site<'_>,
    out: &mut Operations,
    t: u32,
    bits: Bits,
    to: Varnode,
) -> Result<(), AllocError>
    requires free { t ≤ 4 }
    ensures { OnOk result (out.new ≡ out.old ++ b.put_by_shifts site.now.top t bits.size bits.old
        bits.new.value bits.new.span.low bits.new.span.count to) }
{
    let count = u64::from(bits.new.span.count);
    let new = at_temp(site, t, bits.size);
    let field = at_temp(site, t + 1, bits.size);
    let high = amount(above(bits.size, bits.new.span.low, count));
    let rest = amount(all_but(bits.size, count));
    out.unary(Op1::IntZext, new, bits.new.value)?;
    moved(out, new, new, rest, high)?;
    moved(out, field, bits.old, high, rest)?;
    out.binary(Op2::IntLeft, field, field, amount(bits.new.span.low))?;
    out.binary(Op2::IntSub, field, bits.old, field)?;
    out.binary(Op2::IntAdd, to, field, new)
}

/// The value with the new bits in their place. The temporary values `t` and the next one are free.
#[tactic(auto, unfolding(sl_faithful_code::specs::Bits::bits_put))]
pub(crate) fn insert(
    site: &Site<'_>,
    out: &mut Operations,
    t: u32,
    bits: Bits,
    to: Varnode,
) -> Result<(), AllocError>
    requires free { t ≤ 4 }
    ensures { OnOk result (out.new ≡ out.old ++ inserted site.now.top t bits to) }
{
    if has_mask(bits.size, bits.new.span) {
        return put_by_mask(site, out, t, bits, to);
    }
    put_by_shifts(site, out, t, bits, to)
}
