//! Bits that are taken out of a value.

ghost use Rattle.std.specs.Prelude.{◌≡◌, ◌≤◌, ◌*◌, ◌++◌, IfOk, OnOk};
ghost use Rattle.sl_faithful_code.specs.Bits as b;

use crate::masks::{ends_below, has_mask, ones};
use crate::operations::Operations;
use crate::site::Site;
use crate::varnodes::at_temp;
use sl_build_template::{above, all_but, amount, constant};
use sl_pcode::Varnode;
use sl_section_flat::Span;
use sl_word::Op2;
use std::alloc::AllocError;

/// A value is moved down, where that changes it.
fn lowered(
    site: &Site<'_>,
    out: &mut Operations,
    t: u32,
    from: Varnode,
    low: u64,
) -> Result<Varnode, AllocError>
    ensures code { OnOk result (out.new ≡ out.old ++ b.lower site.now.top t from low) }
    ensures at { IfOk result (λ v. v ≡ b.lowered site.now.top t from low) }
{
    let new = at_temp(site, t, from.size);
    out.binary_where(0 < low, Op2::IntRight, new, from, amount(low))
}

/// The lowest bits of a value are put into a varnode.
fn clear_above(
    site: &Site<'_>,
    out: &mut Operations,
    t: u32,
    from: Varnode,
    count: u64,
    to: Varnode,
) -> Result<(), AllocError>
    requires { count ≤ 64 }
    ensures { OnOk result (out.new ≡ out.old ++ b.clear_above site.now.top t from count to) }
{
    let new = at_temp(site, t, to.size);
    let is_longer = to.size.bytes < from.size.bytes;
    let short = out.binary_where(is_longer, Op2::Subpiece, new, from, amount(0))?;
    out.binary(Op2::IntAnd, to, short, constant(ones(count), to.size))
}

/// By a mask.
fn bits_by_mask(
    site: &Site<'_>,
    out: &mut Operations,
    t: u32,
    from: Varnode,
    span: Span,
    to: Varnode,
) -> Result<(), AllocError>
    requires { span.count ≤ 64 }
    ensures { OnOk result (out.new
        ≡ out.old ++ b.bits_by_mask site.now.top t from span.low span.count to) }
{
    let count = u64::from(span.count);
    if ends_below(span, from.size) && count < 8 * u64::from(to.size.bytes) {
        let low = lowered(site, out, t, from, span.low)?;
        return clear_above(site, out, t, low, count, to);
    }
    if to.size.bytes < from.size.bytes {
        let low = lowered(site, out, t, from, span.low)?;
        return out.binary(Op2::Subpiece, to, low, amount(0));
    }
    out.binary(Op2::IntRight, to, from, amount(span.low))
}

/// By shifts.
fn bits_by_shifts(
    site: &Site<'_>,
    out: &mut Operations,
    t: u32,
    from: Varnode,
    span: Span,
    to: Varnode,
) -> Result<(), AllocError>
    ensures { OnOk result (out.new
        ≡ out.old ++ b.bits_by_shifts site.now.top t from span.low span.count to) }
{
    let count = u64::from(span.count);
    let tmp = at_temp(site, t, from.size);
    let up = amount(above(from.size, span.low, count));
    let down = amount(all_but(from.size, count));
    out.binary(Op2::IntLeft, tmp, from, up)?;
    out.binary(Op2::IntRight, tmp, tmp, down)?;
    out.binary(Op2::Subpiece, to, tmp, amount(0))
}

/// Bits of a value are put into a varnode. The temporary value `t` is free.
#[tactic(auto, unfolding(sl_faithful_code::specs::Bits::bits_into))]
pub(crate) fn extract(
    site: &Site<'_>,
    out: &mut Operations,
    t: u32,
    from: Varnode,
    span: Span,
    to: Varnode,
) -> Result<(), AllocError>
    ensures { OnOk result (out.new
        ≡ out.old ++ b.bits_into site.now.top t from span.low span.count to) }
{
    if has_mask(from.size, span) && to.size.bytes <= from.size.bytes {
        return bits_by_mask(site, out, t, from, span, to);
    }
    bits_by_shifts(site, out, t, from, span, to)
}
