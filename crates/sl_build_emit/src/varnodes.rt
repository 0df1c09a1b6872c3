//! Varnodes.

ghost use Rattle.std.specs.Prelude.{◌≡◌, ◌≤◌, ◌^◌, ◌-◌, ◌%◌, IfOk, slice_index};
ghost use Rattle.sl_faithful_code.specs.Operations as o;
ghost use Rattle.sl_faithful_code.specs.Terms as term;
ghost use Rattle.sl_build_emit.specs.Views.{number_of};
ghost use Rattle.sl_section_equations.specs.Equations.{size_at};
ghost use Rattle.sl_word.specs.Numbers as z;
ghost use Rattle.sl_word.specs.Sizes.{byte_counts};

use crate::reference::Number;
use crate::site::Site;
use sl_build_template::{constant, cut, of_address, sized};
use sl_pcode::{Place2, Varnode};
use sl_word::{Endian, Size, SpaceId};
use std::alloc::AllocError;

pub(crate) fn temporary(offset: u64, n: Size) -> Varnode
    ensures { result ≡ o.temporary offset n }
{
    Varnode {
        place: Place2::Unique,
        offset,
        size: n,
    }
}

/// Where a local of a node lies.
pub(crate) fn range(node: u32, x: u32) -> u64
    ensures { result ≡ o.range_of node x }
{
    (u64::from(node) * 65536 + u64::from(x)) * 16
}

/// A local of a node.
pub(crate) fn local(node: u32, x: u32, n: Size) -> Varnode
    ensures { result ≡ o.temporary (o.range_of node x) n }
{
    temporary(range(node, x), n)
}

/// A temporary value.
pub(crate) fn at_temp(site: &Site<'_>, t: u32, n: Size) -> Varnode
    ensures { result ≡ o.at_temp site.now.top t n }
{
    temporary(site.top + u64::from(t) * 16, n)
}

/// How many bytes lie before the lowest `n` of `size`.
fn bytes_before(endian: Endian, size: Size, n: Size) -> u64
    ensures { result ≡ o.bytes_before endian size.bytes n.bytes }
{
    match endian {
        Endian::Little => 0,
        Endian::Big => u64::from(size.bytes.saturating_sub(n.bytes)),
    }
}

/// An offset of a space. A space that isn't there would be want of memory.
fn round_the_end(site: &Site<'_>, space: SpaceId, offset: u64) -> Result<u64, AllocError>
    ensures { IfOk result (λ at. at
        ≡ offset % 256 ^ slice_index (byte_counts site.now.spaces.now) space.0) }
{
    match site.spaces.get(space.0 as usize) {
        Some(address) => Ok(cut(offset, of_address(*address))),
        None => Err(AllocError),
    }
}

/// Where the lowest `n` bytes begin, with `before` bytes before them; a constant is cut. An offset
/// of more than 64 bits would be want of memory.
fn offset_after(
    site: &Site<'_>,
    place: Place2,
    offset: u64,
    before: u64,
    n: Size,
) -> Result<u64, AllocError>
    ensures { IfOk result (λ at. at
        ≡ o.offset_after (byte_counts site.now.spaces.now) place offset before n.bytes) }
{
    let after = offset.checked_add(before).ok_or(AllocError)?;
    match place {
        Place2::Const => Ok(cut(offset, n)),
        Place2::Unique => Ok(after),
        Place2::In(space) => round_the_end(site, space, after),
    }
}

/// The lowest `n` bytes of a varnode, as a varnode.
pub(crate) fn narrow(site: &Site<'_>, v: Varnode, n: Size) -> Result<Varnode, AllocError>
    ensures { IfOk result (λ low. low
        ≡ o.narrow site.now.endian (byte_counts site.now.spaces.now) v n) }
{
    let before = bytes_before(site.endian, v.size, n);
    let offset = offset_after(site, v.place, v.offset, before, n)?;
    Ok(Varnode {
        place: v.place,
        offset,
        size: n,
    })
}

/// The greatest number of `n` bytes, at most 8.
pub(crate) fn greatest(n: Size) -> u64
    requires { n.bytes ≤ 8 }
    ensures { result ≡ 256 ^ n.bytes - 1 }
{
    u64::MAX >> (64 - 8 * u32::from(n.bytes))
}

/// The number at `n` bytes, at most 8.
pub(crate) fn residue(v: Number, n: Size) -> u64
    requires { n.bytes ≤ 8 }
    ensures { result ≡ z.residue n.bytes (number_of v) }
{
    match v {
        Number::Natural(v) => cut(v, n),
        Number::Below(v) => greatest(n) - cut(v, n),
    }
}

/// The number as a constant of 8 bytes.
pub(crate) fn wide_number(v: Number) -> Varnode
    ensures { result ≡ o.constant (z.residue 8 (number_of v)) (size_at 8) }
{
    let wide = sized(8);
    constant(residue(v, wide), wide)
}

/// The number as a constant of `n` bytes, where 64 bits are enough.
pub(crate) fn number_leaf(v: Number, n: Size) -> Option<Varnode>
    ensures { result ≡ term.number_leaf (number_of v) n }
{
    match v {
        Number::Natural(v) => Some(constant(cut(v, n), n)),
        Number::Below(_) => {
            if n.bytes <= 8 {
                Some(constant(residue(v, n), n))
            } else {
                None
            }
        }
    }
}
