//! Values that are put into memory, and into bits.

ghost use Rattle.std.specs.Prelude.{◌≡◌, ◌++◌, OnOk};
ghost use Rattle.sl_faithful_code.specs.Operations as o;
ghost use Rattle.sl_faithful_code.specs.Statements as step;
ghost use Rattle.sl_build_emit.specs.Views.{inserted, put_into, reference_of, references_of};
ghost use Rattle.sl_meaning_sections.specs.References as reference;
ghost use Rattle.sl_meaning_sections.specs.Values as meaning;
ghost use Rattle.sl_build_template.specs.Placed as p;

use crate::insert::{Bits, Put, insert};
use crate::operations::Operations;
use crate::reading::read_operand;
use crate::reference::Reference;
use crate::site::Site;
use crate::varnodes::{at_temp, local};
use sl_build_template::{in_space, sized};
use sl_pcode::Varnode;
use sl_word::{Size, SpaceId};
use std::alloc::AllocError;

/// Memory at a pointer, which is read at `width`.
#[derive(Clone, Copy)]
pub(crate) struct Memory<'a> {
    pub(crate) space: SpaceId,
    pub(crate) pointer: &'a Reference,
    pub(crate) width: Size,
}

/// A value is put into memory.
pub(crate) fn memory_put(
    site: &Site<'_>,
    out: &mut Operations,
    t: u32,
    at: Memory<'_>,
    v: Varnode,
) -> Result<(), AllocError>
    ensures { OnOk result (out.new ≡ out.old ++ put_into site.now.top t at.entry v) }
{
    let pointer = read_operand(site, out, t, at.pointer, at.width)?;
    out.store(at.space, pointer, v)
}

/// Bits are put into a local of a node.
fn local_bits(
    site: &Site<'_>,
    out: &mut Operations,
    node: u32,
    x: u32,
    bits: Bits,
) -> Result<(), AllocError>
    ensures { OnOk result (out.new ≡ out.old
        ++ inserted site.now.top 2 bits (o.temporary (o.range_of node x) bits.size)) }
{
    let to = local(node, x, bits.size);
    insert(site, out, 2, bits, to)
}

/// Bits are put into memory.
fn memory_bits(
    site: &Site<'_>,
    out: &mut Operations,
    at: Memory<'_>,
    bits: Bits,
) -> Result<(), AllocError>
    ensures { OnOk result (out.new ≡ out.old
        ++ (inserted site.now.top 2 bits (o.at_temp site.now.top 2 bits.size)
        ++ put_into site.now.top 4 at.entry (o.at_temp site.now.top 2 bits.size))) }
{
    let to = at_temp(site, 2, bits.size);
    insert(site, out, 2, bits, to)?;
    memory_put(site, out, 4, at, to)
}

/// Bits are put where a reference stands.
fn reference_bits(
    site: &Site<'_>,
    out: &mut Operations,
    r: &Reference,
    bits: Bits,
) -> Result<(), AllocError>
    ensures { OnOk result (out.new ≡ out.old ++ step.reference_bits site.now.top
        (reference_of r.now) bits.size bits.old bits.new.value bits.new.below bits.new.span.low
        bits.new.span.count) }
{
    match r {
        Reference::Storage(r) => {
            let to = in_space(r.space, r.offset, bits.size);
            insert(site, out, 2, bits, to)
        }
        Reference::Local(node, x, _) => local_bits(site, out, *node, *x, bits),
        Reference::Plain(_) => Ok(()),
        Reference::Memory(space, _, pointer, width) => {
            let at = Memory {
                space: *space,
                pointer,
                width: *width,
            };
            memory_bits(site, out, at, bits)
        }
    }
}

fn reference_size(r: &Reference) -> Size
    ensures { result ≡ reference.reference_size (reference_of r.now) }
{
    match r {
        Reference::Storage(r) => r.size,
        Reference::Local(_, _, size) => *size,
        Reference::Plain(_) => sized(8),
        Reference::Memory(_, size, _, _) => *size,
    }
}

/// Bits are put into what a reference stands for.
fn reference_put_bits(
    site: &Site<'_>,
    out: &mut Operations,
    r: &Reference,
    new: Put,
) -> Result<(), AllocError>
    ensures { OnOk result (out.new ≡ out.old ++ p.bits_code site.now.top (reference_of r.now)
        new.value new.below new.span.low new.span.count) }
{
    let size = reference_size(r);
    let old = read_operand(site, out, 1, r, size)?;
    reference_bits(site, out, r, Bits { size, old, new })
}

/// Bits are put into what an operand stands for.
#[tactic(auto, using(crate::proofs::Operands::absent, crate::proofs::Operands::and_nothing))]
pub(crate) fn operand_bits(
    site: &Site<'_>,
    out: &mut Operations,
    i: u32,
    new: Put,
) -> Result<(), AllocError>
    ensures { OnOk result (out.new ≡ out.old ++ p.bits_code site.now.top
        (meaning.reference_at (references_of site.now.refs.now) i) new.value new.below new.span.low
        new.span.count) }
{
    match site.refs.get(i as usize) {
        Some(r) => reference_put_bits(site, out, r, new),
        None => Ok(()),
    }
}
