//! Varnodes of templates at a node.

ghost use Rattle.std.specs.Prelude.{◌≡◌, ◌++◌, IfOk, OnOk};
ghost use Rattle.sl_build_emit.specs.Views.{frame_of, reference_of, references_of, setting_of};
ghost use Rattle.sl_faithful_code.specs.Terms as term;
ghost use Rattle.sl_meaning_sections.specs.Values.{reference_at};
ghost use Rattle.sl_build_template.specs.Placed as p;

use crate::bits::{Memory, memory_put};
use crate::given::{given_into, given_leaf, given_read};
use crate::operations::Operations;
use crate::reading::operand;
use crate::reference::Reference;
use crate::site::Site;
use crate::targets::given_address;
use crate::varnodes::{at_temp, local, narrow, range, temporary};
use sl_build_template::{Slot, Whole, amount, in_space, slot_size};
use sl_pcode::Varnode;
use sl_word::{Op1, Op2, Size};
use std::alloc::AllocError;

/// Where a value of `n` bytes for a reference is put: there, where that is a varnode.
fn reference_written(site: &Site<'_>, r: &Reference, n: Size) -> Varnode
    ensures { result ≡ p.written site.now.top (reference_of r.now) n }
{
    match r {
        Reference::Storage(r) => in_space(r.space, r.offset, n),
        Reference::Local(node, x, _) => temporary(range(*node, *x), n),
        Reference::Plain(_) => at_temp(site, 0, n),
        Reference::Memory(_, _, _, _) => at_temp(site, 0, n),
    }
}

/// Where a value of `n` bytes for an operand is put.
fn written(site: &Site<'_>, i: u32, n: Size) -> Varnode
    ensures { result ≡ p.written site.now.top
        (reference_at (references_of site.now.refs.now) i) n }
{
    match site.refs.get(i as usize) {
        Some(r) => reference_written(site, r, n),
        None => at_temp(site, 0, n),
    }
}

/// The varnode that a name stands for.
fn whole_leaf(site: &Site<'_>, whole: Whole) -> Option<Varnode>
    ensures { result ≡ p.whole_leaf site.now.top (setting_of site.now) (frame_of site.now) whole }
{
    match whole {
        Whole::Fixed(v) => Some(v),
        Whole::Local(x, n) => Some(local(site.node, x, n)),
        Whole::Given(a, n) => given_leaf(site, a, n),
    }
}

/// Its lowest bytes.
fn view(site: &Site<'_>, whole: Whole, n: Size) -> Result<Option<Varnode>, AllocError>
    ensures { IfOk result (λ leaf. leaf ≡ term.view (setting_of site.now)
        (p.whole_leaf site.now.top (setting_of site.now) (frame_of site.now) whole) n) }
{
    match whole_leaf(site, whole) {
        Some(v) => {
            let low = narrow(site, v, n)?;
            Ok(Some(low))
        }
        None => Ok(None),
    }
}

/// What is given and isn't a varnode is put into a temporary value, and its lowest bytes into a
/// varnode.
fn cut_into(
    site: &Site<'_>,
    out: &mut Operations,
    t: u32,
    whole: Whole,
    to: Varnode,
) -> Result<(), AllocError>
    ensures { OnOk result (out.new ≡ out.old
        ++ p.cut_into site.now.top (setting_of site.now) (frame_of site.now) t whole to) }
{
    match whole {
        Whole::Fixed(_) => Ok(()),
        Whole::Local(_, _) => Ok(()),
        Whole::Given(a, n) => {
            let tmp = at_temp(site, t, n);
            given_into(site, out, t, a, tmp)?;
            out.binary(Op2::Subpiece, to, tmp, amount(0))
        }
    }
}

/// The varnode of a slot.
pub(crate) fn value(site: &Site<'_>, v: Slot) -> Result<Varnode, AllocError>
    ensures { IfOk result (λ w. w
        ≡ p.value site.now.top (setting_of site.now) (frame_of site.now) v) }
{
    match v {
        Slot::Fixed(v) => Ok(v),
        Slot::Local(x, n) => Ok(local(site.node, x, n)),
        Slot::Temporary(t, n) => Ok(at_temp(site, t, n)),
        Slot::Given(a, t, n) => Ok(operand(given_leaf(site, a, n), at_temp(site, t, n))),
        Slot::View(t, whole, n) => {
            let leaf = view(site, whole, n)?;
            Ok(operand(leaf, at_temp(site, t, n)))
        }
        Slot::Written(i, n) => Ok(written(site, i, n)),
        Slot::Target(a, n) => {
            let address = given_address(site, a)?;
            Ok(in_space(site.default, address, n))
        }
    }
}

/// A value is made ready to be read.
pub(crate) fn slot_read(site: &Site<'_>, out: &mut Operations, v: Slot) -> Result<(), AllocError>
    ensures { OnOk result (out.new ≡ out.old
        ++ p.before site.now.top (setting_of site.now) (frame_of site.now) v) }
{
    match v {
        Slot::Given(a, t, n) => given_read(site, out, t, a, n),
        Slot::View(t, whole, n) => match view(site, whole, n)? {
            Some(_) => Ok(()),
            None => cut_into(site, out, t, whole, at_temp(site, t, n)),
        },
        Slot::Fixed(_) => Ok(()),
        Slot::Local(_, _) => Ok(()),
        Slot::Temporary(_, _) => Ok(()),
        Slot::Written(_, _) => Ok(()),
        Slot::Target(_, _) => Ok(()),
    }
}

/// A value is put into a varnode.
pub(crate) fn slot_into(
    site: &Site<'_>,
    out: &mut Operations,
    v: Slot,
    to: Varnode,
) -> Result<(), AllocError>
    ensures { OnOk result (out.new ≡ out.old
        ++ p.into site.now.top (setting_of site.now) (frame_of site.now) v to) }
{
    match v {
        Slot::Given(a, t, _) => given_into(site, out, t, a, to),
        Slot::View(t, whole, n) => match view(site, whole, n)? {
            Some(leaf) => out.unary(Op1::Copy, to, leaf),
            None => cut_into(site, out, t, whole, to),
        },
        Slot::Fixed(v) => out.unary(Op1::Copy, to, v),
        Slot::Local(x, n) => {
            let from = local(site.node, x, n);
            out.unary(Op1::Copy, to, from)
        }
        Slot::Temporary(t, n) => {
            let from = at_temp(site, t, n);
            out.unary(Op1::Copy, to, from)
        }
        Slot::Written(i, n) => {
            let from = written(site, i, n);
            out.unary(Op1::Copy, to, from)
        }
        Slot::Target(a, n) => {
            let address = given_address(site, a)?;
            let from = in_space(site.default, address, n);
            out.unary(Op1::Copy, to, from)
        }
    }
}

/// A value is put where a reference stands.
fn reference_put(
    site: &Site<'_>,
    out: &mut Operations,
    r: &Reference,
    v: Slot,
) -> Result<(), AllocError>
    ensures { OnOk result (out.new ≡ out.old
        ++ p.put_code site.now.top (setting_of site.now) (frame_of site.now)
        (reference_of r.now) v) }
{
    match r {
        Reference::Storage(r) => {
            let to = in_space(r.space, r.offset, slot_size(v));
            slot_into(site, out, v, to)
        }
        Reference::Local(node, x, _) => {
            let to = temporary(range(*node, *x), slot_size(v));
            slot_into(site, out, v, to)
        }
        Reference::Plain(_) => slot_read(site, out, v),
        Reference::Memory(space, _, pointer, width) => {
            slot_read(site, out, v)?;
            let w = value(site, v)?;
            let at = Memory {
                space: *space,
                pointer,
                width: *width,
            };
            memory_put(site, out, 1, at, w)
        }
    }
}

/// A value is put where an operand stands.
pub(crate) fn operand_put(
    site: &Site<'_>,
    out: &mut Operations,
    i: u32,
    v: Slot,
) -> Result<(), AllocError>
    ensures { OnOk result (out.new ≡ out.old
        ++ p.put_code site.now.top (setting_of site.now) (frame_of site.now)
        (reference_at (references_of site.now.refs.now) i) v) }
{
    match site.refs.get(i as usize) {
        Some(r) => reference_put(site, out, r, v),
        None => slot_read(site, out, v),
    }
}

/// The first temporary value is put where a reference stands, if that is memory.
fn reference_stored(
    site: &Site<'_>,
    out: &mut Operations,
    r: &Reference,
    n: Size,
) -> Result<(), AllocError>
    ensures { OnOk result (out.new ≡ out.old
        ++ p.stored_code site.now.top (reference_of r.now) n) }
{
    match r {
        Reference::Storage(_) => Ok(()),
        Reference::Local(_, _, _) => Ok(()),
        Reference::Plain(_) => Ok(()),
        Reference::Memory(space, _, pointer, width) => {
            let v = at_temp(site, 0, n);
            let at = Memory {
                space: *space,
                pointer,
                width: *width,
            };
            memory_put(site, out, 1, at, v)
        }
    }
}

/// The first temporary value is put where an operand stands, if that is memory.
#[tactic(auto, using(crate::proofs::Operands::absent, crate::proofs::Operands::and_nothing))]
pub(crate) fn operand_stored(
    site: &Site<'_>,
    out: &mut Operations,
    i: u32,
    n: Size,
) -> Result<(), AllocError>
    ensures { OnOk result (out.new ≡ out.old
        ++ p.stored_code site.now.top (reference_at (references_of site.now.refs.now) i) n) }
{
    match site.refs.get(i as usize) {
        Some(r) => reference_stored(site, out, r, n),
        None => Ok(()),
    }
}
