//! What operands stand for is read.

ghost use Rattle.std.specs.Prelude.{◌≡◌, ◌++◌, ◌∷◌, [], IfOk, OnOk};
ghost use Rattle.sl_faithful_code.specs.Operations as o;
ghost use Rattle.sl_faithful_code.specs.Terms as term;
ghost use Rattle.sl_build_emit.specs.Views.{number_of, reference_of};
ghost use Rattle.sl_section_equations.specs.Equations.{size_at};
ghost use Rattle.sl_build_template.specs.Placed as p;
ghost use Rattle.sl_word.specs.Numbers as z;
ghost use Rattle.sl_word.specs.declared.operation.Op1.TheVariants.{IntSext};

use crate::operations::Operations;
use crate::reference::{Number, Reference};
use crate::site::Site;
use crate::varnodes::{at_temp, number_leaf, range, temporary, wide_number};
use sl_build_template::in_space;
use sl_pcode::Varnode;
use sl_word::{Op1, Size};
use std::alloc::AllocError;

/// The varnode that is read, or another one.
pub(crate) fn operand(leaf: Option<Varnode>, otherwise: Varnode) -> Varnode
    ensures { result ≡ term.operand leaf otherwise }
{
    match leaf {
        Some(v) => v,
        None => otherwise,
    }
}

/// The varnode that a reference stands for, where it is one.
pub(crate) fn read_leaf(r: &Reference, n: Size) -> Option<Varnode>
    ensures { result ≡ term.read_leaf (reference_of r.now) n }
{
    match r {
        Reference::Storage(r) => Some(in_space(r.space, r.offset, n)),
        Reference::Local(node, x, _) => Some(temporary(range(*node, *x), n)),
        Reference::Plain(v) => number_leaf(*v, n),
        Reference::Memory(_, _, _, _) => None,
    }
}

/// A number is put into a varnode.
pub(crate) fn number_into(out: &mut Operations, v: Number, to: Varnode) -> Result<(), AllocError>
    ensures { OnOk result (out.new ≡ out.old
        ++ term.copied (term.number_leaf (number_of v) to.size) to
        (o.unary IntSext to (o.constant (z.residue 8 (number_of v)) (size_at 8)) ∷ [])) }
{
    match number_leaf(v, to.size) {
        Some(leaf) => out.unary(Op1::Copy, to, leaf),
        None => out.unary(Op1::IntSext, to, wide_number(v)),
    }
}

/// What a reference stands for is put into a varnode.
pub(crate) fn read_into(
    site: &Site<'_>,
    out: &mut Operations,
    t: u32,
    r: &Reference,
    to: Varnode,
) -> Result<(), AllocError>
    ensures { OnOk result (out.new ≡ out.old
        ++ term.read_into site.now.top t (reference_of r.now) to) }
{
    match r {
        Reference::Storage(r) => {
            let from = in_space(r.space, r.offset, to.size);
            out.unary(Op1::Copy, to, from)
        }
        Reference::Local(node, x, _) => {
            let from = temporary(range(*node, *x), to.size);
            out.unary(Op1::Copy, to, from)
        }
        Reference::Plain(v) => number_into(out, *v, to),
        Reference::Memory(space, _, pointer, width) => {
            let tmp = at_temp(site, t, *width);
            match read_leaf(pointer, *width) {
                Some(leaf) => out.load(to, *space, leaf),
                None => {
                    read_into(site, out, t, pointer, tmp)?;
                    out.load(to, *space, tmp)
                }
            }
        }
    }
}

/// What a reference stands for is read at `n` bytes: the operations before, and the varnode.
pub(crate) fn read_operand(
    site: &Site<'_>,
    out: &mut Operations,
    t: u32,
    r: &Reference,
    n: Size,
) -> Result<Varnode, AllocError>
    ensures code { OnOk result (out.new ≡ out.old
        ++ p.read_code site.now.top (reference_of r.now) t n) }
    ensures value { IfOk result (λ v. v ≡ p.read_value site.now.top (reference_of r.now) t n) }
{
    match read_leaf(r, n) {
        Some(leaf) => Ok(leaf),
        None => {
            let tmp = at_temp(site, t, n);
            read_into(site, out, t, r, tmp)?;
            Ok(tmp)
        }
    }
}
