//! What is given at a node is read.

ghost use Rattle.std.specs.Prelude.{◌≡◌, ◌++◌, OnOk};
ghost use Rattle.sl_faithful_code.specs.Terms as term;
ghost use Rattle.sl_build_emit.specs.Views.{frame_of, references_of, setting_of};
ghost use Rattle.sl_meaning_sections.specs.Values.{reference_at};
ghost use Rattle.sl_build_template.specs.Placed as p;

use crate::operations::Operations;
use crate::reading::{number_into, read_into, read_leaf};
use crate::reference::{Number, Reference};
use crate::site::Site;
use crate::varnodes::{at_temp, number_leaf};
use sl_build_template::Given;
use sl_pcode::Varnode;
use sl_word::Size;
use std::alloc::AllocError;

/// The varnode that an operand stands for, where it is one. An operand that isn't there is 0.
fn operand_leaf(refs: &[Reference], i: u32, n: Size) -> Option<Varnode>
    ensures { result ≡ term.read_leaf (reference_at (references_of refs.now) i) n }
{
    match refs.get(i as usize) {
        Some(r) => read_leaf(r, n),
        None => number_leaf(Number::Natural(0), n),
    }
}

/// The varnode that is given, where it is one.
pub(crate) fn given_leaf(site: &Site<'_>, a: Given, n: Size) -> Option<Varnode>
    ensures { result ≡ term.read_leaf (p.given site.now.top (setting_of site.now)
        (frame_of site.now) a) n }
{
    match a {
        Given::Operand(i) => operand_leaf(site.refs, i, n),
        Given::Start => number_leaf(site.start, n),
        Given::Next => number_leaf(site.next, n),
    }
}

/// An operand is put into a varnode.
fn operand_into(
    site: &Site<'_>,
    out: &mut Operations,
    t: u32,
    i: u32,
    to: Varnode,
) -> Result<(), AllocError>
    ensures { OnOk result (out.new ≡ out.old
        ++ term.read_into site.now.top t (reference_at (references_of site.now.refs.now) i) to) }
{
    match site.refs.get(i as usize) {
        Some(r) => read_into(site, out, t, r, to),
        None => number_into(out, Number::Natural(0), to),
    }
}

/// What is given is put into a varnode.
pub(crate) fn given_into(
    site: &Site<'_>,
    out: &mut Operations,
    t: u32,
    a: Given,
    to: Varnode,
) -> Result<(), AllocError>
    ensures { OnOk result (out.new ≡ out.old
        ++ term.read_into site.now.top t (p.given site.now.top (setting_of site.now)
        (frame_of site.now) a) to) }
{
    match a {
        Given::Operand(i) => operand_into(site, out, t, i, to),
        Given::Start => number_into(out, site.start, to),
        Given::Next => number_into(out, site.next, to),
    }
}

/// What is given is put into a temporary value, where it is no varnode.
pub(crate) fn given_read(
    site: &Site<'_>,
    out: &mut Operations,
    t: u32,
    a: Given,
    n: Size,
) -> Result<(), AllocError>
    ensures { OnOk result (out.new ≡ out.old
        ++ p.read_code site.now.top (p.given site.now.top (setting_of site.now)
        (frame_of site.now) a) t n) }
{
    match given_leaf(site, a, n) {
        Some(_) => Ok(()),
        None => {
            let tmp = at_temp(site, t, n);
            given_into(site, out, t, a, tmp)
        }
    }
}
