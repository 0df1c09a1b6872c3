//! Templates of statements at a node.

ghost use Rattle.std.specs.Prelude.{◌≡◌, ◌++◌, [], length, slice_get, unwrap_or, OnOk};
ghost use Rattle.sl_build_emit.specs.Views.{frame_of, lists_of, setting_of};
ghost use Rattle.sl_build_template.specs.Placed as p;
ghost use Rattle.sl_build_template.specs.Views.{part_of, tail_of};

use crate::operations::Operations;
use crate::pieces::pieces;
use crate::site::Site;
use crate::slots::value;
use crate::targets::relative;
use sl_build_template::{Part, Tail, amount};
use sl_pcode::{Code, Op};
use std::alloc::AllocError;

/// The list of an operand; none where it isn't a table.
#[tactic(auto, using(crate::proofs::Operands::none_there, crate::proofs::Operands::and_nothing))]
fn child(lists: &[Vec<Op>], out: &mut Operations, i: u32) -> Result<(), AllocError>
    ensures { OnOk result (out.new ≡ out.old ++ unwrap_or (slice_get (lists_of lists.now) i) []) }
{
    match lists.get(i as usize) {
        Some(list) => out.copy_all(list),
        None => Ok(()),
    }
}

/// What stands behind the pieces of a statement, where it jumps to no label or to one of this place.
fn tail(
    site: &Site<'_>,
    lists: &[Vec<Op>],
    out: &mut Operations,
    place: u64,
    a: &Tail<'_>,
) -> Result<(), AllocError>
    ensures { OnOk result (out.new ≡ out.old
        ++ p.tail_code site.now.top (setting_of site.now) (frame_of site.now) (λ l. place)
        (lists_of lists.now) (length out.old) (tail_of a.now)) }
{
    let at = out.len() as u64;
    match a {
        Tail::Nothing => Ok(()),
        Tail::Build(i) => child(lists, out, *i),
        Tail::Label(_) => Ok(()),
        Tail::Branch(_) => {
            let distance = relative(at, place)?;
            out.exit(Code::Branch, amount(distance))
        }
        Tail::BranchIf(_, v) => {
            let distance = relative(at, place)?;
            let condition = value(site, *v)?;
            out.exit_if(amount(distance), condition)
        }
    }
}

/// A statement, where it jumps to no label or to one of this place.
pub(crate) fn part(
    site: &Site<'_>,
    lists: &[Vec<Op>],
    out: &mut Operations,
    place: u64,
    a: &Part<'_>,
) -> Result<(), AllocError>
    ensures { OnOk result (out.new ≡ out.old
        ++ p.part_code site.now.top (setting_of site.now) (frame_of site.now) (λ l. place)
        (lists_of lists.now) (length out.old) (part_of a.now)) }
{
    pieces(site, out, a.pieces.as_slice())?;
    tail(site, lists, out, place, &a.tail)
}
