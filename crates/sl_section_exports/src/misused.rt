//! Rule 39.

ghost use Rattle.std.specs.Prelude.{◌≡◌, ◌&&◌, ℕ, not, IfOk};
ghost use Rattle.sl_spec.specs.Unfolded.{all_placed};
ghost use Rattle.sl_section_equations.specs.Uses.{are_targets, flag};
ghost use Rattle.sl_section_exports.specs.Exports as spec;
ghost use Rattle.sl_section_exports.specs.Exports.{first_place, operand_flags};
ghost use Rattle.sl_section_exports.specs.Spreads.{mark_of};
ghost use Rattle.sl_section_exports.specs.Views.{row_of, rows_of, sections_of};

use crate::rows::{Sectioned, place, with_sections};
use crate::standing::{assigned_marks, constant_marks, default_space, no_target_marks};
use crate::unexported::{has_both, operand_flags};
use sl_section_equations::are_targets;
use sl_section_flat::Section;
use sl_spec::{Tables, Unfolded};
use sl_spec_tables::{Place, all_rows};
use std::alloc::{AllocError, Global};

/// Whether each direct jump and call of a constructor goes to a number or to a table without a mark.
fn has_targets(alloc: Global, no_target: &[bool], of: &Sectioned) -> Result<bool, AllocError>
    ensures { IfOk result (λ b. b ≡ are_targets
        (flag (operand_flags (λ u. not (mark_of no_target.now u)) (row_of of.now).0.0))
        (row_of of.now).1) }
{
    let row = of.row;
    let ctor = row.ctor;
    let flags = operand_flags(alloc, no_target, true, ctor.operands.as_slice())?;
    let section = of.section;
    let targets = are_targets(flags.as_slice(), section);
    Ok(targets)
}

/// Whether the demands of rule 39 hold at a constructor.
fn keeps(
    alloc: Global,
    assigned: &[bool],
    constants: &[bool],
    no_target: &[bool],
    of: &Sectioned,
) -> Result<bool, AllocError>
    ensures { IfOk result (λ b. b ≡ (not (mark_of assigned.now (row_of of.now).0.0.table
        && mark_of constants.now (row_of of.now).0.0.table)
        && are_targets (flag (operand_flags (λ u. not (mark_of no_target.now u))
        (row_of of.now).0.0)) (row_of of.now).1)) }
{
    if has_both(assigned, constants, of) {
        return Ok(false);
    }
    let targets = has_targets(alloc, no_target, of)?;
    Ok(targets)
}

/// The place of the first constructor at which the demands of rule 39 don't hold.
fn first_broken(
    alloc: Global,
    assigned: &[bool],
    constants: &[bool],
    no_target: &[bool],
    rows: &[Sectioned],
) -> Result<Option<Place>, AllocError>
    ensures { IfOk result (λ at. at ≡ first_place (λ r. not
        (not (mark_of assigned.now r.0.0.table && mark_of constants.now r.0.0.table)
        && are_targets (flag (operand_flags (λ u. not (mark_of no_target.now u)) r.0.0)) r.1))
        (rows_of rows.now)) }
{
    'rows: for index in 0..rows.len() {
        let of = rows[index];
        if !keeps(alloc, assigned, constants, no_target, &of)? {
            return Ok(Some(place(&of)));
        }
    }
    Ok(None)
}

/// The place of the first constructor of a text, in its order, at which a demand of rule 39 is
/// broken: its table is assigned, directly or through a re-export, and exports a constant, or it
/// jumps to or calls what is no target. `constructors` are those of `t` as they are written, in the
/// same order, and `sections` their flat sections, without steps for `unimpl`. The only error is
/// want of memory.
pub fn misused_place<'s, 'a>(
    alloc: Global,
    t: &Tables<'a>,
    constructors: &[Unfolded<'s, 'a>],
    sections: &[Section<'a>],
) -> Result<Option<Place>, AllocError>
    ensures { IfOk result (λ at. at ≡ spec.misused_place t.now
        (all_placed constructors.now) (sections_of sections.now)) }
{
    let default = default_space(t)?;
    let count = t.tables.len();
    let all = all_rows(alloc, t.constructors.as_slice(), constructors)?;
    let rows = with_sections(alloc, all.as_slice(), sections)?;
    let rows = rows.as_slice();
    let assigned = assigned_marks(alloc, default, count, rows)?;
    let constants = constant_marks(alloc, default, rows)?;
    let no_target = no_target_marks(alloc, default, count, rows)?;
    let at = first_broken(
        alloc,
        assigned.as_slice(),
        constants.as_slice(),
        no_target.as_slice(),
        rows,
    )?;
    Ok(at)
}
