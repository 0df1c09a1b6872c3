//! Rule 38 on exports.

ghost use Rattle.std.specs.Prelude.{◌≡◌, ◌&&◌, ℕ, Bool, cond, not, get_or, map, IfOk};
ghost use Rattle.sl_spec.specs.Unfolded.{all_placed};
ghost use Rattle.sl_spec_tables.specs.Views as all;
ghost use Rattle.sl_section_equations.specs.Uses.{each_used_passes, flag};
ghost use Rattle.sl_section_exports.specs.Exports as spec;
ghost use Rattle.sl_section_exports.specs.Exports.{first_place, operand_flags, passes};
ghost use Rattle.sl_section_exports.specs.Spreads.{mark_of};
ghost use Rattle.sl_section_exports.specs.Views.{row_of, rows_of, sections_of};

use crate::exporting::{exporting, silent};
use crate::marks::{is_marked, marked};
use crate::rows::{Sectioned, place, with_sections};
use sl_section_equations::each_used_passes;
use sl_section_flat::Section;
use sl_spec::{Means, Operand, Tables, Unfolded};
use sl_spec_tables::{Place, all_rows, number};
use std::alloc::{AllocError, Global};

/// Whether what an operand means is a table that has a mark, or that has none where `unmarked`.
fn passes(marks: &[bool], unmarked: bool, means: Means) -> bool
    ensures { result ≡ passes (λ u. cond unmarked (not (mark_of marks.now u)) (mark_of marks.now u))
        means }
{
    match means {
        Means::Table(table) => {
            let mark = is_marked(marks, number(table));
            if unmarked { !mark } else { mark }
        }
        Means::Field(_) => false,
        Means::Action(_) => false,
    }
}

/// Of each operand, whether it is a table that has a mark, or that has none where `unmarked`.
pub fn operand_flags(
    alloc: Global,
    marks: &[bool],
    unmarked: bool,
    operands: &[Operand],
) -> Result<Vec<bool>, AllocError>
    ensures { IfOk result (λ v. v.items ≡ map (λ o. passes
        (λ u. cond unmarked (not (mark_of marks.now u)) (mark_of marks.now u)) o.means)
        operands.now) }
{
    let mut flags = Vec::new(alloc);
    'operands: for operand in operands {
        flags.push(passes(marks, unmarked, operand.means))?;
    }
    Ok(flags)
}

/// Whether each table operand that the section uses has a mark.
fn uses_marked(alloc: Global, exporting: &[bool], of: &Sectioned) -> Result<bool, AllocError>
    ensures { IfOk result (λ b. b ≡ each_used_passes
        (flag (operand_flags (mark_of exporting.now) (row_of of.now).0.0)) (row_of of.now).1) }
{
    let row = of.row;
    let ctor = row.ctor;
    let flags = operand_flags(alloc, exporting, false, ctor.operands.as_slice())?;
    let section = of.section;
    let uses = each_used_passes(flags.as_slice(), section);
    Ok(uses)
}

/// Whether a table has both marks.
pub fn has_both(exporting: &[bool], silent: &[bool], of: &Sectioned) -> bool
    ensures { result ≡ (mark_of exporting.now (row_of of.now).0.0.table
        && mark_of silent.now (row_of of.now).0.0.table) }
{
    let row = of.row;
    let ctor = row.ctor;
    let table = number(ctor.table);
    is_marked(exporting, table) && is_marked(silent, table)
}

/// Whether the demands on exports hold at a constructor.
fn keeps(
    alloc: Global,
    exporting: &[bool],
    silent: &[bool],
    of: &Sectioned,
) -> Result<bool, AllocError>
    ensures { IfOk result (λ b. b ≡ (not (mark_of exporting.now (row_of of.now).0.0.table
        && mark_of silent.now (row_of of.now).0.0.table)
        && each_used_passes (flag (operand_flags (mark_of exporting.now) (row_of of.now).0.0))
        (row_of of.now).1)) }
{
    if has_both(exporting, silent, of) {
        return Ok(false);
    }
    let uses = uses_marked(alloc, exporting, of)?;
    Ok(uses)
}

/// The place of the first constructor at which the demands on exports don't hold.
fn first_broken(
    alloc: Global,
    exporting: &[bool],
    silent: &[bool],
    rows: &[Sectioned],
) -> Result<Option<Place>, AllocError>
    ensures { IfOk result (λ at. at ≡ first_place (λ r. not
        (not (mark_of exporting.now r.0.0.table && mark_of silent.now r.0.0.table)
        && each_used_passes (flag (operand_flags (mark_of exporting.now) r.0.0)) r.1))
        (rows_of rows.now)) }
{
    'rows: for index in 0..rows.len() {
        let of = rows[index];
        if !keeps(alloc, exporting, silent, &of)? {
            return Ok(Some(place(&of)));
        }
    }
    Ok(None)
}

/// The place of the first constructor of a text, in its order, at which a demand of rule 38 on
/// exports is broken: its table has a constructor that exports and one that doesn't and isn't
/// `unimpl`, or it uses a table operand of which no constructor exports. `constructors` are those of
/// `t` as they are written, in the same order, and `sections` the flat sections of the first of
/// them, without steps for `unimpl`; at others nothing is asked. The only error is want of memory.
pub fn unexported_place<'s, 'a>(
    alloc: Global,
    t: &Tables<'a>,
    constructors: &[Unfolded<'s, 'a>],
    sections: &[Section<'a>],
) -> Result<Option<Place>, AllocError>
    ensures { IfOk result (λ at. at ≡ spec.unexported_place t.now
        (all_placed constructors.now) (sections_of sections.now)) }
{
    let all = all_rows(alloc, t.constructors.as_slice(), constructors)?;
    let all = all.as_slice();
    let tables = exporting(alloc, all)?;
    let exporting = marked(alloc, tables.as_slice())?;
    let tables = silent(alloc, all)?;
    let silent = marked(alloc, tables.as_slice())?;
    let rows = with_sections(alloc, all, sections)?;
    let at = first_broken(
        alloc,
        exporting.as_slice(),
        silent.as_slice(),
        rows.as_slice(),
    )?;
    Ok(at)
}
