//! What is asked of tables, as marks on them.

ghost use Rattle.std.specs.Prelude.{◌≡◌, ℕ, IfOk};
ghost use Rattle.sl_section_exports.specs.Exports as spec;
ghost use Rattle.sl_section_exports.specs.Spreading.{is_one_of};
ghost use Rattle.sl_section_exports.specs.Spreads.{mark_of};
ghost use Rattle.sl_section_exports.specs.Views.{rows_of};

use crate::graphs::{graph_with, swapped};
use crate::handing::{assigned_tables, constants, re_exports, storages};
use crate::marks::marked;
use crate::rows::Sectioned;
use crate::spread::reached_from;
use sl_spec::Tables;
use sl_word::SpaceId;
use std::alloc::{AllocError, Global};

/// The space of a number. 2^32 spaces would be want of memory.
fn space_at(index: usize) -> Result<SpaceId, AllocError>
    ensures { IfOk result (λ space. space.0 ≡ index) }
{
    match u32::try_from(index) {
        Ok(number) => Ok(SpaceId(number)),
        Err(_) => Err(AllocError),
    }
}

/// The default space.
pub fn default_space(t: &Tables) -> Result<SpaceId, AllocError>
    ensures { IfOk result (λ space. space.0 ≡ spec.default_space_index t.now) }
{
    'spaces: for index in 0..t.spaces.len() {
        let space = t.spaces.member(index);
        if space.default {
            return space_at(index);
        }
    }
    Ok(SpaceId(0))
}

/// Marks on the tables that are assigned, directly or through a re-export.
pub fn assigned_marks(
    alloc: Global,
    default: SpaceId,
    count: usize,
    rows: &[Sectioned],
) -> Result<Vec<bool>, AllocError>
    ensures { IfOk result (λ marks. (v : ℕ)
        → mark_of marks.items v ≡ spec.is_assigned default.0 count (rows_of rows.now) v) }
{
    let edges = re_exports(alloc, default, rows)?;
    let graph = graph_with(alloc, count, edges.as_slice())?;
    let tables = assigned_tables(alloc, rows)?;
    let marks = reached_from(alloc, graph.as_slice(), tables.as_slice())?;
    Ok(marks)
}

/// Marks on the tables that may stand for storage that is no target of a jump.
pub fn no_target_marks(
    alloc: Global,
    default: SpaceId,
    count: usize,
    rows: &[Sectioned],
) -> Result<Vec<bool>, AllocError>
    ensures { IfOk result (λ marks. (v : ℕ)
        → mark_of marks.items v ≡ spec.is_no_target default.0 count (rows_of rows.now) v) }
{
    let edges = re_exports(alloc, default, rows)?;
    let edges = swapped(alloc, edges.as_slice())?;
    let graph = graph_with(alloc, count, edges.as_slice())?;
    let tables = storages(alloc, default, rows)?;
    let marks = reached_from(alloc, graph.as_slice(), tables.as_slice())?;
    Ok(marks)
}

/// Marks on the tables that export a constant of their own.
pub fn constant_marks(
    alloc: Global,
    default: SpaceId,
    rows: &[Sectioned],
) -> Result<Vec<bool>, AllocError>
    ensures { IfOk result (λ marks. (v : ℕ)
        → mark_of marks.items v ≡ is_one_of (spec.constants default.0 (rows_of rows.now)) v) }
{
    let tables = constants(alloc, default, rows)?;
    let marks = marked(alloc, tables.as_slice())?;
    Ok(marks)
}
