//! The hole of a constructor.

ghost use Rattle.std.specs.Prelude.{◌≡◌, ◌≤◌, ℕ, All, IfOk, List, MatchOption, Some, slice_get};
ghost use Rattle.sl_ast.specs.Trees.{Constructor};
ghost use Rattle.sl_ast.specs.Unfolding.{Placed};
ghost use Rattle.sl_conflict.specs.Ambiguity.{IsOf};
ghost use Rattle.sl_conflict.specs.Kept.{IsPaired};
ghost use Rattle.sl_gap.specs.Findings.{AreKept, AreMatched, TellsHoleAt, TellsPoints};
ghost use Rattle.sl_gap_tables.specs.Tables.{AreSettled};
ghost use Rattle.sl_spec.specs.declared.tables.Tables.{Tables as TablesOf};

use crate::report::Hole;
use sl_conflict::TableSets;
use sl_cube::Cube;
use sl_gap_holes::{HolePoints, least_hole};
use sl_gap_operands::FirstOperand;
use sl_gap_tables::cubes_of;
use sl_spec::{CtorId, TableId};
use std::alloc::{AllocError, Global};

/// All cubes of the table of a number; none where there is no such table.
fn cubes_at(alloc: Global, tables: &[TableSets], table: TableId) -> Result<Vec<Cube>, AllocError>
    ensures { IfOk result (λ cubes. (t : TablesOf) (cs : List (Placed Constructor))
        → AreKept t cs tables.now → AreMatched t cs table cubes.items) }
{
    let TableId(number) = table;
    let Some(kept) = tables.get(number as usize) else {
        return Ok(Vec::new(alloc));
    };
    let cubes = cubes_of(alloc, kept)?;
    Ok(cubes)
}

/// The index at which a constructor stands among those of a table.
fn index_of(ctors: &[u32], ctor: u32) -> Option<usize>
    ensures { MatchOption result ((i : ℕ) → slice_get ctors.now i ≡ Some ctor → ⊥)
        (λ i. slice_get ctors.now i ≡ Some ctor) }
{
    'ctors: for index in 0..ctors.len() {
        if ctors[index] == ctor {
            return Some(index);
        }
    }
    None
}

/// The least points at which the constructor is chosen and its operand fails.
fn points_of(
    alloc: Global,
    tables: &[TableSets],
    table: TableId,
    ctor: CtorId,
    operand: &FirstOperand,
) -> Result<Option<HolePoints>, AllocError>
    requires settled { AreSettled tables.now }
    requires near { operand.now.place ≤ 15 }
    ensures { IfOk result (λ found. (t : TablesOf) (cs : List (Placed Constructor))
        → AreKept t cs tables.now → IsOf t.constructors table ctor
        → TellsPoints t cs ctor operand.now.table operand.now.place found) }
{
    let TableId(number) = table;
    let CtorId(id) = ctor;
    let Some(kept) = tables.get(number as usize) else {
        return Ok(None);
    };
    let Some(set) = index_of(&kept.ctors, id) else {
        return Ok(None);
    };
    let cubes = cubes_at(alloc, tables, operand.table)?;
    let found = least_hole(alloc, kept, set, &cubes, operand.place as u32)?;
    Ok(found)
}

/// The least hole of a constructor for its first operand.
pub fn hole_of(
    alloc: Global,
    tables: &[TableSets],
    table: TableId,
    ctor: CtorId,
    operand: &FirstOperand,
) -> Result<Option<Hole>, AllocError>
    requires settled { AreSettled tables.now }
    requires near { operand.now.place ≤ 15 }
    ensures { IfOk result (λ found. (t : TablesOf) (cs : List (Placed Constructor))
        → AreKept t cs tables.now → IsOf t.constructors table ctor
        → TellsHoleAt t cs ctor operand.now.table operand.now.place found) }
{
    let found = points_of(alloc, tables, table, ctor, operand)?;
    let Some(points) = found else {
        return Ok(None);
    };
    Ok(Some(Hole {
        ctor,
        operand: operand.table,
        parent: points.parent,
        child: points.child,
    }))
}
