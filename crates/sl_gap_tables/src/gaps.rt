//! The least point that each table leaves unmatched.

ghost use Rattle.std.specs.Prelude.{◌≡◌, ◌++◌, ◌↔◌, List, All, IfOk, OnOk, length};
ghost use Rattle.sl_ast.specs.Trees.{Constructor};
ghost use Rattle.sl_ast.specs.Unfolding.{Placed};
ghost use Rattle.sl_conflict.specs.Kept.{IsPaired};
ghost use Rattle.sl_conflict.specs.TableTests.{AreSetsOf};
ghost use Rattle.sl_cube.specs.Points.{IsInSome};
ghost use Rattle.sl_cube.specs.declared.Point.{Point as PointOf};
ghost use Rattle.sl_gap_tables.specs.Gaps.{TellGaps};
ghost use Rattle.sl_gap_tables.specs.Tables.{AreUnmatched, HasSome, TellsUnmatched};
ghost use Rattle.sl_spec.specs.declared.tables.Tables.{Tables as TablesOf};

use sl_conflict::TableSets;
use sl_cube::{Cube, Point, point_outside};
use std::alloc::{AllocError, Global};

/// All cubes of a table.
pub fn cubes_of(alloc: Global, kept: &TableSets) -> Result<Vec<Cube>, AllocError>
    ensures { IfOk result (λ cubes. (p : PointOf) → IsInSome cubes.items p ↔ HasSome kept.now p) }
{
    let mut cubes = Vec::new(alloc);
    for set in &kept.sets {
        cubes.extend_from_slice(&set.cubes)?;
    }
    Ok(cubes)
}

/// The least point that no set of the table has.
fn unmatched(alloc: Global, kept: &TableSets) -> Result<Option<Point>, AllocError>
    ensures { IfOk result (TellsUnmatched kept.now) }
{
    let whole = Cube {
        mask: 0,
        value: 0,
        ctx_mask: 0,
        ctx_value: 0,
    };
    let cubes = cubes_of(alloc, kept)?;
    let found = point_outside(alloc, &whole, &cubes)?;
    Ok(found)
}

/// For each table the least point that none of its constructors has, or `None` exactly where each
/// point has one. The only error is want of memory.
pub fn table_gaps(alloc: Global, tables: &[TableSets]) -> Result<Vec<Option<Point>>, AllocError>
    requires { All IsPaired tables.now }
    ensures { IfOk result (λ told. (t : TablesOf) (cs : List (Placed Constructor))
        → AreSetsOf t cs tables.now → TellGaps t cs told.items) }
{
    let mut told = Vec::new(alloc);
    for kept in tables {
        let found = unmatched(alloc, kept)?;
        told.push(found)?;
    }
    Ok(told)
}
