//! Constructors with their sets, table by table.

ghost use Rattle.std.specs.Prelude.{◌≡◌, ◌∷◌, [], ◌++◌, ◌+◌, ℕ, List, IfOk, OnOk, length};
ghost use Rattle.sl_cube_sets.specs.declared.CubeSet.{CubeSet};
ghost use Rattle.sl_conflict.specs.Rows.{Row, rows};
ghost use Rattle.sl_conflict.specs.Kept.{AreTablesOf};

use crate::table_sets::TableSets;
use sl_cube_sets::CubeSet;
use sl_spec::{Ctor, TableId};
use std::alloc::{AllocError, Global};

/// The index of a table.
pub fn index(table: TableId) -> usize
    ensures { result ≡ table }
{
    table.0 as usize
}

/// Tables without constructors.
fn empty_tables(alloc: Global, count: usize) -> Result<Vec<TableSets>, AllocError>
    ensures { IfOk result (λ tables. AreTablesOf count [] tables.items) }
{
    let mut tables = Vec::new(alloc);
    'tables: for _index in 0..count {
        tables.push(TableSets::new(alloc))?;
    }
    Ok(tables)
}

/// Adds a constructor with its set to its table, if there is such a table.
fn add_to_table(
    tables: &mut Vec<TableSets>,
    table: TableId,
    ctor: u32,
    set: CubeSet,
) -> Result<(), AllocError>
    ensures { OnOk result ((count : ℕ) (rs : List Row) → AreTablesOf count rs tables.old.items
        → AreTablesOf count (rs ++ record { number = ctor; table = table; set = set } ∷ [])
        tables.new.items) }
{
    let table = index(table);
    if table < tables.len() {
        tables[table].add(ctor, set)?;
    }
    Ok(())
}

/// Adds a set to the table of the constructor of this number, if there is such a constructor.
fn add_set(
    tables: &mut Vec<TableSets>,
    ctors: &[Ctor],
    number: u32,
    set: CubeSet,
) -> Result<(), AllocError>
    ensures { OnOk result ((count : ℕ) (done : List CubeSet) → length done ≡ number
        → AreTablesOf count (rows ctors.now done) tables.old.items
        → AreTablesOf count (rows ctors.now (done ++ set ∷ [])) tables.new.items) }
{
    match ctors.get(number as usize) {
        Some(ctor) => add_to_table(tables, ctor.table, number, set),
        None => Ok(()),
    }
}

/// The next number. 2^32 constructors would be want of memory.
fn next(number: u32) -> Result<u32, AllocError>
    ensures { IfOk result (λ next. next ≡ number + 1) }
{
    number.checked_add(1).ok_or(AllocError)
}

/// The constructors of each table with their sets, which are moved there.
pub fn tables_of(
    alloc: Global,
    count: usize,
    ctors: &[Ctor],
    sets: Vec<CubeSet>,
) -> Result<Vec<TableSets>, AllocError>
    ensures { IfOk result (λ tables. AreTablesOf count (rows ctors.now sets.items) tables.items) }
{
    let mut tables = empty_tables(alloc, count)?;
    let mut number = 0;
    'sets: for set in sets {
        add_set(&mut tables, ctors, number, set)?;
        number = next(number)?;
    }
    Ok(tables)
}
