//! The constructors of each table, and the tables that they name.

ghost use Rattle.std.specs.Prelude.{◌≡◌, ◌++◌, ◌∷◌, [], ℕ, length, replicate, set, IfOk, OnOk};
ghost use Rattle.std.specs.List.{zip};
ghost use Rattle.sl_base_graphs.specs.Views.{graph_of};
ghost use Rattle.sl_spec_rules.specs.Gathered.{gathered};
ghost use Rattle.sl_ast.specs.Trees.{Head};
ghost use Rattle.sl_spec.specs.Numbers.{AreToldOf};
ghost use Rattle.sl_spec.specs.Unfolded.{all_placed};
ghost use Rattle.sl_spec_tables.specs.BlockLengths.{AreToldGroups, AreToldRows};
ghost use Rattle.sl_spec_tables.specs.Rows.{graph, group, groups, table_of, tables_in, tables_of};
ghost use Rattle.sl_spec_tables.specs.Views.{groups_of, row_of, rows_of};

use sl_spec::{Ctor, Means, Operand, TableId, Unfolded};
use std::alloc::{AllocError, Global};

/// A constructor with its operands, and as it is written.
#[derive(Clone, Copy)]
pub struct Row<'x, 's: 'x, 'a: 's> {
    pub ctor: &'x Ctor<'a>,
    pub own: &'x Unfolded<'s, 'a>,
}

/// The number of a table.
pub fn number(table: TableId) -> usize
    ensures { result ≡ table }
{
    table.0 as usize
}

/// All constructors, each with its operands.
pub fn all_rows<'x, 's: 'x, 'a: 's>(
    alloc: Global,
    ctors: &'x [Ctor<'a>],
    constructors: &'x [Unfolded<'s, 'a>],
) -> Result<Vec<Row<'x, 's, 'a>>, AllocError>
    ensures all { IfOk result (λ all. rows_of all.items
        ≡ zip ctors.now (all_placed constructors.now)) }
    ensures told { IfOk result (λ all. (head_at : ℕ → Head) → AreToldOf head_at constructors.now
        → AreToldRows head_at all.items) }
{
    let mut all = Vec::new(alloc);
    'ctors: for index in 0..ctors.len().min(constructors.len()) {
        let ctor = &ctors[index];
        let own = &constructors[index];
        all.push(Row { ctor, own })?;
    }
    Ok(all)
}

/// Adds the table that an operand means, where it means one.
fn add_table(means: Means, all: &mut Vec<usize>) -> Result<(), AllocError>
    ensures { OnOk result (all.new.items ≡ all.old.items ++ table_of means) }
{
    match means {
        Means::Table(table) => {
            all.push(number(table))?;
            Ok(())
        }
        Means::Field(_) => Ok(()),
        Means::Action(_) => Ok(()),
    }
}

/// Adds the tables that a constructor's operands mean.
fn add_tables(operands: &[Operand], all: &mut Vec<usize>) -> Result<(), AllocError>
    ensures { OnOk result (all.new.items
        ≡ all.old.items ++ gathered (λ o. table_of o.means) operands.now) }
{
    'operands: for operand in operands {
        add_table(operand.means, all)?;
    }
    Ok(())
}

/// The tables that the operands of some constructors mean.
fn tables_in(alloc: Global, rows: &[Row]) -> Result<Vec<usize>, AllocError>
    ensures { IfOk result (λ all. all.items ≡ tables_in (rows_of rows.now)) }
{
    let mut all = Vec::new(alloc);
    'rows: for index in 0..rows.len() {
        let ctor = rows[index].ctor;
        add_tables(ctor.operands.as_slice(), &mut all)?;
    }
    Ok(all)
}

/// For each table the tables that its constructors name.
pub fn graph(alloc: Global, groups: &[Vec<Row>]) -> Result<Vec<Vec<usize>>, AllocError>
    ensures { IfOk result (λ all. graph_of all.items ≡ graph (groups_of groups.now)) }
{
    let mut all = Vec::new(alloc);
    'groups: for index in 0..groups.len() {
        all.push(tables_in(alloc, groups[index].as_slice())?)?;
    }
    Ok(all)
}

/// Adds tables without constructors.
fn add_empty<'x, 's: 'x, 'a: 's>(
    alloc: Global,
    count: usize,
    all: &mut Vec<Vec<Row<'x, 's, 'a>>>,
) -> Result<(), AllocError>
    ensures { OnOk result (groups_of all.new.items
        ≡ groups_of all.old.items ++ replicate count []) }
{
    'tables: for _index in 0..count {
        all.push(Vec::new(alloc))?;
    }
    Ok(())
}

/// Adds a constructor to its table.
fn add_to_group<'x, 's: 'x, 'a: 's>(
    groups: &mut Vec<Vec<Row<'x, 's, 'a>>>,
    row: Row<'x, 's, 'a>,
) -> Result<(), AllocError>
    ensures added { OnOk result (groups_of groups.new.items
        ≡ set (groups_of groups.old.items) row.entry.ctor.now.table
        (group (groups_of groups.old.items) row.entry.ctor.now.table ++ row_of row.entry ∷ [])) }
    ensures told { OnOk result ((head_at : ℕ → Head) → AreToldGroups head_at groups.old.items
        → AreToldRows head_at (row.entry ∷ []) → AreToldGroups head_at groups.new.items) }
{
    let ctor = row.ctor;
    let table = number(ctor.table);
    if table < groups.len() {
        groups[table].push(row)?;
    }
    Ok(())
}

/// The constructors of each table.
pub fn grouped<'x, 's: 'x, 'a: 's>(
    alloc: Global,
    count: usize,
    rows: &[Row<'x, 's, 'a>],
) -> Result<Vec<Vec<Row<'x, 's, 'a>>>, AllocError>
    ensures all { IfOk result (λ all. groups_of all.items ≡ groups count (rows_of rows.now)) }
    ensures told { IfOk result (λ all. (head_at : ℕ → Head) → AreToldRows head_at rows.now
        → AreToldGroups head_at all.items) }
{
    let mut all = Vec::new(alloc);
    add_empty(alloc, count, &mut all)?;
    'rows: for index in 0..rows.len() {
        add_to_group(&mut all, rows[index])?;
    }
    Ok(all)
}
