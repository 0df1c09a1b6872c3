//! Which tables the constructors of each table name.

ghost use Rattle.std.specs.Prelude.{◌≡◌, ◌∷◌, [], ◌++◌, ℕ, List, IfOk, OnOk};
ghost use Rattle.sl_base_graphs.specs.Views.{graph_of};
ghost use Rattle.sl_spec_order.specs.Orders.{graph, table_of, tables_in};
ghost use Rattle.sl_spec_order.specs.Steps.{IsGraphOf};
ghost use Rattle.sl_spec.specs.Tables.{Ctor};

use sl_spec::{Ctor, Means, Operand, TableId};
use std::alloc::{AllocError, Global};

/// The number of a table.
pub fn number(table: TableId) -> usize
    ensures { result ≡ table }
{
    table.0 as usize
}

/// Adds the table that an operand means, where it means one.
fn add_table(means: Means, all: &mut Vec<usize>) -> Result<(), AllocError>
    ensures { OnOk result (all.new.items ≡ all.old.items ++ table_of means) }
{
    match means {
        Means::Table(table) => {
            all.push(number(table))?;
            Ok(())
        }
        Means::Field(_) => Ok(()),
        Means::Action(_) => Ok(()),
    }
}

/// Adds the tables that operands mean.
fn add_tables(operands: &[Operand], all: &mut Vec<usize>) -> Result<(), AllocError>
    ensures { OnOk result (all.new.items ≡ all.old.items ++ tables_in operands.now) }
{
    'operands: for operand in operands {
        add_table(operand.means, all)?;
    }
    Ok(())
}

/// Adds the tables that a constructor names to those of its table.
fn add_ctor(lists: &mut Vec<Vec<usize>>, ctor: &Ctor) -> Result<(), AllocError>
    ensures { OnOk result ((count : ℕ) (ctors : List Ctor) → IsGraphOf count ctors lists.old.items
        → IsGraphOf count (ctors ++ ctor.now ∷ []) lists.new.items) }
{
    let table = number(ctor.table);
    if table < lists.len() {
        add_tables(ctor.operands.as_slice(), &mut lists[table])?;
    }
    Ok(())
}

/// Tables that name none.
fn empty_lists(alloc: Global, count: usize) -> Result<Vec<Vec<usize>>, AllocError>
    ensures { IfOk result (λ lists. IsGraphOf count [] lists.items) }
{
    let mut lists = Vec::new(alloc);
    'lists: for _index in 0..count {
        lists.push(Vec::new(alloc))?;
    }
    Ok(lists)
}

/// For each table those that its constructors name.
pub fn table_graph(
    alloc: Global,
    count: usize,
    ctors: &[Ctor],
) -> Result<Vec<Vec<usize>>, AllocError>
    ensures { IfOk result (λ lists. graph_of lists.items ≡ graph count ctors.now) }
{
    let mut lists = empty_lists(alloc, count)?;
    'ctors: for index in 0..ctors.len() {
        add_ctor(&mut lists, &ctors[index])?;
    }
    Ok(lists)
}
