//! The numbers of constructors in the order in which they are shaped.

ghost use Rattle.std.specs.Prelude.{◌≡◌, ◌++◌, nat_lt, slice_get, IfOk, OnOk};
ghost use Rattle.sl_section_exports.specs.Exports.{if_so};
ghost use Rattle.sl_section_sizes.specs.Ordering as spec;

use sl_spec::{CtorId, Tables};
use std::alloc::{AllocError, Global};

/// Adds a number, where a test holds.
fn add_if(all: &mut Vec<usize>, holds: bool, number: usize) -> Result<(), AllocError>
    ensures { OnOk result (all.new.items ≡ all.old.items ++ if_so holds number) }
{
    if holds {
        all.push(number)?;
    }
    Ok(())
}

/// Adds the number of a constructor, where it is below `count`.
fn add_one(all: &mut Vec<usize>, count: usize, id: CtorId) -> Result<(), AllocError>
    ensures { OnOk result (all.new.items ≡ all.old.items ++ if_so (nat_lt id count) id) }
{
    let number = id.0 as usize;
    add_if(all, number < count, number)
}

/// Adds the numbers that are below `count`.
fn add_below(all: &mut Vec<usize>, count: usize, ids: &[CtorId]) -> Result<(), AllocError>
    ensures { OnOk result (all.new.items ≡ all.old.items ++ spec.below count ids.now) }
{
    'ids: for index in 0..ids.len() {
        add_one(all, count, ids[index])?;
    }
    Ok(())
}

/// Adds the numbers of a table's constructors.
fn add_table(all: &mut Vec<usize>, t: &Tables, count: usize, table: usize) -> Result<(), AllocError>
    ensures { OnOk result (all.new.items
        ≡ all.old.items ++ spec.below count (spec.numbers_of (slice_get t.now.tables table))) }
{
    match t.tables.at(table) {
        Some(table) => add_below(all, count, table.constructors.as_slice()),
        None => Ok(()),
    }
}

/// The numbers of the constructors of these tables, table by table.
pub fn numbers(
    alloc: Global,
    t: &Tables,
    count: usize,
    tables: &[usize],
) -> Result<Vec<usize>, AllocError>
    ensures { IfOk result (λ v. v.items ≡ spec.numbers t.now count tables.now) }
{
    let mut all = Vec::new(alloc);
    'tables: for index in 0..tables.len() {
        add_table(&mut all, t, count, tables[index])?;
    }
    Ok(all)
}
