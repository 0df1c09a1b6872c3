//! The tables that operands are.

ghost use Rattle.std.specs.Prelude.{◌≡◌, map, IfOk};
ghost use Rattle.sl_section_sizes.specs.Ordering.{table_meant};
ghost use Rattle.sl_section_sizes.specs.Rows.{lists_meant, tables_meant};

use sl_spec::{Ctor, Means, Operand};
use std::alloc::{AllocError, Global};

/// The table that an operand is.
fn table_meant(means: Means) -> Option<u32>
    ensures { result ≡ table_meant means }
{
    match means {
        Means::Table(table) => Some(table.0),
        Means::Field(_) => None,
        Means::Action(_) => None,
    }
}

/// The tables that the operands of a constructor are.
fn tables_meant(alloc: Global, operands: &[Operand]) -> Result<Vec<Option<u32>>, AllocError>
    ensures { IfOk result (λ v. v.items ≡ tables_meant operands.now) }
{
    let mut tables = Vec::new(alloc);
    'operands: for operand in operands {
        tables.push(table_meant(operand.means))?;
    }
    Ok(tables)
}

/// The tables that the operands of each constructor are.
pub fn all_meant(alloc: Global, ctors: &[Ctor]) -> Result<Vec<Vec<Option<u32>>>, AllocError>
    ensures { IfOk result (λ v. lists_meant v.items
        ≡ map (λ c. tables_meant c.operands) ctors.now) }
{
    let mut all = Vec::new(alloc);
    'ctors: for ctor in ctors {
        all.push(tables_meant(alloc, ctor.operands.as_slice())?)?;
    }
    Ok(all)
}
