//! Tables in the order of their first constructors.

ghost use Rattle.std.specs.Prelude.{◌≡◌, ℕ, IfOk, OnOk};
ghost use Rattle.sl_spec_order.specs.Orders.{appearing, met};
ghost use Rattle.sl_spec_order.specs.Steps.{Tells};

use crate::graph::number;
use sl_spec::Ctor;
use std::alloc::{AllocError, Global};

/// Takes in the table of a constructor.
fn meet(seen: &mut Vec<bool>, all: &mut Vec<usize>, table: usize) -> Result<(), AllocError>
    ensures tells { OnOk result ((count : ℕ) → Tells count all.old.items seen.old.items
        → Tells count all.new.items seen.new.items) }
    ensures met { OnOk result ((count : ℕ) → Tells count all.old.items seen.old.items
        → all.new.items ≡ met count all.old.items table) }
{
    if table >= seen.len() {
        return Ok(());
    }
    if seen[table] {
        return Ok(());
    }
    seen[table] = true;
    all.push(table)?;
    Ok(())
}

/// The tables in the order of their first constructors.
pub fn appearing_tables(
    alloc: Global,
    count: usize,
    ctors: &[Ctor],
) -> Result<Vec<usize>, AllocError>
    ensures { IfOk result (λ all. all.items ≡ appearing count ctors.now) }
{
    let mut seen = vec![in alloc; false; count]?;
    let mut all = Vec::new(alloc);
    'ctors: for index in 0..ctors.len() {
        let ctor = &ctors[index];
        meet(&mut seen, &mut all, number(ctor.table))?;
    }
    Ok(all)
}
