//! `region`: the points at which a constructor is chosen, as cubes.

ghost use Rattle.std.specs.Prelude.{IfOk};
ghost use Rattle.sl_asm.specs.Regions.{ArePicks, IsRegion};
ghost use Rattle.sl_ast.specs.Views.{items_of};
ghost use Rattle.sl_bind_compile.specs.Compiled.{IsCompiled};
ghost use Rattle.sl_bind_compile.specs.Outcomes.{all_constructors};
ghost use Rattle.sl_conflict.specs.Kept.{HasChoices};

use sl_asm_region::region_of_choice;
use sl_bind_compile::Compiled;
use sl_conflict::TableSets;
use sl_cube::Cube;
use sl_spec::CtorId;
use std::alloc::{AllocError, Global};

/// The points at which the constructor is the choice among the sets of a table.
fn picks_of(alloc: Global, kept: &TableSets, number: u32) -> Result<Vec<Cube>, AllocError>
    requires { HasChoices kept.now }
    ensures { IfOk result (λ out. ArePicks kept.now number out.items) }
{
    let mut out = Vec::new(alloc);
    'places: for place in 0..kept.ctors.len() {
        if kept.ctors[place] == number {
            let cubes = region_of_choice(alloc, &kept.sets, place)?;
            out.extend_from_slice(&cubes)?;
        }
    }
    Ok(out)
}

/// Cubes whose union is exactly the points at which the constructor is chosen by its table: it has the
/// point, and lies properly within each other constructor of the table that has it. The only error is
/// want of memory.
pub fn region(alloc: Global, compiled: &Compiled<'_>, ctor: CtorId) -> Result<Vec<Cube>, AllocError>
    requires { IsCompiled compiled.now }
    ensures { IfOk result (λ out. IsRegion compiled.now.bound.tables
        (all_constructors (items_of compiled.now.bound.spec)) ctor out.items) }
{
    let CtorId(number) = ctor;
    let Some(own) = compiled
        .bound
        .tables
        .constructors
        .as_slice()
        .get(number as usize)
    else {
        return Ok(Vec::new(alloc));
    };
    let Some(kept) = compiled.checked.table(own.table) else {
        return Ok(Vec::new(alloc));
    };
    let out = picks_of(alloc, kept, number)?;
    Ok(out)
}
