//! Where one of several sets is the most specific that has a point.

ghost use Rattle.std.specs.Prelude.{IfOk};
ghost use Rattle.sl_asm_region.specs.Regions.{AreBelow, IsChoiceRegion};
ghost use Rattle.sl_cube_sets.specs.Sets.{IsSettled};
ghost use Rattle.sl_cube_sets.specs.Unions.{has_set};

use crate::left::left_of;
use sl_cube::Cube;
use sl_cube_sets::{CubeSet, is_below};
use std::alloc::{AllocError, Global};

/// The cubes of the sets that lie below the one at the index.
fn cubes_below(alloc: Global, sets: &[CubeSet], index: usize) -> Result<Vec<Cube>, AllocError>
    ensures { IfOk result (λ cubes. AreBelow sets.now index cubes.items) }
{
    let mut cubes = Vec::new(alloc);
    for (lower, set) in sets.iter().enumerate() {
        let below = is_below(alloc, sets, lower, index)?;
        if below {
            cubes.extend_from_slice(&set.cubes)?;
        }
    }
    Ok(cubes)
}

/// Cubes whose union is exactly the points at which the set at the index is the choice: it has the
/// point, and lies properly within each other set that has it. There are none for an index behind
/// the last. The only error is want of memory.
pub fn region_of_choice(
    alloc: Global,
    sets: &[CubeSet],
    index: usize,
) -> Result<Vec<Cube>, AllocError>
    requires { IsSettled has_set sets.now }
    ensures { IfOk result (λ out. IsChoiceRegion sets.now index out.items) }
{
    let Some(set) = sets.get(index) else {
        return Ok(Vec::new(alloc));
    };
    let below = cubes_below(alloc, sets, index)?;
    let out = left_of(alloc, &set.cubes, &below)?;
    Ok(out)
}
