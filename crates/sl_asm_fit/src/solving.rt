//! `solve`: lists that meet demands. The cubes of a demand are tried one by one, in the region that
//! those of the demands before left.

ghost use Rattle.std.specs.Prelude.{◌≡◌, ◌≤◌, MatchOption, IfOk, length, option_map};
ghost use Rattle.std.specs.List.{AllByRecursion};
ghost use Rattle.sl_asm_fit.specs.Demands.{ArePlaced, IsAnswer};
ghost use Rattle.sl_asm_fit.specs.Solving.{IsDead, IsHopeless, Solves, SolvesBy};

use crate::Cell;
use crate::regions::{all_lists, copied, least, narrowed};
use sl_cube::Cube;
use std::alloc::{AllocError, Global};

/// The sixteen bytes from a place on, with the context, are in one of the cubes.
pub struct Demand {
    pub at: u32,
    pub cubes: Vec<Cube>,
}

/// The region narrowed to one cube of a demand, and then so that all further demands are met; none
/// where no list of it does both.
#[cycle(solving)]
fn tried(
    alloc: Global,
    region: &[Cell],
    context: u64,
    at: u32,
    cube: &Cube,
    rest: &[Demand],
) -> Result<Option<Vec<Cell>>, AllocError>
    requires place { at ≤ 255 }
    requires long { length region.now ≤ 255 }
    requires places { ArePlaced rest.now }
    ensures { IfOk result (λ answer. MatchOption answer
        (IsDead region.now context at cube.now rest.now)
        (λ narrow. SolvesBy region.now context at cube.now rest.now narrow.items)) }
{
    let narrow = narrowed(alloc, region, at, context, cube)?;
    let Some(cells) = narrow else {
        return Ok(None);
    };
    let answer = found(alloc, &cells, context, rest)?;
    Ok(answer)
}

/// A region within the given one all of whose lists meet all demands, or none where no list of it
/// does.
#[cycle(solving)]
fn found(
    alloc: Global,
    region: &[Cell],
    context: u64,
    demands: &[Demand],
) -> Result<Option<Vec<Cell>>, AllocError>
    requires long { length region.now ≤ 255 }
    requires places { ArePlaced demands.now }
    ensures { IfOk result (λ answer. MatchOption answer
        (IsHopeless region.now context demands.now)
        (λ narrow. Solves region.now context demands.now narrow.items)) }
{
    let Some((first, rest)) = demands.split_first() else {
        let same = copied(alloc, region)?;
        return Ok(Some(same));
    };
    for cube in &first.cubes {
        let answer = tried(alloc, region, context, first.at, cube, rest)?;
        if answer.is_some() {
            return Ok(answer);
        }
    }
    Ok(None)
}

/// Bytes of the length which, followed by zeros, meet all demands, or `None` exactly where there are
/// none. The only error is want of memory.
pub fn solve(
    alloc: Global,
    length: u32,
    context: u64,
    demands: &[Demand],
) -> Result<Option<Vec<u8>>, AllocError>
    requires long { length ≤ 255 }
    requires places { ArePlaced demands.now }
    ensures { IfOk result (λ answer.
        IsAnswer length context demands.now (option_map (λ bytes. bytes.items) answer)) }
{
    let region = all_lists(alloc, length as usize)?;
    let answer = found(alloc, &region, context, demands)?;
    let Some(cells) = answer else {
        return Ok(None);
    };
    let bytes = least(alloc, &cells)?;
    Ok(Some(bytes))
}
