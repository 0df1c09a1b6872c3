//! Regions of lists of bytes: a cell for each byte.

ghost use Rattle.std.specs.Prelude.{◌≡◌, ◌≤◌, MatchOption, IfOk, length};
ghost use Rattle.sl_asm_fit.specs.Regions.{IsOf, IsOpen, Misses, Narrows, NarrowsIf};

use crate::Cell;
use crate::cells::{cell_of, meet};
use sl_cube::Cube;
use std::alloc::{AllocError, Global};

/// The region of all lists of a length.
pub fn all_lists(alloc: Global, length: usize) -> Result<Vec<Cell>, AllocError>
    ensures { IfOk result (λ region. IsOpen length region.items) }
{
    let cell = Cell { mask: 0, value: 0 };
    vec![in alloc; cell; length]
}

/// The least list of the region.
pub fn least(alloc: Global, region: &[Cell]) -> Result<Vec<u8>, AllocError>
    ensures { IfOk result (λ bytes. IsOf region.now bytes.items) }
{
    region.iter().map(|cell| cell.value).collect(alloc)
}

/// The cells once more.
pub fn copied(alloc: Global, cells: &[Cell]) -> Result<Vec<Cell>, AllocError>
    ensures { IfOk result (λ copy. copy.items ≡ cells.now) }
{
    cells.iter().copied().collect(alloc)
}

/// Whether the region has lists whose byte at the index fits the cell; then it is narrowed to them.
/// A byte behind its end is 0.
pub fn narrow_one(region: &mut Vec<Cell>, index: usize, cell: &Cell) -> bool
    ensures { NarrowsIf result region.old.items index cell.now region.new.items }
{
    if index < region.len() {
        let Some(both) = meet(&region[index], cell) else {
            return false;
        };
        region[index] = both;
        return true;
    }
    if cell.value != 0 {
        return false;
    }
    true
}

/// The region of the lists which, followed by zeros, are in the cube at the place with the context,
/// or `None` where there are none. The only error is want of memory.
pub fn narrowed(
    alloc: Global,
    region: &[Cell],
    at: u32,
    context: u64,
    cube: &Cube,
) -> Result<Option<Vec<Cell>>, AllocError>
    requires place { at ≤ 255 }
    requires long { length region.now ≤ 255 }
    ensures { IfOk result (λ answer. MatchOption answer
        (Misses region.now at context cube.now)
        (λ narrow. Narrows region.now at context cube.now narrow.items)) }
{
    if context & cube.ctx_mask != cube.ctx_value {
        return Ok(None);
    }
    let mut narrow = copied(alloc, region)?;
    if cube.mask == 0 {
        return Ok(Some(narrow));
    }
    for index in 0..16 - cube.mask.trailing_zeros() / 8 {
        let cell = cell_of(cube, index);
        if !narrow_one(&mut narrow, (at + index) as usize, &cell) {
            return Ok(None);
        }
    }
    Ok(Some(narrow))
}
