//! What is known of a byte.

ghost use Rattle.std.specs.Prelude.{◌≡◌, ◌↔◌, ℕ, ◌+◌, ◌-◌, ◌*◌, ◌<◌, IsTrue, MatchOption};
ghost use Rattle.std.specs.Int.{bit_at};
ghost use Rattle.sl_cube.specs.Bits.{Agrees};
ghost use Rattle.sl_asm_fit.specs.Cells.{AreApart, IsByteOf, IsMeet};

use crate::Cell;
use sl_cube::Cube;

/// Whether the byte has each bit that the cell fixes.
pub fn fits(cell: &Cell, byte: u8) -> bool
    ensures { IsTrue result ↔ Agrees cell.now.mask cell.now.value byte }
{
    byte & cell.mask == cell.value
}

/// The cell of the bytes that fit both, where there are some.
pub fn meet(a: &Cell, b: &Cell) -> Option<Cell>
    ensures { MatchOption result (AreApart a.now b.now) (IsMeet a.now b.now) }
{
    let shared = a.mask & b.mask;
    if a.value & shared != b.value & shared {
        return None;
    }
    Some(Cell {
        mask: a.mask | b.mask,
        value: a.value | b.value,
    })
}

/// The byte of a number at an index, the first one being the highest of sixteen.
fn byte_of(number: u128, index: u32) -> u8
    requires { index < 16 }
    ensures { (j : ℕ) → j < 8 → bit_at result j ≡ bit_at number (8 * (15 - index) + j) }
{
    ((number >> (8 * (15 - index))) & 255) as u8
}

/// What the cube fixes of the byte at an index, the first one being the highest.
pub fn cell_of(cube: &Cube, index: u32) -> Cell
    requires { index < 16 }
    ensures { IsByteOf cube.now index result }
{
    Cell {
        mask: byte_of(cube.mask, index),
        value: byte_of(cube.value, index),
    }
}
