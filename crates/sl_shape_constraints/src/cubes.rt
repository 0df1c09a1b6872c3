//! Constraints as unions of cubes.

ghost use Rattle.std.specs.Prelude.{◌≡◌, ◌≤◌, ◌+◌, ℕ, IfOk, OnOk, length};
ghost use Rattle.std.specs.List.{Any};
ghost use Rattle.sl_spec.specs.FieldValues.{token_of};
ghost use Rattle.sl_shape_constraints.specs.Codes.{AreBitsOf};
ghost use Rattle.sl_shape_constraints.specs.Counts.{HasCount};
ghost use Rattle.sl_shape_constraints.specs.Homes.{HasCodeIn, home_of};
ghost use Rattle.sl_shape_constraints.specs.Rooms.{room};
ghost use Rattle.sl_shape_constraints.specs.Places.{seen};
ghost use Rattle.sl_shape_constraints.specs.Sets.{Adds};
ghost use Rattle.sl_shape_constraints.specs.Values.{ConstraintHolds};
ghost use Rattle.sl_shape_constraints.specs.Views.{constraint_of};

use crate::bits::Bits;
use crate::constraint::Constraint;
use crate::homes::Home;
use crate::places::block_cube;
use crate::shift::put_moved;
use sl_cube::Cube;
use sl_shape_blocks::Block;
use sl_spec::{Field, Named, Token};
use std::alloc::{AllocError, Global};

/// What the field is bits of.
fn home_of<'a>(tokens: &Named<'a, Token<'a>>, field: &Field<'a>) -> Home
    ensures home { result ≡ home_of (token_of tokens.now field.now) }
    ensures few { room result ≤ 64 }
{
    let Some(index) = field.token else {
        return Home::Context;
    };
    let Some(token) = tokens.at(index as usize) else {
        return Home::Context;
    };
    Home::Token(token.endian, u32::from(token.bits / 8))
}

/// Adds the points that, as they are seen from the place, have the bits in the block, as at most one
/// cube.
fn put_block(bits: &Bits, block: Block, place: u32, cubes: &mut Vec<Cube>) -> Result<(), AllocError>
    ensures points { IfOk result (λ _. Adds cubes.old.items
        (λ p. HasCodeIn bits.now block (seen place p)) cubes.new.items) }
    ensures few { OnOk result (length cubes.new.items ≤ length cubes.old.items + 1) }
{
    if let Some(cube) = block_cube(bits, block) {
        put_moved(cubes, &cube, place)?;
    }
    Ok(())
}

/// Adds the points that, as they are seen from the place, have the bits in one of the blocks, as at
/// most one cube for each.
fn put_blocks(
    bits: &Bits,
    blocks: &[Block],
    place: u32,
    cubes: &mut Vec<Cube>,
) -> Result<(), AllocError>
    ensures points { IfOk result (λ _. Adds cubes.old.items
        (λ p. Any (λ block. HasCodeIn bits.now block (seen place p)) blocks.now)
        cubes.new.items) }
    ensures few { OnOk result
        (length cubes.new.items ≤ length cubes.old.items + length blocks.now) }
{
    for block in blocks {
        put_block(bits, *block, place, cubes)?;
    }
    Ok(())
}

impl Constraint<'_, '_> {
    /// The bits of the field.
    pub(crate) fn bits(&self) -> Bits
        ensures { AreBitsOf (constraint_of self.now) result }
    {
        let field = self.field;
        Bits {
            home: home_of(self.tokens, field),
            low: field.low.into(),
            high: field.high.into(),
        }
    }

    /// Adds the points at which the constraint holds, as they are seen from the place, as at most as
    /// many cubes as its count. Places from 16 on are one, since bytes past the sixteen of a point
    /// are zeros.
    pub fn put_cubes(
        &self,
        alloc: Global,
        place: u32,
        cubes: &mut Vec<Cube>,
    ) -> Result<(), AllocError>
        ensures points { IfOk result (λ _. Adds cubes.old.items
            (λ p. ConstraintHolds (constraint_of self.now) (seen place p)) cubes.new.items) }
        ensures few { OnOk result ((count : ℕ) → HasCount (constraint_of self.now) count
            → length cubes.new.items ≤ length cubes.old.items + count) }
    {
        let blocks = self.blocks(alloc)?;
        put_blocks(&self.bits(), &blocks, place, cubes)?;
        Ok(())
    }
}
