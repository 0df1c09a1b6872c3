//! The codes for which a constraint holds.

ghost use Rattle.std.specs.Prelude.{◌≡◌, ◌↔◌, ◌≤◌, IsTrue, IfOk};
ghost use Rattle.sl_shape_blocks.specs.Blocks.{IsShortest, block};
ghost use Rattle.sl_shape_constraints.specs.Codes.{AreAll, AreCodesOf, reads_signed};
ghost use Rattle.sl_shape_constraints.specs.Counts.{HasCount};
ghost use Rattle.sl_shape_constraints.specs.Values.{HoldsOf, width};
ghost use Rattle.sl_shape_constraints.specs.Views.{constraint_of};

use crate::constraint::Constraint;
use sl_shape_blocks::{Block, Codes, blocks_of, codes_of};
use std::alloc::{AllocError, Global};

/// Whether a field of `width` bits has no other codes.
pub fn are_all(codes: &Codes, width: u32) -> bool
    requires some { 1 ≤ width }
    requires most { width ≤ 64 }
    ensures { IsTrue result ↔ AreAll width codes.now }
{
    let greatest = u64::MAX >> (64 - width);
    if codes.inside {
        return codes.low == 0 && greatest <= codes.high;
    }
    codes.high < codes.low || greatest < codes.low
}

/// Whether a field's value is in two's complement.
fn reads_signed(signed: bool, width: u32) -> bool
    ensures { result ≡ reads_signed signed width }
{
    signed || width == 64
}

impl Constraint<'_, '_> {
    /// How many bits the field has.
    pub(crate) fn width(&self) -> u32
        ensures value { result ≡ width self.now.field.now }
        ensures some { 1 ≤ result }
        ensures most { result ≤ 64 }
    {
        let field = self.field;
        field.width().into()
    }

    /// The codes of the field for which the constraint holds.
    pub(crate) fn codes(&self) -> Codes
        ensures { AreCodesOf (constraint_of self.now) result }
    {
        let width = self.width();
        let field = self.field;
        let is_signed = reads_signed(field.signed, width);
        codes_of(self.relation, is_signed, width, self.number)
    }

    /// These codes as blocks.
    pub(crate) fn blocks(&self, alloc: Global) -> Result<Vec<Block>, AllocError>
        ensures { IfOk result (λ blocks.
            IsShortest (HoldsOf (constraint_of self.now))
            (block 0 (width self.now.field.now)) blocks.items) }
    {
        let blocks = blocks_of(alloc, &self.codes(), self.width())?;
        Ok(blocks)
    }

    /// How many cubes the constraint needs; one where it holds nowhere.
    pub fn count(&self, alloc: Global) -> Result<usize, AllocError>
        ensures { IfOk result (HasCount (constraint_of self.now)) }
    {
        let blocks = self.blocks(alloc)?;
        Ok(blocks.len().max(1))
    }
}
