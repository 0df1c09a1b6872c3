//! Where a section is made into operations.

ghost use Rattle.std.specs.Prelude.{◌≤◌, ◌^◌};

use crate::reference::{Number, Reference};
use sl_word::{AddressSize, Endian, Size, SpaceId};

/// What is known of the machine, of the instruction and of the node whose section it is.
pub struct Site<'a> {
    pub endian: Endian,
    /// The sizes of addresses, space by space.
    pub spaces: &'a [AddressSize],
    /// The default space.
    pub default: SpaceId,
    /// `inst_start`
    pub start: Number,
    /// `inst_next`
    pub next: Number,
    pub node: u32,
    /// The sizes of the section's variables.
    pub sizes: &'a [Size],
    /// What the operands stand for.
    pub refs: &'a [Reference],
    /// Where temporary values begin, behind all locals.
    pub top: u64,
    ghost low: { top ≤ 2 ^ 32 },
}
