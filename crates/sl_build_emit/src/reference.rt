//! What operands stand for.

use sl_section_flat::Storage;
use sl_word::{Size, SpaceId};

/// A number in 64-bit two's complement, or an integer.
#[derive(Clone, Copy, Debug)]
pub enum Number {
    /// 0 or more.
    Natural(u64),
    /// -1 less the number.
    Below(u64),
}

/// What an operand of a node stands for.
#[derive(Drop)]
pub enum Reference {
    Storage(Storage),
    /// A local of a node, by its size variable.
    Local(u32, u32, Size),
    /// A number, which has the size that its reader wants.
    Plain(Number),
    /// Memory of this size at a pointer, which is read at each use at the size that stands last.
    Memory(SpaceId, Size, Box<Reference>, Size),
}
