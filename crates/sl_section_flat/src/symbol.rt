//! What names stand for.

ghost use Rattle.std.specs.Prelude.{◌≡◌, ◌≤◌};
ghost use Rattle.sl_section_flat.specs.Sections.{bounded, span_count};

use sl_word::{Size, SpaceId};

/// `size` bytes from `offset` on in a space.
#[derive(Clone, Copy, Debug)]
pub struct Storage {
    pub space: SpaceId,
    pub offset: u64,
    pub size: Size,
}

/// `count` bits from bit `low` on, bit 0 the least significant.
#[derive(Clone, Copy, Debug)]
pub struct Span {
    pub low: u64,
    pub count: u8,
    ghost some: { 1 ≤ count },
    ghost at_most_128: { count ≤ 128 },
}

/// What a name of a section stands for. Operands are left open: what they stand for is known when
/// an instruction is decoded. An operand is named by its number among the constructor's operands.
#[derive(Clone, Copy, Debug)]
pub enum Symbol {
    Register(Storage),
    /// Bits of a register.
    BitRange(Storage, Span),
    /// A local, by its size variable.
    Local(u32),
    /// An operand that is a table. What its constructors export gives its size.
    Table(u32),
    /// An operand that is a field to which registers of this size are attached.
    Attached(u32, Size),
    /// An operand that is another field or an action name: a number.
    Value(u32),
    /// `inst_start`
    Start,
    /// `inst_next`
    Next,
    /// An integer for which a macro's parameter stands, or which is a target.
    Integer(u64),
}

impl Span {
    /// `count` bits from a bit on, where the count is brought to 1 to 128. A written count is
    /// within them by rules 8 and 26.
    pub fn new(low: u64, count: u64) -> Span
        ensures low { result.low ≡ low }
        ensures count { result.count ≡ span_count count }
    {
        let count = count.clamp(1, 128);
        Span {
            low,
            count: count as u8,
        }
    }
}

/// A written size in bytes, brought to 1 to 16. It is within them by the grammar and rule 26.
pub fn written_size(bytes: u64) -> Size
    ensures { result.bytes ≡ bounded bytes }
{
    let bytes = bytes.clamp(1, 16);
    Size::new(bytes as u8).unwrap()
}
