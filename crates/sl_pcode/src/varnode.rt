//! What an operation reads and writes.

ghost use Rattle.std.specs.Prelude.{◌≡◌, ◌^◌, ◌<◌, ◌↔◌, IsTrue};
ghost use Rattle.sl_pcode.specs.declared.varnode.Place2.TheVariants.{Const};
ghost use Rattle.sl_pcode.specs.WellFormed.{IsAddress, IsInRange};
ghost use Rattle.sl_word.specs.Sizes.{byte_counts};

use sl_word::{AddressSize, Size, SpaceId};

/// What the offset of a varnode counts in.
#[derive(Clone, Copy, Debug, PartialEq, Eq)]
pub enum Place2 {
    /// No storage (the manual's space `const`): the offset is the value.
    Const,
    /// The temporary bytes of one run of a list (the manual's space `unique`), all 0 at its start.
    Unique,
    /// An address space of the processor; registers have one too.
    In(SpaceId),
}

/// A storage location of so many bytes from an offset on, or a constant of that size.
///
/// Offsets count bytes. In an address space the byte past the last one is that at 0; temporary bytes
/// don't go on at 0, and lie below 2^32.
#[derive(Clone, Copy, Debug, PartialEq, Eq)]
pub struct Varnode {
    pub place: Place2,
    pub offset: u64,
    pub size: Size,
}

// Temporary bytes have the offsets below this.
const UNIQUE_END: u64 = 1 << 32;

/// The constant 0 of one byte, which stands where `SmallVec` has no input.
impl Default for Varnode {
    ghost is_default = { λ v. (v.place ≡ Const) × (v.offset ≡ 0) × (v.size.bytes ≡ 1) };

    fn default() -> Varnode {
        Varnode {
            place: Place2::Const,
            offset: 0,
            size: Size::new(1).unwrap(),
        }
    }
}

impl Varnode {
    // Whether its place has it, where `sizes` has the size of addresses for each space.
    pub(crate) fn is_in_range(self, sizes: &[AddressSize]) -> bool
        ensures { IsTrue result ↔ IsInRange (byte_counts sizes.now) self }
    {
        let bytes = self.size.get();
        match self.place {
            Place2::Const => fits(self.offset, bytes),
            Place2::Unique => self.offset <= UNIQUE_END - u64::from(bytes),
            Place2::In(space) => is_address(sizes, space, self.offset),
        }
    }
}

fn is_address(sizes: &[AddressSize], space: SpaceId, offset: u64) -> bool
    ensures { IsTrue result ↔ IsAddress (byte_counts sizes.now) space offset }
{
    match sizes.get(space.0 as usize) {
        Some(size) => fits(offset, size.get()),
        None => false,
    }
}

// Whether so many bytes have room for a number.
#[tactic(auto, using(crate::proofs::ByteCounts::below_narrow, crate::proofs::ByteCounts::none_above))]
fn fits(number: u64, bytes: u8) -> bool
    ensures { IsTrue result ↔ (number < 256 ^ bytes) }
{
    bytes >= 8 || number >> (8 * u32::from(bytes)) == 0
}
