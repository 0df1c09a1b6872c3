//! What is known of sizes outside a section.

ghost use Rattle.std.specs.Prelude.{◌≡◌, option_map};
ghost use Rattle.sl_section_flat.specs.Views.{number_of};
ghost use Rattle.sl_section_flat.specs.Chains.{bytes_of};
ghost use Rattle.sl_section_equations.specs.Known.{address_size, operand_size};

use sl_word::{AddressSize, Size, SpaceId};

/// What is known of sizes outside a section.
#[derive(Clone, Copy)]
pub struct KnownSizes<'a> {
    /// The sizes of the addresses of the defined spaces, by their numbers.
    pub spaces: &'a [AddressSize],
    /// The size of the addresses of the default space.
    pub default: AddressSize,
    /// The sizes that the constructor's operands export, by their numbers: none for a table that
    /// exports nothing, and for an operand that is no table.
    pub operands: &'a [Option<Size>],
}

impl KnownSizes<'_> {
    /// The size of the addresses of a space, of the default space where none is named.
    pub fn address(&self, space: Option<SpaceId>) -> Size
        ensures { result.bytes ≡ address_size self.now (option_map number_of space) }
    {
        let Some(space) = space else {
            return size_of(self.default);
        };
        match self.spaces.get(space.0 as usize) {
            Some(size) => size_of(*size),
            None => size_of(self.default),
        }
    }

    /// The size of what an operand exports.
    pub fn operand(&self, i: u32) -> Option<Size>
        ensures { option_map bytes_of result ≡ operand_size self.now i }
    {
        match self.operands.get(i as usize) {
            Some(size) => *size,
            None => None,
        }
    }
}

fn size_of(address: AddressSize) -> Size
    ensures { result.bytes ≡ address.bytes }
{
    Size::new(address.bytes).unwrap()
}
