//! The state of a machine: the bytes of its spaces.

ghost use Rattle.std.specs.Prelude.{◌≡◌, ◌≢◌, ℕ, ◌+◌, ◌%◌, ◌^◌, ◌<◌, ◌≤◌, length, slice_index, OnOk, OnErr, IfOk};
ghost use Rattle.sl_word.specs.Layout.{byte_of};

use crate::space::Space;
use crate::{AddressSize, Endian, Narrow, Size, SpaceId, Word};
use std::alloc::{AllocError, Global};

/// The bytes of each space of a machine, all 0 at first, and the order of bytes in memory.
///
/// A space whose addresses have n bytes has the offsets below 256^n; what would go past the last one
/// goes on at 0.
#[derive(Drop)]
pub struct State {
    endian: Endian,
    spaces: Vec<Space>,
    ghost few: { length spaces.items < 2 ^ 32 },
}

/// A byte that isn't what it was.
#[derive(Clone, Copy, Debug, PartialEq, Eq)]
pub struct Change {
    pub space: SpaceId,
    pub offset: u64,
    pub byte: u8,
}

#[tactic(auto, unfolding(crate::specs::Bytes::byte_at, crate::specs::Bytes::address_sizes, crate::specs::Bytes::endian_of))]
impl State {
    ghost use Rattle.sl_word.specs.Bytes.{byte_at, number_at, address_size, address_sizes, endian_of, IsSame, KeepsOthers, PutsBytes};
    ghost use Rattle.sl_word.specs.Sizes.{byte_counts};
    ghost use Rattle.sl_word.specs.Changes.{ListsChanges, change_of};
    ghost use Rattle.sl_word.specs.Differences.{ListsChangesBefore, IsFirstDifference};

    /// A state with one space for each size of addresses.
    pub fn new(alloc: Global, endian: Endian, sizes: &[AddressSize]) -> Result<State, AllocError>
        requires few { length sizes.now < 2 ^ 32 }
        ensures endian { IfOk result (λ state. endian_of state ≡ endian) }
        ensures sizes { IfOk result (λ state. address_sizes state ≡ byte_counts sizes.now) }
        ensures zero { IfOk result (λ state. (space offset : ℕ) → byte_at state space offset ≡ 0) }
    {
        let mut spaces = Vec::new(alloc);
        for size in sizes {
            spaces.push(Space::new(alloc, *size))?;
        }
        Ok(State { endian, spaces })
    }

    /// The order of bytes in memory.
    pub fn endian(&self) -> Endian
        ensures { result ≡ endian_of self.now }
    {
        self.endian
    }

    /// The number that the bytes from an offset on make.
    pub fn read(&self, space: SpaceId, offset: u64, size: Size) -> Word
        requires { space.0 < length (address_sizes self.now) }
        ensures size { result.size ≡ size }
        ensures value { result.bits ≡ number_at self.now space.0 offset size.bytes }
    {
        if size.is_narrow() {
            return self.read_narrow(space, offset, size).word();
        }
        let bits = self.spaces[space.0 as usize].number(offset, self.endian, size);
        Word { bits, size }
    }

    /// The same, of at most 8 bytes.
    pub fn read_narrow(&self, space: SpaceId, offset: u64, size: Size) -> Narrow
        requires space { space.0 < length (address_sizes self.now) }
        requires narrow { size.bytes ≤ 8 }
        ensures size { result.size ≡ size }
        ensures value { result.bits ≡ number_at self.now space.0 offset size.bytes }
    {
        self.spaces[space.0 as usize].narrow(offset, self.endian, size)
    }

    /// Fills a buffer with the bytes from an offset on, round the end of the space.
    pub fn fill(&self, space: SpaceId, offset: u64, out: &mut [u8])
        requires { space.0 < length (address_sizes self.now) }
        ensures length { length out.new ≡ length out.old }
        ensures bytes { (i : ℕ) → i < length out.old → slice_index out.new i
            ≡ byte_at self.now space.0 ((offset + i) % 256 ^ address_size self.now space.0) }
    {
        self.spaces[space.0 as usize].fill(offset, out);
    }

    /// Puts the bytes of a word from an offset on.
    pub fn write(&mut self, space: SpaceId, offset: u64, word: Word) -> Result<(), AllocError>
        requires { space.0 < length (address_sizes self.old) }
        ensures kept { KeepsOthers self.old self.new space.0 }
        ensures put { OnOk result (PutsBytes self.old self.new space.0 offset word.size.bytes
            (byte_of (endian_of self.old) word.size.bytes word.bits)) }
        ensures reads_back { OnOk result (number_at self.new space.0 offset word.size.bytes ≡ word.bits) }
        ensures unchanged { OnErr result (IsSame self.old self.new) }
    {
        self.spaces[space.0 as usize].write(offset, self.endian, word)
    }

    /// The same, of at most 8 bytes.
    pub fn write_narrow(
        &mut self,
        space: SpaceId,
        offset: u64,
        word: Narrow,
    ) -> Result<(), AllocError>
        requires { space.0 < length (address_sizes self.old) }
        ensures kept { KeepsOthers self.old self.new space.0 }
        ensures put { OnOk result (PutsBytes self.old self.new space.0 offset word.size.bytes
            (byte_of (endian_of self.old) word.size.bytes word.bits)) }
        ensures reads_back { OnOk result (number_at self.new space.0 offset word.size.bytes ≡ word.bits) }
        ensures unchanged { OnErr result (IsSame self.old self.new) }
    {
        self.spaces[space.0 as usize].write_narrow(offset, self.endian, word)
    }

    /// Puts bytes from an offset on, up to the end of the space at most.
    pub fn load_image(&mut self, space: SpaceId, base: u64, bytes: &[u8]) -> Result<(), AllocError>
        requires space { space.0 < length (address_sizes self.old) }
        requires room { base + length bytes.now ≤ 256 ^ address_size self.old space.0 }
        ensures kept { KeepsOthers self.old self.new space.0 }
        ensures put { OnOk result (PutsBytes self.old self.new space.0 base (length bytes.now) (slice_index bytes.now)) }
        ensures unchanged { OnErr result (IsSame self.old self.new) }
    {
        self.spaces[space.0 as usize].load(base, bytes)
    }

    /// All bytes that aren't what they were in an opening state with the same spaces, by space and
    /// then offset.
    pub fn changes(&self, alloc: Global, opening: &State) -> Result<Vec<Change>, AllocError>
        requires { address_sizes opening.now ≡ address_sizes self.now }
        ensures { IfOk result (λ changes. ListsChanges opening.now self.now changes.items) }
    {
        let mut list = Vec::new(alloc);
        for space in 0..self.spaces.len() {
            self.push_changes(opening, space, &mut list)?;
        }
        Ok(list)
    }

    // Goes on from a list of the changes of the spaces before this one.
    fn push_changes(
        &self,
        opening: &State,
        space: usize,
        list: &mut Vec<Change>,
    ) -> Result<(), AllocError>
        requires here { space < length (address_sizes self.now) }
        requires there { space < length (address_sizes opening.now) }
        requires before { ListsChangesBefore opening.now self.now space 0 list.old.items }
        ensures { OnOk result (ListsChangesBefore opening.now self.now (space + 1) 0 list.new.items) }
    {
        let mut from = 0;
        while let Some(offset) = self.next_difference(opening, space, from) {
            let change = self.change_at(space, offset);
            list.push(change)?;
            let Some(next) = offset.checked_add(1) else {
                break;
            };
            from = next;
        }
        Ok(())
    }

    fn next_difference(&self, opening: &State, space: usize, from: u64) -> Option<u64>
        requires here { space < length (address_sizes self.now) }
        requires there { space < length (address_sizes opening.now) }
        ensures { IsFirstDifference (byte_at opening.now space) (byte_at self.now space) from (2 ^ 64) result }
    {
        self.spaces[space].next_difference(&opening.spaces[space], from)
    }

    fn change_at(&self, space: usize, offset: u64) -> Change
        requires { space < length (address_sizes self.now) }
        ensures { result ≡ change_of space offset (byte_at self.now space offset) }
    {
        let byte = self.spaces[space].byte(offset);
        let space = SpaceId(space as u32);
        Change {
            space,
            offset,
            byte,
        }
    }
}
