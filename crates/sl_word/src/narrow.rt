//! Words of at most 8 bytes, as numbers of 64 bits.

ghost use Rattle.std.specs.Prelude.{◌≡◌, ℕ, ◌+◌, ◌^◌, ◌<◌, ◌≤◌, slice_index, length};
ghost use Rattle.sl_word.specs.Layout.{byte_of, number_of};
ghost use Rattle.sl_word.specs.declared.word.Endian.TheVariants.{Little, Big};

use crate::{Endian, Size, Word};

/// A word of at most 8 bytes: `bits` is below 256^size.
#[derive(Clone, Copy, Debug, PartialEq, Eq)]
pub struct Narrow {
    pub bits: u64,
    pub size: Size,
    ghost in_range: { bits < 256 ^ size.bytes },
    ghost at_most_8: { size.bytes ≤ 8 },
}

impl Narrow {
    /// The same word, among those of all sizes.
    pub fn word(self) -> Word
        ensures size { result.size ≡ self.size }
        ensures value { result.bits ≡ self.bits }
    {
        let bits = u128::from(self.bits);
        Word {
            bits,
            size: self.size,
        }
    }

    /// The word of a size that the first of 8 bytes make in memory.
    pub fn from_first(endian: Endian, size: Size, bytes: [u8; 8]) -> Narrow
        requires { size.bytes ≤ 8 }
        ensures size { result.size ≡ size }
        ensures value { result.bits ≡ number_of endian (slice_index bytes) size.bytes }
    {
        let bits = first_number(endian, size, bytes);
        Narrow { bits, size }
    }

    /// The bytes of the word in memory order, and zeros after them.
    pub fn in_memory(self, endian: Endian) -> [u8; 8]
        ensures { (i : ℕ) → i < self.size.bytes → slice_index result i ≡ byte_of endian self.size.bytes self.bits i }
    {
        match endian {
            Endian::Little => self.least_first(),
            Endian::Big => self.most_first(),
        }
    }

    // Its bytes, the least significant first.
    pub(crate) fn least_first(self) -> [u8; 8]
        ensures { (i : ℕ) → i < self.size.bytes → slice_index result i ≡ byte_of Little self.size.bytes self.bits i }
    {
        self.bits.to_le_bytes()
    }

    // Its bytes, the most significant first.
    pub(crate) fn most_first(self) -> [u8; 8]
        ensures { (i : ℕ) → i < self.size.bytes → slice_index result i ≡ byte_of Big self.size.bytes self.bits i }
    {
        (self.bits << (64 - self.size.bit_count())).to_be_bytes()
    }
}

// The number that the first of 8 bytes make in memory.
fn first_number(endian: Endian, size: Size, bytes: [u8; 8]) -> u64
    requires { size.bytes ≤ 8 }
    ensures value { result ≡ number_of endian (slice_index bytes) size.bytes }
    ensures below { result < 256 ^ size.bytes }
{
    let rest = 64 - size.bit_count();
    match endian {
        Endian::Little => u64::from_le_bytes(bytes) & (u64::MAX >> rest),
        Endian::Big => u64::from_be_bytes(bytes) >> rest,
    }
}

/// Eight bytes of a slice, from one on.
pub fn eight_at(bytes: &[u8], place: usize) -> [u8; 8]
    requires { place + 8 ≤ length bytes.now }
    ensures { (i : ℕ) → i < 8 → slice_index result i ≡ slice_index bytes.now (place + i) }
{
    [
        bytes[place],
        bytes[place + 1],
        bytes[place + 2],
        bytes[place + 3],
        bytes[place + 4],
        bytes[place + 5],
        bytes[place + 6],
        bytes[place + 7],
    ]
}
