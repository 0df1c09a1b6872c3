//! Words as bytes in memory.

ghost use Rattle.std.specs.Prelude.{◌≡◌, ℕ, ◌+◌, ◌^◌, ◌<◌, ◌≤◌, slice_index, length};
ghost use Rattle.sl_word.specs.Layout.{big_endian, byte_of, little_endian, number_of};

use crate::{Endian, Size, Word};

impl Word {
    /// The word of a size that bytes make in memory.
    pub fn from_bytes(endian: Endian, size: Size, bytes: &[u8]) -> Word
        requires { length bytes.now ≡ size.bytes }
        ensures size { result.size ≡ size }
        ensures value { result.bits ≡ number_of endian (slice_index bytes.now) size.bytes }
    {
        let bits = match endian {
            Endian::Little => least_first(bytes),
            Endian::Big => most_first(bytes),
        };
        Word { bits, size }
    }

    /// The bytes of the word in memory order, and zeros after them.
    pub fn in_memory(self, endian: Endian) -> [u8; 16]
        ensures { (i : ℕ) → i < self.size.bytes → slice_index result i ≡ byte_of endian self.size.bytes self.bits i }
    {
        match endian {
            Endian::Little => self.bits.to_le_bytes(),
            Endian::Big => (self.bits << (128 - self.size.bit_count())).to_be_bytes(),
        }
    }
}

// The number that bytes make, the least significant first.
fn least_first(bytes: &[u8]) -> u128
    requires { length bytes.now ≤ 16 }
    ensures value { result ≡ little_endian (slice_index bytes.now) (length bytes.now) }
    ensures below { result < 256 ^ length bytes.now }
{
    u128::from_le_bytes(among_zeros(bytes, 0))
}

// The same, the most significant first.
fn most_first(bytes: &[u8]) -> u128
    requires { length bytes.now ≤ 16 }
    ensures value { result ≡ big_endian (slice_index bytes.now) (length bytes.now) }
    ensures below { result < 256 ^ length bytes.now }
{
    u128::from_be_bytes(among_zeros(bytes, 16 - bytes.len()))
}

// 16 bytes, with these from a place on and zeros before and behind them.
fn among_zeros(bytes: &[u8], place: usize) -> [u8; 16]
    requires { place + length bytes.now ≤ 16 }
    ensures inside { (i : ℕ) → i < length bytes.now → slice_index result (place + i) ≡ slice_index bytes.now i }
    ensures before { (i : ℕ) → i < place → slice_index result i ≡ 0 }
    ensures behind { (i : ℕ) → place + length bytes.now ≤ i → slice_index result i ≡ 0 }
{
    let mut whole = [0; 16];
    whole[place..place + bytes.len()].copy_from_slice(bytes);
    whole
}
