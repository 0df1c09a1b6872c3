//! Sizes, words and the numbers that name spaces and user operations.

ghost use Rattle.std.specs.Prelude.{◌≡◌, ◌*◌, ◌+◌, ◌-◌, ◌/◌, ◌%◌, ◌^◌, ◌<◌, ◌≤◌, ◌↔◌, IsTrue, IsSome, IfSome};

/// A number of bytes, from 1 to 16.
#[derive(Clone, Copy, Debug, PartialEq, Eq)]
pub struct Size {
    pub bytes: u8,
    ghost some: { 1 ≤ bytes },
    ghost at_most_16: { bytes ≤ 16 },
}

impl Size {
    /// The size of so many bytes.
    pub fn new(n: u8) -> Option<Size>
        ensures valid { IsSome result ↔ ((1 ≤ n) × (n ≤ 16)) }
        ensures value { IfSome result (λ size. size.bytes ≡ n) }
    {
        if n == 0 || n > 16 {
            return None;
        }
        Some(Size { bytes: n })
    }

    /// The number of bytes.
    pub fn get(self) -> u8
        ensures { result ≡ self.bytes }
    {
        self.bytes
    }

    /// Whether words of this size are numbers of 64 bits.
    pub fn is_narrow(self) -> bool
        ensures { IsTrue result ↔ (self.bytes ≤ 8) }
    {
        self.bytes <= 8
    }

    pub(crate) fn bit_count(self) -> u32
        ensures { result ≡ 8 * self.bytes }
    {
        8 * u32::from(self.bytes)
    }

    // The greatest number of this size.
    pub(crate) fn greatest(self) -> u128
        ensures { result + 1 ≡ 256 ^ self.bytes }
    {
        u128::MAX >> (128 - self.bit_count())
    }

    // The lowest bytes of a number.
    pub(crate) fn low(self, value: u128) -> u128
        ensures value { result ≡ value % 256 ^ self.bytes }
        ensures below { result < 256 ^ self.bytes }
    {
        value & self.greatest()
    }
}

/// The number of bytes of an address in one space, from 1 to 8.
#[derive(Clone, Copy, Debug, PartialEq, Eq)]
pub struct AddressSize {
    pub bytes: u8,
    ghost some: { 1 ≤ bytes },
    ghost at_most_8: { bytes ≤ 8 },
}

impl AddressSize {
    /// The size of addresses of `n` bytes.
    pub fn new(n: u8) -> Option<AddressSize>
        ensures valid { IsSome result ↔ ((1 ≤ n) × (n ≤ 8)) }
        ensures value { IfSome result (λ size. size.bytes ≡ n) }
    {
        if n == 0 || n > 8 {
            return None;
        }
        Some(AddressSize { bytes: n })
    }

    /// The number of bytes.
    pub fn get(self) -> u8
        ensures { result ≡ self.bytes }
    {
        self.bytes
    }
}

/// The order of the bytes of a number in memory: the least significant byte first, or last.
#[derive(Clone, Copy, Debug, PartialEq, Eq)]
pub enum Endian {
    Little,
    Big,
}

/// A number of a size: `bits` is below 256^size.
#[derive(Clone, Copy, Debug, PartialEq, Eq)]
pub struct Word {
    pub bits: u128,
    pub size: Size,
    ghost in_range: { bits < 256 ^ size.bytes },
}

impl Word {
    /// The word of this number, where the size has room for it.
    pub fn new(bits: u128, size: Size) -> Option<Word>
        ensures valid { IsSome result ↔ (bits < 256 ^ size.bytes) }
        ensures value { IfSome result (λ word. (word.bits ≡ bits) × (word.size ≡ size)) }
    {
        if bits > size.greatest() {
            return None;
        }
        Some(Word { bits, size })
    }
}

/// An address space, by its place in the list of spaces.
#[derive(Clone, Copy, Debug, PartialEq, Eq, PartialOrd, Ord)]
pub struct SpaceId(pub u32);

/// A user operation (`define pcodeop`), by its place in the list of user operations.
#[derive(Clone, Copy, Debug, PartialEq, Eq, PartialOrd, Ord)]
pub struct UserId(pub u32);
