//! Numbers that have the bits of a value under a mask.

ghost use Rattle.std.specs.Prelude.{◌≡◌, ◌↔◌, ◌<◌, ◌^◌, ℕ, IsTrue, bit_and};
ghost use Rattle.sl_cube.specs.Bits.{Agrees};
ghost use Rattle.sl_cube.specs.TopBits.{IncludesBelow, IsTopBit};

/// Whether the number has each bit that the mask fixes.
pub fn agrees(mask: u128, value: u128, number: u128) -> bool
    requires { bit_and value mask ≡ value }
    ensures { IsTrue result ↔ Agrees mask value number }
{
    number & mask == value
}

/// Whether each number that agrees with the inner mask and value agrees with the outer ones.
pub fn includes(mask: u128, value: u128, inner_mask: u128, inner_value: u128) -> bool
    requires outer { bit_and value mask ≡ value }
    requires inner { bit_and inner_value inner_mask ≡ inner_value }
    ensures { (width : ℕ) → mask < 2 ^ width → inner_value < 2 ^ width
        → (IsTrue result ↔ IncludesBelow width mask value inner_mask inner_value) }
{
    let fixed = mask & inner_mask == mask;
    let same = inner_value & mask == value;
    fixed && same
}

/// The highest bit of a number that has one.
pub fn top_bit(number: u128) -> u128
    requires { 0 < number }
    ensures { IsTopBit number result }
{
    1 << (127 - number.leading_zeros())
}
