//! Sizes.

ghost use Rattle.std.specs.Prelude.{◌≡◌, ◌≤◌};
ghost use Rattle.sl_build_template.specs.Views.{size_in};
ghost use Rattle.sl_section_equations.specs.Equations.{size_at};

use sl_word::{AddressSize, Size};

/// A size of `n` bytes.
pub fn sized(n: u8) -> Size
    requires some { 1 ≤ n }
    requires at_most_16 { n ≤ 16 }
    ensures value { result ≡ size_at n }
    ensures bytes { result.bytes ≡ n }
{
    Size::new(n).unwrap()
}

/// The size, as the definitions make it of its bytes.
pub(crate) fn same_size(n: Size) -> Size
    ensures { result ≡ size_at n.bytes }
{
    n
}

/// The size of an address.
pub fn of_address(n: AddressSize) -> Size
    ensures value { result ≡ size_at n.bytes }
    ensures bytes { result.bytes ≡ n.bytes }
{
    sized(n.bytes)
}

/// The size of a variable.
pub(crate) fn size_of_variable(sizes: &[Size], x: u32) -> Size
    ensures { result ≡ size_in sizes.now x }
{
    match sizes.get(x as usize) {
        Some(n) => *n,
        None => sized(1),
    }
}
