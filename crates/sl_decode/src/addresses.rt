//! Addresses of the default space.

ghost use Rattle.std.specs.Prelude.{◌≡◌, ◌+◌, ◌%◌, ◌^◌, find, option_copied};
ghost use Rattle.sl_decode_meaning.specs.Actions.{address_bytes, address_in};

use sl_spec::{Space, Tables};
use sl_word::AddressSize;

fn size_of(space: &Space) -> AddressSize
    ensures { result.bytes ≡ space.now.size }
{
    AddressSize { bytes: space.size }
}

fn default_space<'t, 'a>(t: &'t Tables<'a>) -> Option<&'t Space<'a>>
    ensures { option_copied result ≡ find (λ s. s.default) t.now.spaces }
{
    t.spaces.iter().find(|space| space.default)
}

/// The size of an address of the default space.
pub fn address_size(t: &Tables) -> AddressSize
    ensures { result.bytes ≡ address_bytes t.now }
{
    match default_space(t) {
        Some(space) => size_of(space),
        None => AddressSize { bytes: 8 },
    }
}

/// The number modulo 256^`bytes`.
fn wrapped(number: u128, size: AddressSize) -> u64
    ensures { result ≡ number % 256 ^ size.bytes }
{
    (number % (1 << (8 * u32::from(size.bytes)))) as u64
}

/// An address of the default space.
pub fn address_in(t: &Tables, number: u64) -> u64
    ensures { result ≡ address_in t.now number }
{
    wrapped(number.into(), address_size(t))
}

/// The address behind so many bytes.
pub fn address_behind(t: &Tables, address: u64, length: u32) -> u64
    ensures { result ≡ address_in t.now (address + length) }
{
    wrapped(u128::from(address) + u128::from(length), address_size(t))
}
