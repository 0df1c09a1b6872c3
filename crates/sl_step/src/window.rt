//! The bytes that an instruction is decoded from.

ghost use Rattle.std.specs.Prelude.{◌≡◌, ◌%◌, ◌^◌, ◌<◌, length};
ghost use Rattle.sl_step.specs.Windows.{bytes_in, window_in};
ghost use Rattle.sl_word.specs.Bytes.{address_sizes};

use sl_word::{AddressSize, SpaceId, State};

/// The number of bytes that a decode is told, those of the longest instruction and those beyond it
/// that are looked at.
pub(crate) const WINDOW: usize = 272;

/// As many are compared with those that a kept instruction was read from.
pub(crate) const FEW: usize = 32;

/// The number modulo 256^`bytes`.
pub(crate) fn wrapped(number: u128, size: AddressSize) -> u64
    ensures { result ≡ number % 256 ^ size.bytes }
{
    (number % (1 << (8 * u32::from(size.bytes)))) as u64
}

/// The bytes of a space from an address on, round its end.
pub(crate) fn window_at(state: &State, space: SpaceId, address: u64) -> [u8; WINDOW]
    requires { space.0 < length (address_sizes state.now) }
    ensures { result ≡ window_in state.now space.0 address }
{
    let mut window = [0; WINDOW];
    state.fill(space, address, &mut window);
    window
}

/// The first of them, as many as most decodes look at.
pub(crate) fn few_at(state: &State, space: SpaceId, address: u64) -> [u8; FEW]
    requires { space.0 < length (address_sizes state.now) }
    ensures { result ≡ bytes_in state.now space.0 address FEW }
{
    let mut few = [0; FEW];
    state.fill(space, address, &mut few);
    few
}
