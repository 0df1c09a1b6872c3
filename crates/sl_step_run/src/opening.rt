//! Machines before their first step.

ghost use Rattle.std.specs.Prelude.{◌≡◌, ◌+◌, ◌^◌, ◌<◌, ◌≤◌, ◌↔◌, IfOk, IsTrue, ℕ, length, slice_index};
ghost use Rattle.sl_faithful_code.specs.Faithful.{AreBytes};
ghost use Rattle.sl_decode_meaning.specs.Actions.{address_bytes};
ghost use Rattle.sl_step_run.specs.Running.{opening};
ghost use Rattle.sl_step_run.specs.Told.{HasSpacesOf};
ghost use Rattle.sl_word.specs.Bytes.{byte_at};

use sl_list_instructions::Image;
use sl_section_sizes::address_sizes;
use sl_spec::{Space, Tables};
use sl_step::default_space;
use sl_word::{AddressSize, State};
use std::alloc::{AllocError, Global};

/// More spaces than this have no room in memory.
const MOST_SPACES: usize = (1 << 32) - 1;

/// The size of an address of a space.
pub(crate) fn size_of(space: &Space) -> AddressSize
    ensures { result.bytes ≡ space.now.size }
{
    AddressSize { bytes: space.size }
}

/// Whether there are fewer than 2^32 spaces.
fn have_room(sizes: &[AddressSize]) -> bool
    ensures { IsTrue result ↔ (length sizes.now < 2 ^ 32) }
{
    sizes.len() <= MOST_SPACES
}

/// The bytes of an image.
fn bytes_of(image: &Image) -> &[u8]
    ensures same { result.now ≡ image.now.bytes }
    ensures bytes { (k : ℕ) → slice_index image.now.bytes k < 256 }
{
    let bytes = image.bytes.as_slice();
    bytes
}

/// The bytes of a machine before its first step: the image in the default space from its base on,
/// and zeros.
pub(crate) fn opening(alloc: Global, tables: &Tables, image: &Image) -> Result<State, AllocError>
    requires { image.now.base + length image.now.bytes ≤ 256 ^ address_bytes tables.now }
    ensures spaces { IfOk result (HasSpacesOf tables.now) }
    ensures bytes { IfOk result (λ state. AreBytes (byte_at state)) }
    ensures memory { IfOk result (λ state. byte_at state ≡ opening tables.now image.now) }
{
    let sizes = address_sizes(alloc, tables)?;
    if !have_room(sizes.as_slice()) {
        return Err(AllocError);
    }
    let space = default_space(tables)?;
    let mut state = State::new(alloc, tables.endian, sizes.as_slice())?;
    state.load_image(space, image.base, bytes_of(image))?;
    Ok(state)
}
