//! The sizes of the addresses of spaces.

ghost use Rattle.std.specs.Prelude.{◌≡◌, map, IfOk};
ghost use Rattle.sl_section_sizes.specs.Ordering.{default_size};
ghost use Rattle.sl_word.specs.Sizes.{byte_counts};

use sl_spec::{Space, Tables};
use sl_word::AddressSize;
use std::alloc::{AllocError, Global};

/// The size of a space's addresses.
fn address_size(space: &Space) -> AddressSize
    ensures { result.bytes ≡ space.now.size }
{
    AddressSize { bytes: space.size }
}

/// The sizes of the addresses of all spaces, in their order. The only error is want of memory.
pub fn address_sizes(alloc: Global, t: &Tables) -> Result<Vec<AddressSize>, AllocError>
    ensures { IfOk result (λ v. byte_counts v.items ≡ map (λ s. s.size) t.now.spaces) }
{
    let mut sizes = Vec::new(alloc);
    'spaces: for index in 0..t.spaces.len() {
        sizes.push(address_size(t.spaces.member(index)))?;
    }
    Ok(sizes)
}

/// The size of the default space's addresses; 1 where there is none.
pub fn default_size(t: &Tables) -> AddressSize
    ensures { result.bytes ≡ default_size t.now }
{
    match t.spaces.iter().find(|space| space.default) {
        Some(space) => address_size(space),
        None => AddressSize { bytes: 1 },
    }
}
