//! The default space.

ghost use Rattle.std.specs.Prelude.{◌≡◌, IfOk, Some, position};

use sl_spec::Tables;
use sl_word::SpaceId;
use std::alloc::AllocError;

/// The number of the default space.
fn default_index(t: &Tables) -> Option<usize>
    ensures { result ≡ position (λ z. z.default) t.now.spaces }
{
    t.spaces.iter().position(|space| space.default)
}

/// The default space of tables. By rule 32 an accepted text has one, and its number has 32 bits; else
/// it would be want of memory.
pub fn default_space(t: &Tables) -> Result<SpaceId, AllocError>
    ensures { IfOk result (λ space. position (λ z. z.default) t.now.spaces ≡ Some space.0) }
{
    let Some(index) = default_index(t) else {
        return Err(AllocError);
    };
    match u32::try_from(index) {
        Ok(number) => Ok(SpaceId(number)),
        Err(_) => Err(AllocError),
    }
}
