//! What extents of patterns are told by.

ghost use Rattle.std.specs.Prelude.{◌≡◌, ◌/◌, map};
ghost use Rattle.sl_shape_tokens.specs.Bytes.{Knows};

use sl_shape_tokens::{ListBytes, Lists, Shape};
use sl_spec::Tables;

/// The extents of patterns, by the shapes of the tables, whose lists all have known bytes.
#[derive(Drop)]
pub struct Extents<'r, 'a> {
    pub tables: &'r Tables<'a>,
    pub lists: &'r Lists,
    pub bytes: &'r ListBytes,
    pub shapes: &'r [Shape],
    ghost sizes: { bytes.now.sizes.items ≡ map (λ token. token.bits / 8) tables.now.tokens },
    ghost knows: { Knows bytes.now lists.now },
}
