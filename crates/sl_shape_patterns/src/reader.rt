//! What patterns are read with.

ghost use Rattle.std.specs.Prelude.{◌≡◌, List, Option, ℕ, IfOk};
ghost use Rattle.sl_ast.specs.Trees.{Pattern};
ghost use Rattle.sl_ast.specs.Views.{pattern_of};
ghost use Rattle.sl_shape_patterns.specs.Patterns.{capped};

use sl_ast::patterns::Pattern;
use sl_cube::Cube;
use sl_spec::Tables;
use std::alloc::{AllocError, Global};

/// How many bytes patterns have.
pub trait Lengths {
    ghost bytes: { Self → Pattern → Option ℕ };

    /// The number of bytes of a pattern that has a fixed number of them, told up to 4,294,967,295;
    /// none where it has no fixed number.
    fn bytes_of(&self, alloc: Global, of: &Pattern) -> Result<Option<u32>, AllocError>
        ensures { IfOk result (λ found. found ≡ capped (bytes self.now (pattern_of of.now))) };
}

/// What patterns are read with: the tables of their specification, how many bytes patterns have,
/// and the hulls of the tables by their numbers, where they are known.
#[derive(Drop)]
pub struct Reader<'r, 'a, L> {
    pub tables: &'r Tables<'a>,
    pub lengths: &'r L,
    pub hulls: &'r [Option<Cube>],
}
