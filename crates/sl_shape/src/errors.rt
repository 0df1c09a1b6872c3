//! Why constructors have no sets.

use sl_spec::CtorId;
use std::alloc::AllocError;

/// The first fault of a constructor, or want of memory.
#[derive(Clone, Copy, Debug, PartialEq, Eq)]
pub enum ShapeError {
    /// What stands behind a pattern that may go on doesn't hold everywhere.
    InteriorEllipsis(CtorId),
    /// The tokens of two joined patterns differ.
    TokensDiffer(CtorId),
    /// Its pattern holds of no point.
    Impossible(CtorId),
    /// How many cubes it may need, more than 1,024; the number stops at 4,294,967,295.
    TooManyCubes(CtorId, u32),
    /// How many bytes there are up to the last one that it looks at, more than 16; the number stops
    /// at 4,294,967,295.
    WindowTooLong(CtorId, u32),
    NoMemory,
}

impl From<AllocError> for ShapeError {
    ghost use Rattle.std.specs.Prelude.{◌≡◌};
    ghost use Rattle.sl_shape.specs.declared.errors.ShapeError.{ShapeError};

    ghost from_gives = { λ _ error. error ≡ ShapeError.NoMemory };

    fn from(_: AllocError) -> Self {
        ShapeError::NoMemory
    }
}
