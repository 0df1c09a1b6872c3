//! Why the sections of a text have no sizes.

use std::alloc::AllocError;

/// Why a section has no sizes.
#[derive(Clone, Copy, Debug, Drop, PartialEq, Eq)]
pub enum SizeFault {
    /// No sizes fit.
    Clash,
    /// Several sizes fit.
    Unfixed,
    /// Rule 40 is broken.
    Rule,
}

/// Why the sections of a text have no sizes.
#[derive(Clone, Copy, Debug, Drop, PartialEq, Eq)]
pub enum SizesError {
    /// The fault of the constructor of this item.
    Fault(u32, SizeFault),
    /// Memory ran out, whatever the sections are.
    NoMemory,
}

impl From<AllocError> for SizesError {
    ghost use Rattle.std.specs.Prelude.{◌≡◌};
    ghost use Rattle.sl_section_sizes.specs.declared.faults.SizesError.{SizesError};

    ghost from_gives = { λ _ error. error ≡ SizesError.NoMemory };

    fn from(_: AllocError) -> Self {
        SizesError::NoMemory
    }
}
