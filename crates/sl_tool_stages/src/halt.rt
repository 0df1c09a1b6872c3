//! Why a call ends without what it was to give.

ghost use Rattle.std.specs.Prelude.{◌≡◌};

use crate::refusal::Refusal;
use std::alloc::AllocError;

/// Why a call ends without what it was to give.
#[derive(Debug, Drop)]
pub enum Halt {
    /// The specification or the image is refused.
    Refused(Refusal),
    /// A file could not be read.
    ReadFault,
    /// The output could not be written. No stage gives this, since none writes.
    WriteFault,
    /// Memory ran out.
    NoMemory,
}

impl From<AllocError> for Halt {
    ghost use Rattle.sl_tool_stages.specs.declared.halt.Halt.TheVariants.{NoMemory};

    ghost from_gives = { λ _ halt. halt ≡ NoMemory };

    fn from(_error: AllocError) -> Halt {
        Halt::NoMemory
    }
}
