//! Why something is refused.

use std::alloc::AllocError;

/// The number of the broken rule, or want of memory.
#[derive(Clone, Copy, Debug, PartialEq, Eq)]
pub enum Fault {
    Rule(u8),
    NoMemory,
}

impl From<AllocError> for Fault {
    ghost use Rattle.std.specs.Prelude.{◌≡◌};
    ghost use Rattle.sl_spec_rules.specs.declared.fault.Fault.{Fault};

    ghost from_gives = { λ _ fault. fault ≡ Fault.NoMemory };

    fn from(_: AllocError) -> Self {
        Fault::NoMemory
    }
}
