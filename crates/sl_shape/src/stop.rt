//! Why the work on a constructor stops.

use crate::faults::Fault;
use std::alloc::AllocError;

#[derive(Clone, Copy, Debug, PartialEq, Eq)]
pub enum Stop {
    Fault(Fault),
    NoMemory,
}

impl From<AllocError> for Stop {
    ghost use Rattle.std.specs.Prelude.{◌≡◌};
    ghost use Rattle.sl_shape.specs.declared.stop.Stop.{Stop};

    ghost from_gives = { λ _ error. error ≡ Stop.NoMemory };

    fn from(_: AllocError) -> Self {
        Stop::NoMemory
    }
}
