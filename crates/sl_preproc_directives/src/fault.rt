//! Why a line is refused.

ghost use Rattle.std.specs.Prelude.{◌≡◌};
ghost use Rattle.sl_preproc_directives.specs.declared.fault.Fault.TheVariants.{Refused, NoMemory};

use std::alloc::{AllocError, AllocFailed};

/// Why a text has no expansion.
#[derive(Clone, Copy, Debug, Drop, PartialEq, Eq)]
pub enum Cause {
    NoFile,
    TooLong,
    IncludeDepth,
    UndefinedName,
    ReplaceDepth,
    BadDirective,
    Unbalanced,
}

/// Why a step gives up.
#[derive(Clone, Copy, Debug, Drop, PartialEq, Eq)]
pub enum Fault {
    Refused(Cause),
    NoMemory,
}

impl From<AllocError> for Fault {
    ghost from_gives = { λ _ e. e ≡ NoMemory };

    fn from(_error: AllocError) -> Fault {
        Fault::NoMemory
    }
}

impl<T: Drop> From<AllocFailed<T>> for Fault {
    ghost from_gives = { λ _ e. e ≡ NoMemory };

    fn from(_error: AllocFailed<T>) -> Fault {
        Fault::NoMemory
    }
}

impl From<Cause> for Fault {
    ghost from_gives = { λ cause e. e ≡ Refused cause };

    fn from(cause: Cause) -> Fault {
        Fault::Refused(cause)
    }
}
