//! Why a reading stops.

use sl_ast::symbols::Feature;
use std::alloc::{AllocError, AllocFailed};

/// What is wrong at a place.
#[derive(Clone, Copy, Debug)]
pub enum Form {
    /// No tree goes on with the symbol.
    Syntax,
    /// It goes past a limit of nesting.
    Nesting,
    /// A form that the language leaves out, with how many symbols before this place it began.
    NotSupported(Feature, usize),
}

/// Want of memory, or a fault with the number of symbols that are left at its place.
#[derive(Clone, Copy, Debug)]
pub enum Stop {
    NoMemory,
    At(Form, usize),
}

impl From<AllocError> for Stop {
    ghost use Rattle.std.specs.Prelude.{◌≡◌};
    ghost use Rattle.sl_parse_phrases.specs.declared.stop.Stop.TheVariants.{NoMemory};

    ghost from_gives = { λ _ e. e ≡ NoMemory };

    fn from(_: AllocError) -> Stop {
        Stop::NoMemory
    }
}

impl<T: Drop> From<AllocFailed<T>> for Stop {
    ghost use Rattle.std.specs.Prelude.{◌≡◌};
    ghost use Rattle.sl_parse_phrases.specs.declared.stop.Stop.TheVariants.{NoMemory};

    ghost from_gives = { λ _ e. e ≡ NoMemory };

    fn from(_e: AllocFailed<T>) -> Stop {
        Stop::NoMemory
    }
}
