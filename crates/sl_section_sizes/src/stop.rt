//! Why sections aren't sized.

ghost use Rattle.std.specs.Prelude.{◌≡◌};
ghost use Rattle.sl_section_sizes.specs.Sizings as z;

use sl_sizes::SizeError;

/// Why a section isn't sized.
#[derive(Clone, Copy, Debug, Drop, PartialEq, Eq)]
pub enum Stop {
    /// Its equations haven't just one solution. This is never `NoMemory`.
    Sizes(SizeError),
    /// Rule 40 is broken.
    Rule,
    NoMemory,
}

/// Why the sections of a text aren't sized. A number is the index of the first constructor that
/// isn't, in the order in which they are given.
#[derive(Clone, Copy, Debug, Drop, PartialEq, Eq)]
pub enum SizingError {
    /// Its equations haven't just one solution. This is never `NoMemory`.
    Sizes(usize, SizeError),
    /// Rule 40 is broken.
    Rule(usize),
    /// Memory ran out, whatever the constructors are.
    NoMemory,
}

pub(crate) fn stop_of(error: SizeError) -> Stop
    ensures { result ≡ z.stop_of error }
{
    match error {
        SizeError::NoMemory => Stop::NoMemory,
        SizeError::Clash(index) => Stop::Sizes(SizeError::Clash(index)),
        SizeError::Unfixed(x) => Stop::Sizes(SizeError::Unfixed(x)),
    }
}

pub(crate) fn error_at(index: usize, stop: Stop) -> SizingError
    ensures { result ≡ z.error_at index stop }
{
    match stop {
        Stop::NoMemory => SizingError::NoMemory,
        Stop::Sizes(error) => SizingError::Sizes(index, error),
        Stop::Rule => SizingError::Rule(index),
    }
}
