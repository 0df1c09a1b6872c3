//! Why a specification is refused.

use sl_conflict::Apart;
use sl_cube::Point;
use std::alloc::AllocError;
use std::marker::Model;

/// What is wrong with an item of a specification.
#[derive(Clone, Copy, Debug, PartialEq, Eq)]
pub enum Flaw {
    /// A rule of the language is broken, by its number.
    Rule(u8),
    /// No sizes fit the section of a constructor.
    SizeClash,
    /// Several sizes fit the section of a constructor.
    SizeUnfixed,
    /// What stands behind a pattern that may go on doesn't hold everywhere.
    InteriorEllipsis,
    /// The tokens of two joined patterns differ.
    TokensDiffer,
    /// A pattern holds of no point.
    Impossible,
    /// How many cubes a pattern may need, more than 1,024; the number stops at 4,294,967,295.
    TooManyCubes(u32),
    /// How many bytes there are up to the last one that a pattern looks at, more than 16; the number
    /// stops at 4,294,967,295.
    WindowTooLong(u32),
}

/// A table that isn't settled. `both` is the least point that some constructor of it has and at which
/// none is the most specific; `first` and `second` are the first tokens of the first two constructors
/// that have it and of which neither lies properly within the other, and `apart` tells how these two
/// differ.
#[derive(Debug, Drop)]
pub struct Ambiguity<'a> {
    pub table: &'a [u8],
    pub first: Option<usize>,
    pub second: Option<usize>,
    pub both: Point,
    pub apart: Apart,
}

impl<'a> Model for Ambiguity<'a> {
    ghost use Rattle.sl_bind_compile.specs.Ambiguity as spec;

    ghost Value = { spec.Ambiguity };

    ghost view = { λ a. record {
      table = a.table.now;
      first = a.first;
      second = a.second;
      both = a.both;
      apart = a.apart;
    } };
}

/// Why a specification is refused.
#[derive(Debug, Drop)]
pub enum CompileError<'a> {
    /// What is wrong with the item that has this first token; none is the text's end.
    Flaw { flaw: Flaw, token: Option<usize> },
    /// No item has a flaw, and a table isn't settled: the first one of the text.
    Ambiguous(Ambiguity<'a>),
    NoMemory,
}

impl<'a> From<AllocError> for CompileError<'a> {
    ghost use Rattle.std.specs.Prelude.{◌≡◌};
    ghost use Rattle.sl_bind_compile.specs.declared.error.CompileError.{CompileError};

    ghost from_gives = { λ _ error. error ≡ CompileError.NoMemory };

    fn from(_: AllocError) -> Self {
        CompileError::NoMemory
    }
}
