//! Faults of patterns.

/// Why the pattern of a constructor is refused.
#[derive(Clone, Copy, Debug, PartialEq, Eq)]
pub enum Fault {
    /// What stands behind a pattern that may go on doesn't hold everywhere.
    InteriorEllipsis,
    /// The tokens of two joined patterns differ.
    TokensDiffer,
    /// It holds of no point.
    Impossible,
    /// How many it may need, more than 1,024; the number stops at 4,294,967,295.
    TooManyCubes(u32),
    /// How many bytes there are up to the last one that it looks at, more than 16; the number stops
    /// at 4,294,967,295.
    WindowTooLong(u32),
}
