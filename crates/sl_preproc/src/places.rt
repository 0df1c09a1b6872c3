//! Where a line of the expanded text comes from.

/// A line of a file: the number of the file among [`Expanded::files`](crate::Expanded), and the line there,
/// counted from 1. Line 0 stands for the file as a whole.
#[derive(Clone, Copy, Debug, Drop, PartialEq, Eq)]
pub struct Place {
    pub file: u32,
    pub line: u32,
}
