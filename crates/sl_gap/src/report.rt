//! The report.

use sl_cube::Point;
use sl_spec::{CtorId, TableId};

/// A point at which the constructor is chosen, and one behind it at which its first table operand has
/// no choice.
#[derive(Clone, Copy, Debug, PartialEq, Eq)]
pub struct Hole {
    pub ctor: CtorId,
    pub operand: TableId,
    pub parent: Point,
    pub child: Point,
}

/// What a specification leaves unmatched.
#[derive(Debug, Drop)]
pub struct Report {
    /// For each table, by its number, its least unmatched point.
    pub tables: Vec<Option<Point>>,
    /// The constructors that are chosen at no point, in the order of the text.
    pub shadowed: Vec<CtorId>,
    /// The least hole of each constructor that has one, in the order of the text.
    pub holes: Vec<Hole>,
    /// Whether no decode can end for want of a constructor.
    pub sure: bool,
}
