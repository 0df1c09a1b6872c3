//! The choice among the constructors of a table at a point, found by a tree of tests of bits.
#![tactic(auto)]

mod chooser;
mod counts;
mod entries;
pub mod laws;
mod likely;
mod order;
mod precedence;
mod ranks;
mod shared;
mod sides;
mod splits;
mod tree;

pub use chooser::Chooser;
use sl_cube::{Cube, Point};

/// A cube of the set of a constructor, with the index of both in the lists that were given.
#[derive(Clone, Copy, Debug)]
pub struct Entry {
    pub ctor: u32,
    pub set: usize,
    pub cube: Cube,
}

/// The entries that a point without some bits, and one with some of them, may be in.
#[derive(Drop)]
struct Halves {
    low: Vec<Entry>,
    high: Vec<Entry>,
}

/// A leaf has entries; an inner node tests whether a point has a bit, and leads to its first child
/// where the point lacks it.
#[derive(Debug, Drop)]
enum Node {
    Leaf(Vec<Entry>),
    Test(Point, Box<Node>, Box<Node>),
}
