//! Trees as a program keeps them.

use sl_spec::CtorId;

/// A node of a decoded tree, among all its nodes in a row: depth first, each before those below it.
#[derive(Clone, Copy, Debug, PartialEq, Eq)]
pub struct Entry {
    pub ctor: CtorId,
    /// The node's place, in bytes from the instruction's start.
    pub at: u32,
    /// In bytes.
    pub length: u32,
    /// The context behind the node's own actions.
    pub context: u64,
    /// The index of the first value of its action names among the values of all nodes,
    pub first: usize,
    /// and the index behind the last one.
    pub end: usize,
    /// How many nodes stand below it.
    pub below: usize,
}
