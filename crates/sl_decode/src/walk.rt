//! Buffers of a decode.

use sl_decode_contexts::Commit;
use sl_decode_meaning::{Entry, Noted};
use sl_spec::CtorId;
use std::alloc::Global;

/// A node of a tree that grows, among all its nodes in a row: depth first, each before those below
/// it.
#[derive(Clone, Copy, Debug)]
pub struct Sprout {
    pub ctor: CtorId,
    pub at: u32,
    pub length: u32,
    pub context: u64,
    /// How many notes are the node's own.
    pub noted: usize,
    /// How many nodes stand below it.
    pub below: usize,
}

/// A tree as it grows.
#[derive(Drop)]
pub struct Growth {
    /// Its nodes in a row.
    pub sprouts: Vec<Sprout>,
    /// The notes of all nodes, in the same order.
    pub notes: Vec<Noted>,
}

/// Room for one node at a time.
#[derive(Drop)]
pub struct NodeRoom {
    /// The lengths of its operands.
    pub lengths: Vec<u32>,
    /// The values of its action names.
    pub values: Vec<i64>,
}

/// A decoded tree. It is used again from instruction to instruction, and takes no memory once it
/// has grown.
#[derive(Drop)]
pub struct Walk {
    /// All nodes, depth first, each before those below it.
    pub nodes: Vec<Entry>,
    /// The values of the action names of all nodes, in the same order.
    pub values: Vec<i64>,
    /// All commits in order.
    pub commits: Vec<Commit>,
    /// The tree as it grows, before its late moments.
    pub(crate) growth: Growth,
    pub(crate) room: NodeRoom,
}

impl Walk {
    /// Buffers without anything. They take no memory yet.
    pub fn new(alloc: Global) -> Walk {
        Walk {
            nodes: Vec::new(alloc),
            values: Vec::new(alloc),
            commits: Vec::new(alloc),
            growth: Growth {
                sprouts: Vec::new(alloc),
                notes: Vec::new(alloc),
            },
            room: NodeRoom {
                lengths: Vec::new(alloc),
                values: Vec::new(alloc),
            },
        }
    }
}

/// What is known of a decoded instruction beside its tree.
#[derive(Clone, Copy, Debug, PartialEq, Eq)]
pub struct Instruction {
    /// In bytes.
    pub length: u32,
    /// The address behind it.
    pub after: u64,
}
