//! The tree: entries split at bits, as far as the leaves may have so many entries.

ghost use Rattle.std.specs.Prelude.{◌≡◌, ◌≤◌, Contains, List, IfOk, length};
ghost use Rattle.sl_cube.specs.declared.Point.{Point};
ghost use Rattle.sl_cube_sets.specs.declared.CubeSet.{CubeSet};
ghost use Rattle.sl_choose.specs.declared.Entry.{Entry};
ghost use Rattle.sl_choose.specs.Picked.{leaf_at};
ghost use Rattle.sl_choose.specs.Ranks.{AreRanks};
ghost use Rattle.sl_choose.specs.Splits.{HasEntry, IsGrown, IsUnsplit};
ghost use Rattle.sl_choose.specs.Trees.{IsTreeOf, IsLeafOf, entries_in, IsTest};

use super::order::ordered;
use super::sides::{lacks, sides};
use super::splits::chosen;
use super::{Entry, Node};
use sl_cube::Point;
use std::alloc::{AllocError, Global};

/// A leaf of all entries, in order.
fn leaf(alloc: Global, ranks: &[usize], entries: &[Entry], room: usize) -> Result<Node, AllocError>
    requires fits { length entries.now ≤ room }
    requires unsplit { IsUnsplit entries.now room }
    ensures size { IfOk result (λ node. entries_in node ≤ room) }
    ensures grown { IfOk result (λ node. IsGrown node room) }
    ensures all { IfOk result (λ node. (e : Entry) → Contains entries.now e → HasEntry node e) }
    ensures tree { IfOk result (λ node. (sets : List CubeSet) → AreRanks sets ranks.now
        → (p : Point) → IsTreeOf sets node entries.now p) }
{
    let in_order = ordered(alloc, ranks, entries)?;
    Ok(Node::Leaf(in_order))
}

/// An inner node.
fn test(alloc: Global, bits: Point, low: Node, high: Node) -> Result<Node, AllocError>
    ensures { IfOk result (λ node. IsTest bits low high node) }
{
    let low = Box::new(alloc, low)?;
    Ok(Node::Test(bits, low, Box::new(alloc, high)?))
}

/// The part of the spare room that falls to the lower side, in proportion to its entries.
fn share(low: usize, high: usize, spare: usize) -> usize
    ensures { result ≤ spare }
{
    let part = low.saturating_mul(spare) / low.saturating_add(high).max(1);
    part.min(spare)
}

/// A tree for the entries, with at most `room` entries in its leaves, none of which can be split
/// within its share of the room.
pub fn grow(
    alloc: Global,
    ranks: &[usize],
    entries: Vec<Entry>,
    room: usize,
) -> Result<Node, AllocError>
    requires { length entries.items ≤ room }
    ensures size { IfOk result (λ node. entries_in node ≤ room) }
    ensures grown { IfOk result (λ node. IsGrown node room) }
    ensures all { IfOk result (λ node. (e : Entry) → Contains entries.items e → HasEntry node e) }
    ensures tree { IfOk result (λ node. (sets : List CubeSet) → AreRanks sets ranks.now
        → (p : Point) → IsTreeOf sets node entries.items p) }
{
    let Some(bits) = chosen(&entries, room) else {
        let all = leaf(alloc, ranks, &entries, room)?;
        return Ok(all);
    };
    let both = sides(alloc, &entries, &bits)?;
    drop(entries);
    let low = both.low.len();
    let high = both.high.len();
    let low_room = low + share(low, high, room - low - high);
    let below = grow(alloc, ranks, both.low, low_room)?;
    let above = grow(alloc, ranks, both.high, room - low_room)?;
    let node = test(alloc, bits, below, above)?;
    Ok(node)
}

/// The entries of the leaf that the point leads to.
pub fn leaf_of<'a>(node: &'a Node, point: &Point) -> &'a [Entry]
    ensures leaf { (sets : List CubeSet) (entries : List Entry)
        → IsTreeOf sets node.now entries point.now
        → IsLeafOf sets entries point.now result.now }
    ensures value { result.now ≡ leaf_at node.now point.now }
{
    match node {
        Node::Leaf(entries) => entries.as_slice(),
        Node::Test(bits, low, high) => {
            if lacks(bits, point) {
                leaf_of(low, point)
            } else {
                leaf_of(high, point)
            }
        }
    }
}
