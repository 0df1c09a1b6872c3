//! Heights of nodes.

ghost use Rattle.std.specs.Prelude.{◌≡◌, ◌<◌, ◌+◌, IfOk, OnOk, get_or, length, set};
ghost use Rattle.sl_base_graphs.specs.Heights.{AreHeights, above};
ghost use Rattle.sl_base_graphs.specs.Orders.{NoneReaches};
ghost use Rattle.sl_base_graphs.specs.Reaching.{successors};
ghost use Rattle.sl_base_graphs.specs.Views.{graph_of};

use crate::order::order_of;
use std::alloc::{AllocError, Global};

/// The height of a node; 0 for a number that is no node.
pub fn height_at(heights: &[usize], node: usize) -> usize
    ensures { result ≡ get_or heights.now node 0 }
{
    match heights.get(node) {
        Some(height) => *height,
        None => 0,
    }
}

/// One more. 2^64 nodes would be want of memory.
fn next(height: usize) -> Result<usize, AllocError>
    ensures { IfOk result (λ next. next ≡ 1 + height) }
{
    height.checked_add(1).ok_or(AllocError)
}

/// One more than the greatest height of some nodes, and 0 for none.
pub fn above(heights: &[usize], nodes: &[usize]) -> Result<usize, AllocError>
    ensures { IfOk result (λ n. n ≡ above (λ w. get_or heights.now w 0) nodes.now) }
{
    let mut most = 0usize;
    'nodes: for node in nodes {
        let one = next(height_at(heights, *node))?;
        most = most.max(one);
    }
    Ok(most)
}

/// Sets the height of a node by those of its successors.
fn set_height(heights: &mut Vec<usize>, graph: &[Vec<usize>], node: usize) -> Result<(), AllocError>
    ensures long { length heights.new.items ≡ length heights.old.items }
    ensures here { OnOk result (node < length graph.now → node < length heights.old.items
        → heights.new.items ≡ set heights.old.items node
        (above (λ w. get_or heights.old.items w 0) (successors (graph_of graph.now) node))) }
{
    let Some(successors) = graph.get(node) else {
        return Ok(());
    };
    let height = above(heights.as_slice(), successors.as_slice())?;
    if node < heights.len() {
        heights[node] = height;
    }
    Ok(())
}

/// The height of each node of a graph without a cycle: 0 without successors, and else one more than
/// the greatest height of a successor. The only error is want of memory.
pub fn heights_of(alloc: Global, graph: &[Vec<usize>]) -> Result<Vec<usize>, AllocError>
    ensures { IfOk result (λ heights. NoneReaches (graph_of graph.now)
        → AreHeights (graph_of graph.now) heights.items) }
{
    let levels = order_of(alloc, graph)?;
    let order = levels.order;
    let mut heights = vec![in alloc; 0usize; graph.len()]?;
    'order: for place in 0..order.len() {
        set_height(&mut heights, graph, order[place])?;
    }
    Ok(heights)
}
