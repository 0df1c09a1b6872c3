//! Which nodes reach themselves, and an order of the nodes.

ghost use Rattle.std.specs.Prelude.{IfOk};
ghost use Rattle.sl_base_graphs.specs.Orders.{AreTold, IsOrder, NoneReaches};
ghost use Rattle.sl_base_graphs.specs.Views.{graph_of};

use crate::search::searched;
use std::alloc::{AllocError, Global};

/// What a graph is for values that are reckoned level by level.
#[derive(Debug, Drop)]
pub struct Levels {
    /// Of each node, whether it reaches itself.
    pub reaching: Vec<bool>,
    /// Where no node reaches itself, all nodes, each behind its successors.
    pub order: Vec<usize>,
}

/// Which nodes of a graph reach themselves, and an order of the nodes where none does. The graph has
/// the successors of each node, the nodes being numbered from 0 on; a successor that is no node has no
/// successors. The time grows with the number of nodes and successors. The only error is want of
/// memory.
pub fn order_of(alloc: Global, graph: &[Vec<usize>]) -> Result<Levels, AllocError>
    ensures reaching { IfOk result (λ levels.
        AreTold (graph_of graph.now) levels.reaching.items) }
    ensures order { IfOk result (λ levels. NoneReaches (graph_of graph.now)
        → IsOrder (graph_of graph.now) levels.order.items) }
{
    let search = searched(alloc, graph)?;
    let mut reaching = Vec::new(alloc);
    'nodes: for node in 0..graph.len() {
        reaching.push(search.reaches_itself(graph, node))?;
    }
    let order = search.into_order();
    Ok(Levels { reaching, order })
}
