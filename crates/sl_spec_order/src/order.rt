//! The order in which tables are shaped.

ghost use Rattle.std.specs.Prelude.{IfOk, length};
ghost use Rattle.sl_base_graphs.specs.Orders.{NoneReaches};
ghost use Rattle.sl_spec_order.specs.Orders.{IsShapingOrder, graph};

use crate::appearing::appearing_tables;
use crate::graph::table_graph;
use sl_base_graphs::{heights_of, sorted_by_height};
use sl_spec::Tables;
use std::alloc::{AllocError, Global};

/// The tables of a text in which none reaches itself, in the order in which they are shaped. The
/// only error is want of memory.
pub fn shaping_order(alloc: Global, t: &Tables) -> Result<Vec<usize>, AllocError>
    ensures { IfOk result (λ order. NoneReaches (graph (length t.now.tables) t.now.constructors)
        → IsShapingOrder (length t.now.tables) t.now.constructors order.items) }
{
    let ctors = t.constructors.as_slice();
    let graph = table_graph(alloc, t.tables.len(), ctors)?;
    let heights = heights_of(alloc, graph.as_slice())?;
    let appearing = appearing_tables(alloc, t.tables.len(), ctors)?;
    let order = sorted_by_height(alloc, heights.as_slice(), appearing.as_slice())?;
    Ok(order)
}
