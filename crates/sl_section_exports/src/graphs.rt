//! Graphs from their edges.

ghost use Rattle.std.specs.Prelude.{◌≡◌, ◌++◌, ◌∷◌, [], map, replicate, set, IfOk, OnOk};
ghost use Rattle.sl_base_graphs.specs.Reaching.{successors};
ghost use Rattle.sl_base_graphs.specs.Views.{graph_of};
ghost use Rattle.sl_section_exports.specs.Exports as spec;

use std::alloc::{AllocError, Global};

/// Adds nodes without successors.
fn add_nodes(alloc: Global, count: usize, graph: &mut Vec<Vec<usize>>) -> Result<(), AllocError>
    ensures { OnOk result (graph_of graph.new.items
        ≡ graph_of graph.old.items ++ replicate count []) }
{
    'nodes: for _node in 0..count {
        graph.push(Vec::new(alloc))?;
    }
    Ok(())
}

/// Adds an edge, where it begins at a node.
fn add_edge(graph: &mut Vec<Vec<usize>>, edge: (usize, usize)) -> Result<(), AllocError>
    ensures { OnOk result (graph_of graph.new.items ≡ set (graph_of graph.old.items) edge.0
        (successors (graph_of graph.old.items) edge.0 ++ edge.1 ∷ [])) }
{
    let (from, to) = edge;
    if from < graph.len() {
        graph[from].push(to)?;
    }
    Ok(())
}

/// The graph of `count` nodes with these edges.
pub fn graph_with(
    alloc: Global,
    count: usize,
    edges: &[(usize, usize)],
) -> Result<Vec<Vec<usize>>, AllocError>
    ensures { IfOk result (λ graph. graph_of graph.items ≡ spec.graph_with count edges.now) }
{
    let mut graph = Vec::new(alloc);
    add_nodes(alloc, count, &mut graph)?;
    'edges: for index in 0..edges.len() {
        add_edge(&mut graph, edges[index])?;
    }
    Ok(graph)
}

/// The same edges the other way round.
pub fn swapped(alloc: Global, edges: &[(usize, usize)]) -> Result<Vec<(usize, usize)>, AllocError>
    ensures { IfOk result (λ v. v.items ≡ map spec.swapped edges.now) }
{
    let mut out = Vec::new(alloc);
    'edges: for index in 0..edges.len() {
        let (from, to) = edges[index];
        out.push((to, from))?;
    }
    Ok(out)
}
