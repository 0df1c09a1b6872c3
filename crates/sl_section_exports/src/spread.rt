//! The nodes that some nodes reach.

ghost use Rattle.std.specs.Prelude.{◌≡◌, ℕ, IfOk, OnOk};
ghost use Rattle.sl_base_graphs.specs.Views.{graph_of};
ghost use Rattle.sl_section_exports.specs.Spreading.{is_reached};
ghost use Rattle.sl_section_exports.specs.Spreads.{Visits, VisitsAll, mark_of};

use crate::marks::{is_marked, mark};
use std::alloc::{AllocError, Global};

/// The marks of the nodes that were met, and the nodes whose successors are to be visited yet.
#[derive(Drop)]
struct Spread {
    marks: Vec<bool>,
    stack: Vec<usize>,
}

impl Spread {
    /// Meets a node.
    fn visit(&mut self, node: usize) -> Result<(), AllocError>
        ensures { OnOk result (Visits self.old.marks.items self.old.stack.items node
            self.new.marks.items self.new.stack.items) }
    {
        if is_marked(self.marks.as_slice(), node) {
            return Ok(());
        }
        mark(&mut self.marks, node)?;
        self.stack.push(node)?;
        Ok(())
    }

    /// Meets the successors of a node.
    fn visit_all(&mut self, graph: &[Vec<usize>], node: usize) -> Result<(), AllocError>
        ensures { OnOk result (VisitsAll (graph_of graph.now)
            self.old.marks.items self.old.stack.items node
            self.new.marks.items self.new.stack.items) }
    {
        if node < graph.len() {
            let next = graph[node].as_slice();
            'successors: for index in 0..next.len() {
                self.visit(next[index])?;
            }
        }
        Ok(())
    }
}

/// Marks on the nodes that are among `starts` or that one of these reaches. Time grows with the
/// number of nodes and successors. 2^64 nodes would be want of memory.
pub fn reached_from(
    alloc: Global,
    graph: &[Vec<usize>],
    starts: &[usize],
) -> Result<Vec<bool>, AllocError>
    ensures { IfOk result (λ marks. (v : ℕ)
        → mark_of marks.items v ≡ is_reached (graph_of graph.now) starts.now v) }
{
    let mut spread = Spread {
        marks: Vec::new(alloc),
        stack: Vec::new(alloc),
    };
    'starts: for index in 0..starts.len() {
        spread.visit(starts[index])?;
    }
    'rounds: for _round in 0..u64::MAX {
        match spread.stack.pop() {
            None => return Ok(spread.marks),
            Some(node) => spread.visit_all(graph, node)?,
        }
    }
    Err(AllocError)
}
