//! The search of strong components, depth first with a stack of its own.

ghost use Rattle.std.specs.Prelude.{◌≡◌, ◌<◌, ◌≤◌, ◌+◌, ◌≢◌, ℕ, true, length, get_or, map, slice_get, OnOk, IfOk};
ghost use Rattle.std.specs.Prelude.{MatchOption};
ghost use Rattle.std.specs.List.{list_any};
ghost use Rattle.sl_base_graphs.specs.Reaching.{reaches_itself, successors};
ghost use Rattle.sl_base_graphs.specs.States.{entered, stepped_back, taken, joined_to, closed, closed_to};
ghost use Rattle.sl_base_graphs.specs.States.{beginning, is_numbered, last_of, work};
ghost use Rattle.sl_base_graphs.specs.States.{open_at, place_of, shut_at};
ghost use Rattle.sl_base_graphs.specs.Searches.{IsCut, IsSearch, IsOn, IsJoined, IsDone, IsFurther, IsStack, IsStep, MeetsAt};
ghost use Rattle.sl_base_graphs.specs.declared.search.Place.TheVariants.{Unseen};
ghost use Rattle.sl_base_graphs.specs.Views.{graph_of};

use std::alloc::{AllocError, Global};
use std::marker::Model;

/// Where the search has a node.
#[derive(Clone, Copy, Debug)]
enum Place {
    Unseen,
    /// On the stack, at this index.
    Open(usize),
    /// In the component of this number.
    Closed(usize),
}

/// The search: `stack` has the open nodes and `starts` where its groups begin, each of nodes that
/// reach one another. `path` has the indexes of nodes of which successors may be left, `left` how many
/// are left of each node, and `order` the closed nodes.
#[derive(Drop)]
pub struct Search {
    places: Vec<Place>,
    stack: Vec<usize>,
    path: Vec<usize>,
    starts: Vec<usize>,
    left: Vec<usize>,
    order: Vec<usize>,
}

impl Model for Search {
    ghost use Rattle.sl_base_graphs.specs.States.{State};

    ghost Value = { State };

    ghost view = { λ s. record {
      places = s.places.items;
      stack = s.stack.items;
      path = s.path.items;
      starts = s.starts.items;
      left = s.left.items;
      order = s.order.items;
    } };
}

/// Whether a place is the component of a number.
fn has_number(place: Place, number: usize) -> bool
    ensures { result ≡ is_numbered number (Some place) }
{
    match place {
        Place::Closed(own) => own == number,
        _ => false,
    }
}

/// The last of some numbers, or 0.
fn last(numbers: &[usize]) -> usize
    ensures { result ≡ last_of numbers.now }
{
    match numbers.last() {
        Some(number) => *number,
        None => 0,
    }
}

/// Drops numbers from the end while they are above a bound.
fn cut(numbers: &mut Vec<usize>, bound: usize)
    ensures { IsCut numbers.old.items bound numbers.new.items }
{
    'last: while last(numbers.as_slice()) > bound {
        numbers.pop();
    }
}

/// How many successors each node has.
fn counts(alloc: Global, graph: &[Vec<usize>]) -> Result<Vec<usize>, AllocError>
    ensures { IfOk result (λ counts. counts.items ≡ map (λ l. length l) (graph_of graph.now)) }
{
    let mut counts = Vec::new(alloc);
    'nodes: for index in 0..graph.len() {
        counts.push(graph[index].as_slice().len())?;
    }
    Ok(counts)
}

/// The successor of a node at an index.
fn successor(graph: &[Vec<usize>], node: usize, index: usize) -> usize
    requires node { node < length graph.now }
    requires inside { index < length (successors (graph_of graph.now) node) }
    ensures { result ≡ get_or (successors (graph_of graph.now) node) index 0 }
{
    let successors = graph[node].as_slice();
    successors[index]
}

impl Search {
    /// The search before any node was seen.
    fn new(alloc: Global, graph: &[Vec<usize>]) -> Result<Self, AllocError>
        ensures { IfOk result (λ search. search ≡ beginning (graph_of graph.now)) }
    {
        let places = vec![in alloc; Place::Unseen; graph.len()]?;
        let left = counts(alloc, graph)?;
        let search = Search {
            places,
            stack: Vec::new(alloc),
            path: Vec::new(alloc),
            starts: Vec::new(alloc),
            left,
            order: Vec::new(alloc),
        };
        Ok(search)
    }

    /// Puts a node that wasn't seen on the stack, as a group of its own.
    fn enter(&mut self, node: usize) -> Result<(), AllocError>
        requires { node < length self.old.places }
        ensures { OnOk result (self.new ≡ entered self.old node) }
    {
        let position = self.stack.len();
        self.places[node] = Place::Open(position);
        self.stack.push(node)?;
        self.path.push(position)?;
        self.starts.push(position)?;
        Ok(())
    }

    /// Joins the groups from the one on that has the open node at an index.
    fn join(&mut self, position: usize)
        ensures { IsJoined self.old position self.new }
    {
        cut(&mut self.starts, position);
    }

    /// Goes back from a node of which no successor is left.
    fn step_back(&mut self)
        ensures { self.new ≡ stepped_back self.old }
    {
        self.path.pop();
    }

    /// The index of an open node of the last group of which successors may be left.
    fn current(&self) -> Option<usize>
        ensures { MatchOption result
            (0 < length self.now.path → last_of self.now.path < last_of self.now.starts)
            (λ i. IsOn self.now i) }
    {
        match self.path.last() {
            Some(position) if last(self.starts.as_slice()) <= *position => Some(*position),
            _ => None,
        }
    }

    /// Closes the open node at an index under a number.
    fn shut(&mut self, position: usize, number: usize) -> Result<(), AllocError>
        requires inside { position < length self.old.stack }
        requires node { open_at self.old position < length self.old.places }
        ensures { OnOk result (self.new ≡ shut_at self.old position number) }
    {
        let node = self.open_node(position);
        self.places[node] = Place::Closed(number);
        self.order.push(node)?;
        Ok(())
    }

    /// Closes the last group.
    fn close(&mut self) -> Result<(), AllocError>
        requires stack { IsStack self.old }
        requires some { last_of self.old.starts < length self.old.stack }
        ensures { OnOk result (self.new ≡ closed self.old) }
    {
        let start = last(self.starts.as_slice());
        let number = self.order.len();
        'group: for position in start..self.stack.len() {
            self.shut(position, number)?;
        }
        self.stack.truncate(start);
        self.starts.pop();
        Ok(())
    }

    /// Where the search has a node. A number that is no node counts as closed.
    fn place(&self, node: usize) -> Place
        ensures { result ≡ place_of self.now node }
    {
        match self.places.get(node) {
            Some(place) => *place,
            None => Place::Closed(0),
        }
    }

    /// Meets a successor of an open node of the last group.
    fn meet(&mut self, node: usize) -> Result<(), AllocError>
        ensures { OnOk result (MeetsAt (place_of self.old node) self.old node self.new) }
    {
        match self.place(node) {
            Place::Unseen => self.enter(node),
            Place::Open(position) => {
                self.join(position);
                Ok(())
            }
            Place::Closed(_) => Ok(()),
        }
    }

    /// The open node at an index.
    fn open_node(&self, position: usize) -> usize
        requires { position < length self.now.stack }
        ensures { result ≡ open_at self.now position }
    {
        self.stack[position]
    }

    /// How many successors of a node are left.
    fn left_of(&self, node: usize) -> usize
        requires { node < length self.now.left }
        ensures { result ≡ get_or self.now.left node 0 }
    {
        self.left[node]
    }

    /// Sets how many successors of a node are left.
    fn take(&mut self, node: usize, left: usize)
        requires { node < length self.old.left }
        ensures { self.new ≡ taken self.old node left }
    {
        self.left[node] = left;
    }

    /// Meets the next successor of an open node, or goes back where none is left.
    fn advance(&mut self, graph: &[Vec<usize>], position: usize) -> Result<(), AllocError>
        requires search { IsSearch (graph_of graph.now) self.old }
        requires on { IsOn self.old position }
        ensures { OnOk result (IsStep (graph_of graph.now) self.old self.new) }
    {
        let node = self.open_node(position);
        let left = self.left_of(node);
        if left == 0 {
            self.step_back();
            return Ok(());
        }
        self.meet(successor(graph, node, left - 1))?;
        self.take(node, left - 1);
        Ok(())
    }

    /// Goes on with the last group, or closes it where its nodes have no successor left.
    fn step(&mut self, graph: &[Vec<usize>]) -> Result<(), AllocError>
        requires search { IsSearch (graph_of graph.now) self.old }
        requires some { 0 < length self.old.stack }
        ensures { OnOk result (IsStep (graph_of graph.now) self.old self.new) }
    {
        match self.current() {
            Some(position) => self.advance(graph, position),
            None => {
                self.close()?;
                Ok(())
            }
        }
    }

    /// Goes on until no node is open.
    fn finish(&mut self, graph: &[Vec<usize>]) -> Result<(), AllocError>
        requires { IsSearch (graph_of graph.now) self.old }
        ensures search { OnOk result (IsSearch (graph_of graph.now) self.new) }
        ensures empty { OnOk result (length self.new.stack ≡ 0) }
        ensures seen { OnOk result ((v : ℕ) → place_of self.old v ≢ Unseen → place_of self.new v ≢ Unseen) }
    {
        'open: while !self.stack.is_empty() {
            self.step(graph)?;
        }
        Ok(())
    }

    /// Searches from a node on, unless it was seen.
    fn explore(&mut self, graph: &[Vec<usize>], root: usize) -> Result<(), AllocError>
        requires search { IsSearch (graph_of graph.now) self.old }
        requires empty { length self.old.stack ≡ 0 }
        ensures { OnOk result (IsFurther (graph_of graph.now) self.old root self.new) }
    {
        match self.place(root) {
            Place::Unseen => {
                self.enter(root)?;
                self.finish(graph)?;
                Ok(())
            }
            _ => Ok(()),
        }
    }
}

impl Search {
    /// Whether a node is in the component of a number.
    fn is_in(&self, node: usize, number: usize) -> bool
        ensures { result ≡ is_numbered number (slice_get self.now.places node) }
    {
        match self.places.get(node) {
            Some(place) => has_number(*place, number),
            None => false,
        }
    }

    /// Whether one of the nodes is in the component of a number.
    fn some_is_in(&self, nodes: &[usize], number: usize) -> bool
        ensures { result
            ≡ list_any (λ w. is_numbered number (slice_get self.now.places w)) nodes.now }
    {
        nodes.iter().any(|node| self.is_in(*node, number))
    }

    /// Whether a node reaches itself: a successor is in its component.
    pub fn reaches_itself(&self, graph: &[Vec<usize>], node: usize) -> bool
        requires done { IsDone (graph_of graph.now) self.now }
        requires node { node < length graph.now }
        ensures { result ≡ reaches_itself (graph_of graph.now) node }
    {
        match self.place(node) {
            Place::Closed(number) => self.some_is_in(graph[node].as_slice(), number),
            _ => false,
        }
    }

    /// The closed nodes, in the order in which they were closed.
    pub fn into_order(self) -> Vec<usize>
        ensures { result.items ≡ self.order }
    {
        self.order
    }
}

/// The search of a whole graph.
pub fn searched(alloc: Global, graph: &[Vec<usize>]) -> Result<Search, AllocError>
    ensures { IfOk result (λ search. IsDone (graph_of graph.now) search) }
{
    let mut search = Search::new(alloc, graph)?;
    'roots: for root in 0..graph.len() {
        search.explore(graph, root)?;
    }
    Ok(search)
}
