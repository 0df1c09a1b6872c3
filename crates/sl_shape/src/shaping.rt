//! The sets of all constructors and the hulls of all tables.

ghost use Rattle.std.specs.Prelude.{◌≡◌, ℕ, List, IfErr, IfOk, length};
ghost use Rattle.std.specs.List.{AllByRecursion};
ghost use Rattle.sl_ast.specs.Trees.{Constructor};
ghost use Rattle.sl_ast.specs.Unfolding.{Placed};
ghost use Rattle.sl_base_graphs.specs.Orders.{NoneReaches};
ghost use Rattle.sl_base_graphs.specs.Views.{graph_of};
ghost use Rattle.sl_shape.specs.Next.{IsFirstOf, IsKept, IsNext, IsRight};
ghost use Rattle.sl_shape.specs.Ordered.{AreKnown, FaultsIn, IsOrdered};
ghost use Rattle.sl_shape.specs.PatternShapes as spec;
ghost use Rattle.sl_shape.specs.Tables.{AreShaped, IsError, IsFirstFault, table_graph};
ghost use Rattle.sl_shape_tokens.specs.Lists.{IsThere};
ghost use Rattle.sl_spec.specs.Numbers.{AreNumbered};
ghost use Rattle.sl_spec.specs.Unfolded.{all_placed};
ghost use Rattle.sl_spec.specs.declared.unfolded.Unfolded as unfolded;

use crate::below::{Below, HeadsMade, TokenLists, none_made};
use crate::errors::ShapeError;
use crate::order::{appearing, table_graph};
use sl_base_graphs::{heights_of, sorted_by_height};
use sl_cube::Cube;
use sl_cube_sets::CubeSet;
use sl_shape_patterns::table_hull;
use sl_shape_tokens::{ListBytes, Lists, Shape, of_nothing};
use sl_spec::{Tables, Unfolded};
use std::alloc::{AllocError, Global};

/// What is known of the tables, and the sets of the constructors, by their numbers; and what was
/// made of blocks by it.
#[derive(Drop)]
struct Known {
    lists: TokenLists,
    shapes: Vec<Shape>,
    hulls: Vec<Option<Cube>>,
    sets: Vec<CubeSet>,
    made: HeadsMade,
}

impl Known {
    /// Finds the sets of the constructors of a table, and its shape and hull.
    fn shape_table(
        &mut self,
        alloc: Global,
        t: &Tables,
        constructors: &[Unfolded],
        graph: &[Vec<usize>],
        table: usize,
    ) -> Result<(), ShapeError>
        requires right { IsRight t.now (length constructors.now) self.old }
        requires kept { IsKept t.now constructors.now self.old }
        requires graph { graph_of graph.now ≡ table_graph t.now (all_placed constructors.now) }
        ensures right { IfOk result (λ _. IsRight t.now (length constructors.now) self.new) }
        ensures kept { IfOk result (λ _. IsKept t.now constructors.now self.new) }
        ensures next { IfOk result (λ _.
            IsNext t.now (all_placed constructors.now) self.old self.new table) }
        ensures fault { IfErr result
            (IsError (IsFirstOf t.now (all_placed constructors.now) self.old table)) }
    {
        let Some(of) = t.tables.at(table) else {
            return Ok(());
        };
        self.made.mark_named(graph, table);
        let below = Below {
            tables: t,
            shapes: self.shapes.as_slice(),
            hulls: self.hulls.as_slice(),
        };
        let ctors = of.constructors.as_slice();
        let found = below.add_constructors(
            alloc,
            constructors,
            ctors,
            &mut self.sets,
            &mut self.lists,
            &mut self.made,
        )?;
        let shape = self.lists.all.of_table(alloc, found.as_slice())?;
        let hull = table_hull(self.sets.as_slice(), ctors);
        self.shapes[table] = shape;
        self.hulls[table] = hull;
        self.made.table_put(alloc, table);
        Ok(())
    }
}

/// Finds the sets and hulls of tables in this order, in which each stands behind those that it
/// names.
fn shape_tables(
    alloc: Global,
    t: &Tables,
    constructors: &[Unfolded],
    graph: &[Vec<usize>],
    order: &[usize],
    known: &mut Known,
) -> Result<(), ShapeError>
    requires right { IsRight t.now (length constructors.now) known.old }
    requires kept { IsKept t.now constructors.now known.old }
    requires graph { graph_of graph.now ≡ table_graph t.now (all_placed constructors.now) }
    ensures right { IfOk result (λ _. IsRight t.now (length constructors.now) known.new) }
    ensures known { IfOk result (λ _. AreKnown t.now (all_placed constructors.now) order.now
        known.new order.now) }
    ensures fault { IfErr result (FaultsIn t.now (all_placed constructors.now) order.now) }
{
    'order: for index in 0..order.len() {
        known.shape_table(alloc, t, constructors, graph, order[index])?;
    }
    Ok(())
}

/// The sizes of the tokens in bytes.
fn token_sizes(alloc: Global, t: &Tables) -> Result<Vec<u32>, AllocError>
    ensures { IfOk result (λ sizes. sizes.items ≡ spec.token_sizes t.now) }
{
    let mut sizes = Vec::new(alloc);
    'tokens: for index in 0..t.tokens.len() {
        let token = t.tokens.member(index);
        sizes.push(u32::from(token.bits) / 8)?;
    }
    Ok(sizes)
}

/// Sets without points.
fn empty_sets(alloc: Global, count: usize) -> Result<Vec<CubeSet>, AllocError>
    ensures { IfOk result (λ sets. length sets.items ≡ count) }
{
    let mut sets = Vec::new(alloc);
    'sets: for _index in 0..count {
        sets.push(CubeSet {
            cubes: Vec::new(alloc),
        })?;
    }
    Ok(sets)
}

/// Shapes without tokens.
fn no_shapes(alloc: Global, count: usize) -> Result<Vec<Shape>, AllocError>
    ensures counted { IfOk result (λ shapes. length shapes.items ≡ count) }
    ensures there { IfOk result (λ shapes. (lists : List (List ℕ))
        → AllByRecursion (IsThere lists) shapes.items) }
{
    let mut shapes = Vec::new(alloc);
    'shapes: for _index in 0..count {
        shapes.push(of_nothing())?;
    }
    Ok(shapes)
}

/// Nothing is known of any table.
fn nothing_known(alloc: Global, t: &Tables, count: usize) -> Result<Known, AllocError>
    ensures right { IfOk result (IsRight t.now count) }
    ensures kept { IfOk result (λ known. (us : List unfolded.Unfolded) → AreNumbered us
        → IsKept t.now us known) }
{
    let sizes = token_sizes(alloc, t)?;
    let lists = TokenLists {
        all: Lists::new(alloc),
        bytes: ListBytes::new(alloc, sizes),
    };
    let shapes = no_shapes(alloc, t.tables.len())?;
    let hulls = vec![in alloc; None; t.tables.len()]?;
    let sets = empty_sets(alloc, count)?;
    let made = none_made(alloc, t.tables.len())?;
    Ok(Known {
        lists,
        shapes,
        hulls,
        sets,
        made,
    })
}

/// The sets of the constructors by their numbers, and the hulls of the tables by theirs: for each
/// constructor a union of cubes.
#[derive(Debug, Drop)]
pub struct Shapes {
    pub sets: Vec<CubeSet>,
    pub hulls: Vec<Option<Cube>>,
}

/// The order in which tables are shaped: by their heights, and those of one height in the order of
/// the text.
fn order_of(alloc: Global, t: &Tables, graph: &[Vec<usize>]) -> Result<Vec<usize>, AllocError>
    ensures { IfOk result (λ order. (cs : List (Placed Constructor))
        → graph_of graph.now ≡ table_graph t.now cs
        → NoneReaches (table_graph t.now cs) → IsOrdered t.now cs order.items) }
{
    let heights = heights_of(alloc, graph)?;
    let tables = appearing(alloc, t)?;
    let order = sorted_by_height(alloc, heights.as_slice(), tables.as_slice())?;
    Ok(order)
}

/// The sets of all constructors and the hulls of all tables, or the first constructor with a fault.
/// Tables are taken by their heights, and those of one height in the order of the text.
/// `constructors` are those of `t` as they are written, in the same order, with numbers that tell
/// the blocks round them apart.
pub fn shape(alloc: Global, t: &Tables, constructors: &[Unfolded]) -> Result<Shapes, ShapeError>
    requires { AreNumbered constructors.now }
    ensures shaped { IfOk result (λ shapes.
        NoneReaches (table_graph t.now (all_placed constructors.now))
        → AreShaped t.now (all_placed constructors.now) shapes.sets.items shapes.hulls.items) }
    ensures sets { IfOk result (λ shapes.
        length shapes.sets.items ≡ length constructors.now) }
    ensures hulls { IfOk result (λ shapes.
        length shapes.hulls.items ≡ length t.now.tables) }
    ensures fault { IfErr result (λ error.
        NoneReaches (table_graph t.now (all_placed constructors.now))
        → IsError (IsFirstFault t.now (all_placed constructors.now)) error) }
{
    let graph = table_graph(alloc, t, constructors)?;
    let graph = graph.as_slice();
    let order = order_of(alloc, t, graph)?;
    let mut known = nothing_known(alloc, t, constructors.len())?;
    shape_tables(alloc, t, constructors, graph, order.as_slice(), &mut known)?;
    Ok(Shapes {
        sets: known.sets,
        hulls: known.hulls,
    })
}
