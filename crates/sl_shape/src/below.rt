//! What is known of the tables below, and what was made of blocks by it.

ghost use Rattle.std.specs.Prelude.{◌≡◌, ℕ, IfOk, get_or, true};
ghost use Rattle.std.specs.Prelude as prelude;
ghost use Rattle.std.specs.List.{AllByRecursion};
ghost use Rattle.sl_ast.specs.Trees.{Head};
ghost use Rattle.sl_base_graphs.specs.Reaching.{successors};
ghost use Rattle.sl_base_graphs.specs.Views.{graph_of};
ghost use Rattle.sl_shape.specs.HeadsMade.{AreRight, AreSameBut, IsMarked};
ghost use Rattle.sl_shape.specs.declared.below.Below.{Below};
ghost use Rattle.sl_shape.specs.declared.below.TokenLists.{TokenLists};
ghost use Rattle.sl_shape_tokens.specs.Lists.{IsThere};

use sl_cube::Cube;
use sl_shape_tokens::{ListBytes, Lists, Shape};
use sl_spec::{ByBlock, Tables};
use std::alloc::{AllocError, Global};

/// The shapes and the hulls of the tables by their numbers, where they are known.
#[derive(Clone, Copy)]
pub struct Below<'r, 'a> {
    pub tables: &'r Tables<'a>,
    pub shapes: &'r [Shape],
    pub hulls: &'r [Option<Cube>],
}

/// Lists of tokens, and the bytes of the first ones of them.
#[derive(Drop)]
pub struct TokenLists {
    pub all: Lists,
    pub bytes: ListBytes,
}

/// What was made of the patterns of blocks, for all constructors inside them: how many cubes they
/// may need, their shapes, the bytes that they look at, and the points at which they hold.
#[derive(Drop)]
pub struct HeadsMade {
    pub counts: ByBlock<u32>,
    pub shapes: ByBlock<Shape>,
    pub windows: ByBlock<u32>,
    pub sets: ByBlock<Vec<Cube>>,
    /// For each table whether one of these patterns may name it.
    pub marks: Vec<bool>,
    /// For how many constructors it was kept.
    pub age: usize,
}

/// Nothing was made yet.
pub fn none_made(alloc: Global, tables: usize) -> Result<HeadsMade, AllocError>
    ensures { IfOk result (λ made. (b : Below) (lists : TokenLists) (head_at : ℕ → Head)
        → AllByRecursion (IsThere lists.all) b.shapes.now → AreRight b lists head_at made) }
{
    let marks = vec![in alloc; false; tables]?;
    Ok(HeadsMade {
        counts: ByBlock::new(alloc),
        shapes: ByBlock::new(alloc),
        windows: ByBlock::new(alloc),
        sets: ByBlock::new(alloc),
        marks,
        age: 0,
    })
}

/// Marks a table, if there is one.
fn mark(marks: &mut Vec<bool>, table: usize)
    ensures { marks.new.items ≡ prelude.set marks.old.items table true }
{
    if table < marks.len() {
        marks[table] = true;
    }
}

/// Marks some tables.
fn mark_all(marks: &mut Vec<bool>, tables: &[usize])
    ensures marked { AllByRecursion (IsMarked marks.new.items) tables.now }
    ensures still { (w : ℕ) → IsMarked marks.old.items w → IsMarked marks.new.items w }
{
    'tables: for index in 0..tables.len() {
        mark(marks, tables[index]);
    }
}

/// For how many constructors what was made of blocks is kept: longer, the sets of blocks that lie
/// behind would take as much memory as those of all constructors.
const KEPT_FOR: usize = 1024;

impl HeadsMade {
    /// Forgets what was made.
    fn forget(&mut self, alloc: Global)
        ensures right { (b : Below) (lists : TokenLists) (head_at : ℕ → Head)
            → AllByRecursion (IsThere lists.all) b.shapes.now → AreRight b lists head_at self.new }
        ensures marks { self.new.marks.items ≡ self.old.marks.items }
    {
        self.counts = ByBlock::new(alloc);
        self.shapes = ByBlock::new(alloc);
        self.windows = ByBlock::new(alloc);
        self.sets = ByBlock::new(alloc);
        self.age = 0;
    }

    /// One constructor more: forgets what was made once it was kept for 1,024 of them.
    pub fn grow_older(&mut self, alloc: Global)
        ensures right { (b : Below) (lists : TokenLists) (head_at : ℕ → Head)
            → AreRight b lists head_at self.old → AreRight b lists head_at self.new }
        ensures marks { self.new.marks.items ≡ self.old.marks.items }
    {
        if self.age < KEPT_FOR {
            self.age += 1;
        } else {
            self.forget(alloc);
        }
    }

    /// Marks the tables that a table names, before the blocks round its constructors are gone over.
    pub fn mark_named(&mut self, graph: &[Vec<usize>], table: usize)
        ensures marked { AllByRecursion (IsMarked self.new.marks.items)
            (successors (graph_of graph.now) table) }
        ensures right { (b : Below) (lists : TokenLists) (head_at : ℕ → Head)
            → AreRight b lists head_at self.old → AreRight b lists head_at self.new }
    {
        if let Some(named) = graph.get(table) {
            mark_all(&mut self.marks, named.as_slice());
        }
    }

    /// Whether a table is marked; one without a mark is taken for one that is.
    fn is_marked(&self, table: usize) -> bool
        ensures { result ≡ get_or self.now.marks.items table true }
    {
        match self.marks.get(table) {
            Some(mark) => *mark,
            None => true,
        }
    }

    /// Forgets what was made where it may depend on a table whose shape and hull are put now. Where
    /// tables are taken by their heights it never does.
    pub fn table_put(&mut self, alloc: Global, table: usize)
        ensures { (b next : Below) (lists : TokenLists) (head_at : ℕ → Head)
            → AreSameBut table b next lists
            → AreRight b lists head_at self.old → AreRight next lists head_at self.new }
    {
        if self.is_marked(table) {
            self.forget(alloc);
        }
    }
}
