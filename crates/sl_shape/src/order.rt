//! The order in which tables are shaped.

ghost use Rattle.std.specs.Prelude.{◌≡◌, ◌∷◌, [], ◌++◌, IfOk, IsTrue, OnOk, Some};
ghost use Rattle.sl_ast.specs.Views.{constructor_of, head_of, pattern_of};
ghost use Rattle.sl_base_graphs.specs.Views.{graph_of};
ghost use Rattle.sl_spec_rules.specs.Gathered.{gathered};
ghost use Rattle.sl_shape.specs.HeadsMade.{AreHeadTables, AreMadeOf};
ghost use Rattle.sl_shape.specs.Tables.{appearing, begins, constructors_of, named_by};
ghost use Rattle.sl_shape.specs.Tables.{one_or_none, pattern_at, table_graph, tables_named};
ghost use Rattle.sl_spec.specs.Numbers.{AreMadeFor, AreNumbered, KeepsMade};
ghost use Rattle.sl_spec.specs.Unfolded.{all_placed, heads_of, under};

use sl_ast::constructors::Constructor;
use sl_ast::patterns::Pattern;
use sl_spec::{Around, ByBlock, CtorId, TableId, Tables, Unfolded};
use std::alloc::{AllocError, Global};

/// Adds a table, if there is one.
fn add_one(table: Option<usize>, all: &mut Vec<usize>) -> Result<(), AllocError>
    ensures { OnOk result (all.new.items ≡ all.old.items ++ one_or_none table) }
{
    if let Some(table) = table {
        all.push(table)?;
    }
    Ok(())
}

/// Adds the tables that a pattern names.
fn add_named(t: &Tables, of: &Pattern, all: &mut Vec<usize>) -> Result<(), AllocError>
    ensures { OnOk result (all.new.items
        ≡ all.old.items ++ tables_named t.now (pattern_of of.now)) }
{
    match of {
        Pattern::Name(name) => add_one(t.tables.index_of(name), all),
        Pattern::Constraint(_, _, _) => Ok(()),
        Pattern::Paren(inner) => add_named(t, inner, all),
        Pattern::Ellipsis(inner) => add_named(t, inner, all),
        Pattern::Joined(_, left, right) => {
            add_named(t, left, all)?;
            add_named(t, right, all)
        }
    }
}

/// Adds some tables.
fn add_all(tables: &[usize], all: &mut Vec<usize>) -> Result<(), AllocError>
    ensures { OnOk result (all.new.items ≡ all.old.items ++ tables.now) }
{
    all.extend_from_slice(tables)?;
    Ok(())
}

/// Adds the tables that the pattern of a block names, found where they aren't there yet.
fn add_of_block(
    alloc: Global,
    t: &Tables,
    block: &Around,
    pattern: &Pattern,
    made: &mut ByBlock<Vec<usize>>,
    all: &mut Vec<usize>,
) -> Result<(), AllocError>
    requires its { (head_of block.now.head.now).pattern ≡ Some (pattern_of pattern.now) }
    requires made { AreMadeFor (AreHeadTables t.now) (block.now ∷ []) made.old }
    ensures added { OnOk result (all.new.items
        ≡ all.old.items ++ tables_named t.now (pattern_of pattern.now)) }
    ensures kept { IfOk result (λ _.
        KeepsMade (AreHeadTables t.now) (block.now ∷ []) made.old made.new) }
{
    if let Some(tables) = made.get(block.number) {
        add_all(tables.as_slice(), all)?;
        return Ok(());
    }
    let mut tables = Vec::new(alloc);
    add_named(t, pattern, &mut tables)?;
    add_all(tables.as_slice(), all)?;
    made.put(block.number, tables)?;
    Ok(())
}

/// Adds the tables that the pattern of a constructor in its blocks names.
fn add_in_blocks(
    alloc: Global,
    t: &Tables,
    heads: &[Around],
    own: &Constructor,
    made: &mut ByBlock<Vec<usize>>,
    all: &mut Vec<usize>,
) -> Result<(), AllocError>
    requires { AreMadeFor (AreHeadTables t.now) heads.now made.old }
    ensures added { OnOk result (all.new.items ≡ all.old.items
        ++ tables_named t.now (under (heads_of heads.now) (constructor_of own.now)).pattern) }
    ensures kept { IfOk result (λ _.
        KeepsMade (AreHeadTables t.now) heads.now made.old made.new) }
{
    let Some((first, rest)) = heads.split_first() else {
        return add_named(t, &own.pattern, all);
    };
    let head = first.head;
    let Some(pattern) = &head.pattern else {
        return add_in_blocks(alloc, t, rest, own, made, all);
    };
    add_of_block(alloc, t, first, pattern, made, all)?;
    add_in_blocks(alloc, t, rest, own, made, all)
}

/// Adds the tables that the pattern of a constructor names, if there is such a constructor.
fn add_at(
    alloc: Global,
    t: &Tables,
    constructors: &[Unfolded],
    index: usize,
    made: &mut ByBlock<Vec<usize>>,
    all: &mut Vec<usize>,
) -> Result<(), AllocError>
    requires { AreMadeOf (AreHeadTables t.now) constructors.now made.old }
    ensures added { OnOk result (all.new.items ≡ all.old.items
        ++ named_by t.now (pattern_at (all_placed constructors.now) index)) }
    ensures kept { IfOk result (λ _.
        AreMadeOf (AreHeadTables t.now) constructors.now made.new) }
{
    match constructors.get(index) {
        Some(of) => {
            let own = of.own;
            add_in_blocks(alloc, t, of.heads.as_slice(), own, made, all)
        }
        None => Ok(()),
    }
}

/// The tables that the patterns of some constructors name.
fn named_in(
    alloc: Global,
    t: &Tables,
    constructors: &[Unfolded],
    ctors: &[CtorId],
    made: &mut ByBlock<Vec<usize>>,
) -> Result<Vec<usize>, AllocError>
    requires { AreMadeOf (AreHeadTables t.now) constructors.now made.old }
    ensures named { IfOk result (λ all. all.items ≡ gathered
        (λ i. named_by t.now (pattern_at (all_placed constructors.now) i)) ctors.now) }
    ensures kept { IfOk result (λ _.
        AreMadeOf (AreHeadTables t.now) constructors.now made.new) }
{
    let mut all = Vec::new(alloc);
    'ctors: for index in 0..ctors.len() {
        let ctor = ctors[index];
        add_at(alloc, t, constructors, ctor.0 as usize, made, &mut all)?;
    }
    Ok(all)
}

/// For each table the tables that the patterns of its constructors name. The pattern of a block is
/// gone over once.
pub fn table_graph(
    alloc: Global,
    t: &Tables,
    constructors: &[Unfolded],
) -> Result<Vec<Vec<usize>>, AllocError>
    requires { AreNumbered constructors.now }
    ensures { IfOk result (λ graph. graph_of graph.items
        ≡ table_graph t.now (all_placed constructors.now)) }
{
    let mut graph = Vec::new(alloc);
    let mut made = ByBlock::new(alloc);
    'tables: for index in 0..t.tables.len() {
        let table = t.tables.member(index);
        let ctors = table.constructors.as_slice();
        graph.push(named_in(alloc, t, constructors, ctors, &mut made)?)?;
    }
    Ok(graph)
}

/// Whether the constructor of this number is the first of a table.
fn is_first(t: &Tables, table: usize, number: usize) -> bool
    ensures { result ≡ begins (constructors_of t.now table) number }
{
    match t.tables.at(table) {
        Some(table) => match table.constructors.first() {
            Some(first) => first.0 as usize == number,
            None => false,
        },
        None => false,
    }
}

/// The number of a table.
fn number(table: TableId) -> usize
    ensures { result ≡ table }
{
    table.0 as usize
}

/// The tables in the order of the text: each appears with its first constructor.
pub fn appearing(alloc: Global, t: &Tables) -> Result<Vec<usize>, AllocError>
    ensures { IfOk result (λ all. all.items ≡ appearing t.now) }
{
    let ctors = t.constructors.as_slice();
    let mut all = Vec::new(alloc);
    'ctors: for index in 0..ctors.len() {
        let ctor = &ctors[index];
        let table = number(ctor.table);
        if is_first(t, table, index) {
            all.push(table)?;
        }
    }
    Ok(all)
}
