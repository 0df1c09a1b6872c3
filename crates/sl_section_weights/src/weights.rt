//! The weights of constructors and tables, and the first constructor that weighs too much.

ghost use Rattle.std.specs.Prelude.{◌≡◌, ◌≤◌, ◌+◌, ℕ, None, nat_lt, set, get_or, map, min};
ghost use Rattle.std.specs.Prelude.{IfOk, position};
ghost use Rattle.sl_base_graphs.specs.Orders.{IsOrder};
ghost use Rattle.sl_section_resolve.specs.MacroViews.{bodies_of};
ghost use Rattle.sl_spec.specs.Unfolded.{all_placed};
ghost use Rattle.sl_spec_tables.specs.Amounts.{node_amount};
ghost use Rattle.sl_spec_tables.specs.Lengths.{put_together};
ghost use Rattle.sl_spec_tables.specs.Rows.{graph, group};
ghost use Rattle.sl_spec_tables.specs.TableRules.{late_fault};
ghost use Rattle.sl_spec_tables.specs.Views.{groups_of, row_of, rows_of};
ghost use Rattle.sl_section_weights.specs.Weights as w;
ghost use Rattle.sl_section_weights.specs.Weights.{first_heavy, macro_weights, row_weight, step};

use crate::macros::{known, macro_weights, section_weight};
use crate::sizes::{ENOUGH, sum};
use sl_base_graphs::order_of;
use sl_section_resolve::MacroBody;
use sl_spec::{Means, Named, Operand, Tables, Unfolded};
use sl_spec_tables::{Row, all_rows, graph, grouped, number};
use std::alloc::{AllocError, Global};

/// How much a constructor may weigh.
const MOST_WEIGHT: usize = 65_536;

/// The weight of what an operand means.
fn means_weight(values: &[usize], means: Means) -> usize
    ensures { result ≡ node_amount (λ u. get_or values.now u 0) means }
{
    match means {
        Means::Table(table) => known(values, number(table)),
        Means::Field(_) => 0,
        Means::Action(_) => 0,
    }
}

/// A number and the weights of what some operands mean.
fn with_operands(values: &[usize], own: usize, operands: &[Operand]) -> usize
    requires { own ≤ 65537 }
    ensures { result ≡ min (put_together (λ m n. m + n) own
        (map (λ o. node_amount (λ u. get_or values.now u 0) o.means) operands.now)) 65537 }
{
    let mut weight = own;
    'operands: for operand in operands {
        weight = sum(weight, means_weight(values, operand.means).min(ENOUGH));
    }
    weight
}

/// The weight of a constructor, by the weights of the macros and of the tables.
fn row_weight<'s, 'a>(
    macros: &Named<'a, MacroBody<'s, 'a>>,
    weights: &[usize],
    values: &[usize],
    row: &Row<'_, '_, 'a>,
) -> usize
    requires { weights.now ≡ map (λ n. min n 65537) (macro_weights (bodies_of macros.now)) }
    ensures { result
        ≡ min (row_weight (bodies_of macros.now) (λ u. get_or values.now u 0)
        (row_of row.now)) 65537 }
{
    let ctor = row.ctor;
    let own = row.own;
    let constructor = own.own;
    let section = section_weight(macros, weights, &constructor.section);
    with_operands(values, section, ctor.operands.as_slice())
}

/// The greatest weight of some constructors.
fn greatest_weight<'s, 'a>(
    macros: &Named<'a, MacroBody<'s, 'a>>,
    weights: &[usize],
    values: &[usize],
    rows: &[Row<'_, '_, 'a>],
) -> usize
    requires { weights.now ≡ map (λ n. min n 65537) (macro_weights (bodies_of macros.now)) }
    ensures { result
        ≡ min (step (bodies_of macros.now) (λ u. get_or values.now u 0) (rows_of rows.now)) 65537 }
{
    let mut most = 0;
    'rows: for index in 0..rows.len() {
        let row = rows[index];
        most = row_weight(macros, weights, values, &row).max(most);
    }
    most
}

/// The weight of a table.
fn table_weight<'s, 'a>(
    macros: &Named<'a, MacroBody<'s, 'a>>,
    weights: &[usize],
    values: &[usize],
    groups: &[Vec<Row<'_, '_, 'a>>],
    table: usize,
) -> usize
    requires { weights.now ≡ map (λ n. min n 65537) (macro_weights (bodies_of macros.now)) }
    ensures { result ≡ min (step (bodies_of macros.now) (λ u. get_or values.now u 0)
        (group (groups_of groups.now) table)) 65537 }
{
    if table < groups.len() {
        greatest_weight(macros, weights, values, groups[table].as_slice())
    } else {
        0
    }
}

/// Keeps a weight, where there is room for it.
fn put(values: &mut Vec<usize>, index: usize, value: usize)
    ensures { values.new.items ≡ set values.old.items index value }
{
    if index < values.len() {
        values[index] = value;
    }
}

/// The weights of all tables, in an order of the tables.
fn table_weights<'s, 'a>(
    alloc: Global,
    macros: &Named<'a, MacroBody<'s, 'a>>,
    weights: &[usize],
    groups: &[Vec<Row<'_, '_, 'a>>],
    order: &[usize],
) -> Result<Vec<usize>, AllocError>
    requires { weights.now ≡ map (λ n. min n 65537) (macro_weights (bodies_of macros.now)) }
    ensures { IfOk result (λ values. IsOrder (graph (groups_of groups.now)) order.now
        → (v : ℕ) → get_or values.items v 0
        ≡ min (w.table_weight (bodies_of macros.now) (groups_of groups.now) v) 65537) }
{
    let mut values = vec![in alloc; 0usize; groups.len()]?;
    'order: for place in 0..order.len() {
        let table = order[place];
        let value = table_weight(macros, weights, values.as_slice(), groups, table);
        put(&mut values, table, value);
    }
    Ok(values)
}

/// Whether a constructor weighs more than it may.
fn is_heavy<'s, 'a>(
    macros: &Named<'a, MacroBody<'s, 'a>>,
    weights: &[usize],
    values: &[usize],
    row: &Row<'_, '_, 'a>,
) -> bool
    requires { weights.now ≡ map (λ n. min n 65537) (macro_weights (bodies_of macros.now)) }
    ensures { result ≡ nat_lt 65536
        (min (row_weight (bodies_of macros.now) (λ u. get_or values.now u 0)
        (row_of row.now)) 65537) }
{
    row_weight(macros, weights, values, row) > MOST_WEIGHT
}

/// The number of the first constructor that weighs more than it may.
fn heavy_index<'s, 'a>(
    macros: &Named<'a, MacroBody<'s, 'a>>,
    weights: &[usize],
    values: &[usize],
    rows: &[Row<'_, '_, 'a>],
) -> Option<usize>
    requires { weights.now ≡ map (λ n. min n 65537) (macro_weights (bodies_of macros.now)) }
    ensures { result ≡ position (λ r. nat_lt 65536
        (min (row_weight (bodies_of macros.now) (λ u. get_or values.now u 0) r) 65537))
        (rows_of rows.now) }
{
    'rows: for index in 0..rows.len() {
        let row = rows[index];
        if is_heavy(macros, weights, values, &row) {
            return Some(index);
        }
    }
    None
}

/// The first constructor of a text, in its order, that weighs more than 65,536 (rule 38), by its
/// number among all constructors, where rules 32 to 37 hold. `macros` has all macros of the text in
/// its order, and `constructors` are those of `t` as they are written, in the same order. Weights
/// are reckoned of the text as it is written, with no macro taken out. The only error is want of
/// memory.
pub fn first_heavy<'s, 'a>(
    alloc: Global,
    t: &Tables<'a>,
    macros: &Named<'a, MacroBody<'s, 'a>>,
    constructors: &[Unfolded<'s, 'a>],
) -> Result<Option<usize>, AllocError>
    ensures { IfOk result (λ index. late_fault t.now (all_placed constructors.now) ≡ None
        → index ≡ first_heavy t.now (bodies_of macros.now) (all_placed constructors.now)) }
{
    let rows = all_rows(alloc, t.constructors.as_slice(), constructors)?;
    let groups = grouped(alloc, t.tables.len(), rows.as_slice())?;
    let graph = graph(alloc, groups.as_slice())?;
    let levels = order_of(alloc, graph.as_slice())?;
    let order = levels.order.as_slice();
    let weights = macro_weights(alloc, macros)?;
    let weights = weights.as_slice();
    let values = table_weights(alloc, macros, weights, groups.as_slice(), order)?;
    let index = heavy_index(macros, weights, values.as_slice(), rows.as_slice());
    Ok(index)
}
