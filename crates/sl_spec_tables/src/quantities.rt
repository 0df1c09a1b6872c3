//! What is reckoned of tables.

ghost use Rattle.std.specs.Prelude.{◌≡◌, ◌≤◌, ℕ, min, max, length, get_or, IfOk};
ghost use Rattle.sl_base_graphs.specs.Orders.{IsOrder};
ghost use Rattle.sl_spec_tables.specs.Amounts.{node_amount, pick, start};
ghost use Rattle.sl_spec_tables.specs.BlockLengths.{AreMeasured, AreMeasuredGroups, IsMeasured};
ghost use Rattle.sl_spec_tables.specs.Lengths.{amount, row_nodes, step, table_amount};
ghost use Rattle.sl_spec_tables.specs.Rows.{graph};
ghost use Rattle.sl_spec_tables.specs.Views.{groups_of, row_of, rows_of};

use crate::block_lengths::Length;
use crate::lengths::{capped, known, row_bytes};
use crate::rows::{Row, number};
use sl_spec::{ByBlock, Means, Tables};
use std::alloc::{AllocError, Global};

/// A number that a table has from its constructors.
#[derive(Clone, Copy, Debug, PartialEq, Eq)]
pub enum Quantity {
    /// The least number of bytes.
    Least,
    /// The greatest number of bytes.
    Greatest,
    /// The greatest number of nodes.
    Nodes,
}

/// The nodes of what an operand means.
fn means_nodes(values: &[usize], means: Means) -> usize
    ensures { result ≡ node_amount (λ u. get_or values.now u 0) means }
{
    match means {
        Means::Table(table) => known(values, number(table)),
        Means::Field(_) => 0,
        Means::Action(_) => 0,
    }
}

/// The nodes of a constructor.
fn row_nodes(values: &[usize], row: &Row) -> usize
    ensures { result ≡ min (row_nodes (λ u. get_or values.now u 0) (row_of row.now)) 1025 }
{
    let ctor = row.ctor;
    let operands = ctor.operands.as_slice();
    let mut nodes = 1;
    'operands: for operand in operands {
        nodes = capped(nodes + capped(means_nodes(values, operand.means)));
    }
    nodes
}

/// What is reckoned of a constructor.
fn amount(
    quantity: Quantity,
    t: &Tables,
    made: &ByBlock<Length>,
    values: &[usize],
    row: &Row,
) -> usize
    requires { IsMeasured t.now made.now row.now }
    ensures { result
        ≡ min (amount quantity t.now (λ u. get_or values.now u 0) (row_of row.now)) 1025 }
{
    match quantity {
        Quantity::Least => row_bytes(t, made, values, row),
        Quantity::Greatest => row_bytes(t, made, values, row),
        Quantity::Nodes => row_nodes(values, row),
    }
}

/// The number that stands for two constructors.
fn pick(quantity: Quantity, left: usize, right: usize) -> usize
    ensures { result ≡ pick quantity left right }
{
    match quantity {
        Quantity::Least => left.min(right),
        Quantity::Greatest => left.max(right),
        Quantity::Nodes => left.max(right),
    }
}

/// The number before the first constructor.
fn start(quantity: Quantity) -> usize
    ensures { result ≡ start quantity }
{
    match quantity {
        Quantity::Least => 1025,
        Quantity::Greatest => 0,
        Quantity::Nodes => 0,
    }
}

/// What is reckoned of a table from its constructors, where there are some.
fn over_some(
    quantity: Quantity,
    t: &Tables,
    made: &ByBlock<Length>,
    values: &[usize],
    rows: &[Row],
) -> usize
    requires some { 1 ≤ length rows.now }
    requires measured { AreMeasured t.now made.now rows.now }
    ensures { result
        ≡ min (step quantity t.now (λ u. get_or values.now u 0) (rows_of rows.now)) 1025 }
{
    let mut most = start(quantity);
    'rows: for index in 0..rows.len() {
        let row = rows[index];
        most = pick(quantity, most, amount(quantity, t, made, values, &row));
    }
    most
}

/// What is reckoned of a table from its constructors.
fn step(
    quantity: Quantity,
    t: &Tables,
    made: &ByBlock<Length>,
    values: &[usize],
    rows: &[Row],
) -> usize
    requires { AreMeasured t.now made.now rows.now }
    ensures { result
        ≡ min (step quantity t.now (λ u. get_or values.now u 0) (rows_of rows.now)) 1025 }
{
    if rows.is_empty() {
        return 0;
    }
    over_some(quantity, t, made, values, rows)
}

/// What is reckoned of each table, in an order of the tables.
pub fn table_amounts(
    alloc: Global,
    quantity: Quantity,
    t: &Tables,
    made: &ByBlock<Length>,
    groups: &[Vec<Row>],
    order: &[usize],
) -> Result<Vec<usize>, AllocError>
    requires measured { AreMeasuredGroups t.now made.now groups.now }
    requires order { IsOrder (graph (groups_of groups.now)) order.now }
    ensures { IfOk result (λ values. (v : ℕ) → get_or values.items v 0
        ≡ min (table_amount quantity t.now (groups_of groups.now) v) 1025) }
{
    let mut values = vec![in alloc; 0usize; groups.len()]?;
    'order: for place in 0..order.len() {
        let table = order[place];
        let value = step(
            quantity,
            t,
            made,
            values.as_slice(),
            groups[table].as_slice(),
        );
        values[table] = value;
    }
    Ok(values)
}
