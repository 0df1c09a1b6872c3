//! The first broken rule from 32 to 37.

ghost use Rattle.std.specs.Prelude.{◌≡◌, ◌∷◌, [], ℕ, IfOk, get_or, length, min};
ghost use Rattle.sl_spec.specs.Numbers.{AreNumbered};
ghost use Rattle.sl_spec.specs.Unfolded.{all_placed};
ghost use Rattle.sl_spec_tables.specs.BlockLengths.{AreMeasured, AreMeasuredGroups};
ghost use Rattle.sl_spec_tables.specs.Rows as spec;
ghost use Rattle.sl_spec_tables.specs.Lengths.{table_amount};
ghost use Rattle.sl_spec_tables.specs.Ordered.{IsOrdered};
ghost use Rattle.sl_spec_tables.specs.Rows.{is_of};
ghost use Rattle.sl_spec_tables.specs.TableRules.{amount_rules, broken_at, early_rules};
ghost use Rattle.sl_spec_tables.specs.TableRules.{empty_place};
ghost use Rattle.sl_spec_tables.specs.TableRules.{first_fault, first_place, has_few_nodes};
ghost use Rattle.sl_spec_tables.specs.TableRules.{is_short};
ghost use Rattle.sl_spec_tables.specs.TableRules.{late_fault, reaching_place};
ghost use Rattle.sl_spec_tables.specs.Views.{groups_of, rows_of};

use crate::block_lengths::{Length, block_lengths};
use crate::faults::{LateFault, Place};
use crate::lengths::known;
use crate::quantities::{Quantity, table_amounts};
use crate::rows::{Row, all_rows, graph, grouped};
use crate::rules::{
    first_empty, first_of_instruction, first_reaching, has_default, has_instruction, past_most,
};
use sl_base_graphs::order_of;
use sl_spec::{ByBlock, Tables, Unfolded};
use std::alloc::{AllocError, Global};

/// How many nodes an instruction may have.
const MOST_NODES: usize = 1024;

/// How many bytes an instruction may have.
const MOST_BYTES: usize = 255;

/// The first broken one of rules 32 and 33.
fn early_fault(t: &Tables, rows: &[Row]) -> Option<LateFault>
    ensures { result ≡ first_fault (early_rules t.now (rows_of rows.now)) }
{
    if !has_default(t) {
        return Some(LateFault {
            rule: 32,
            place: Place::End,
        });
    }
    if !has_instruction(rows) {
        return Some(LateFault {
            rule: 33,
            place: Place::End,
        });
    }
    match past_most(rows) {
        Some(place) => Some(LateFault { rule: 33, place }),
        None => None,
    }
}

/// The constructors of a text with what is reckoned of them once.
#[derive(Clone, Copy)]
struct Ordered<'m, 'x, 's, 'a> {
    t: &'m Tables<'a>,
    /// The bytes of the patterns of blocks.
    made: &'m ByBlock<Length<'a>>,
    /// The constructors of each table.
    groups: &'m [Vec<Row<'x, 's, 'a>>],
    /// All constructors.
    rows: &'m [Row<'x, 's, 'a>],
    /// The tables, each after those that its constructors name.
    order: &'m [usize],
}

impl Ordered<'_, '_, '_, '_> {
    /// Where rule 35 is broken, if it is. Where the least number of bytes of `instruction` isn't 0,
    /// no constructor is walked again.
    fn empty_place(&self, alloc: Global) -> Result<Option<Place>, AllocError>
        requires { IsOrdered self.now }
        ensures { IfOk result (λ place. place
            ≡ empty_place self.now.t.now (groups_of self.now.groups.now)
            (rows_of self.now.rows.now)) }
    {
        let values = self.amounts(alloc, Quantity::Least)?;
        if known(values.as_slice(), 0) > 0 {
            return Ok(None);
        }
        let place = first_empty(self.t, self.made, values.as_slice(), self.rows);
        Ok(place)
    }

    /// Where rule 36 is broken, if it is.
    fn nodes_place(&self, alloc: Global) -> Result<Option<Place>, AllocError>
        requires { IsOrdered self.now }
        ensures { IfOk result (λ place. place
            ≡ broken_at (has_few_nodes self.now.t.now (groups_of self.now.groups.now))
            (first_place (is_of 0) (rows_of self.now.rows.now))) }
    {
        let values = self.amounts(alloc, Quantity::Nodes)?;
        if known(values.as_slice(), 0) <= MOST_NODES {
            return Ok(None);
        }
        let place = first_of_instruction(self.rows);
        Ok(place)
    }

    /// Where rule 37 is broken, if it is.
    fn bytes_place(&self, alloc: Global) -> Result<Option<Place>, AllocError>
        requires { IsOrdered self.now }
        ensures { IfOk result (λ place. place
            ≡ broken_at (is_short self.now.t.now (groups_of self.now.groups.now))
            (first_place (is_of 0) (rows_of self.now.rows.now))) }
    {
        let values = self.amounts(alloc, Quantity::Greatest)?;
        if known(values.as_slice(), 0) <= MOST_BYTES {
            return Ok(None);
        }
        let place = first_of_instruction(self.rows);
        Ok(place)
    }

    /// What is reckoned of each table.
    fn amounts(&self, alloc: Global, quantity: Quantity) -> Result<Vec<usize>, AllocError>
        requires { IsOrdered self.now }
        ensures { IfOk result (λ values. (v : ℕ) → get_or values.items v 0
            ≡ min (table_amount quantity self.now.t.now (groups_of self.now.groups.now) v) 1025) }
    {
        table_amounts(alloc, quantity, self.t, self.made, self.groups, self.order)
    }

    /// The first broken one of rules 35 to 37.
    fn amount_fault(&self, alloc: Global) -> Result<Option<LateFault>, AllocError>
        requires { IsOrdered self.now }
        ensures { IfOk result (λ fault. fault ≡ first_fault (amount_rules self.now.t.now
            (groups_of self.now.groups.now) (rows_of self.now.rows.now))) }
    {
        if let Some(place) = self.empty_place(alloc)? {
            return Ok(Some(LateFault { rule: 35, place }));
        }
        if let Some(place) = self.nodes_place(alloc)? {
            return Ok(Some(LateFault { rule: 36, place }));
        }
        if let Some(place) = self.bytes_place(alloc)? {
            return Ok(Some(LateFault { rule: 37, place }));
        }
        Ok(None)
    }
}

/// The first broken one of rules 34 to 37.
fn reaching_fault<'m, 'x, 's, 'a>(
    alloc: Global,
    t: &'m Tables<'a>,
    made: &'m ByBlock<Length<'a>>,
    groups: &'m [Vec<Row<'x, 's, 'a>>],
    rows: &'m [Row<'x, 's, 'a>],
) -> Result<Option<LateFault>, AllocError>
    requires groups { AreMeasuredGroups t.now made.now groups.now }
    requires rows { AreMeasured t.now made.now rows.now }
    requires grouped { groups_of groups.now ≡ spec.groups (length t.now.tables) (rows_of rows.now) }
    ensures { IfOk result (λ fault. fault ≡ first_fault
        ((34, reaching_place (groups_of groups.now) (rows_of rows.now))
        ∷ amount_rules t.now (groups_of groups.now) (rows_of rows.now))) }
{
    let graph = graph(alloc, groups)?;
    let levels = order_of(alloc, graph.as_slice())?;
    if let Some(place) = first_reaching(levels.reaching.as_slice(), rows) {
        return Ok(Some(LateFault { rule: 34, place }));
    }
    let ordered = Ordered {
        t,
        made,
        groups,
        rows,
        order: levels.order.as_slice(),
    };
    let fault = ordered.amount_fault(alloc)?;
    Ok(fault)
}

/// The first broken rule from 32 to 37 of the tables of a text, with its place, and `None` where all
/// hold. `constructors` are those of `t` as they are written, in the same order. The pattern of a
/// block is walked once for all constructors inside. The only error is want of memory.
pub fn judge_tables<'s, 'a>(
    alloc: Global,
    t: &Tables<'a>,
    constructors: &[Unfolded<'s, 'a>],
) -> Result<Option<LateFault>, AllocError>
    requires { AreNumbered constructors.now }
    ensures { IfOk result (λ fault. fault ≡ late_fault t.now (all_placed constructors.now)) }
{
    let rows = all_rows(alloc, t.constructors.as_slice(), constructors)?;
    if let Some(fault) = early_fault(t, rows.as_slice()) {
        return Ok(Some(fault));
    }
    let groups = grouped(alloc, t.tables.len(), rows.as_slice())?;
    let made = block_lengths(alloc, t, constructors)?;
    let fault = reaching_fault(alloc, t, &made, groups.as_slice(), rows.as_slice())?;
    Ok(fault)
}
