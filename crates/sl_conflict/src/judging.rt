//! Whether each table is settled, or the report on the first that isn't.

ghost use Rattle.std.specs.Prelude.{◌≡◌, ◌↔◌, ℕ, List, All, IfErr, IfOk, OnOk, IfSome, Some};
ghost use Rattle.std.specs.Prelude.{IsTrue, length, option_copied, slice_get};
ghost use Rattle.sl_conflict.specs.Ambiguity.{AreSettled, Tells, has_in};
ghost use Rattle.sl_conflict.specs.Judged.{IsJudged, IsReportAt, IsReportOf};
ghost use Rattle.sl_conflict.specs.Kept.{AreTablesOf, HasChoices, IsPaired};
ghost use Rattle.sl_conflict.specs.Rows.{rows};
ghost use Rattle.sl_cube_sets.specs.Reports.{IsReport};
ghost use Rattle.sl_cube_sets.specs.Unions.{has_set};
ghost use Rattle.sl_cube_sets.specs.declared.CubeSet.{CubeSet};

use crate::grouping::{index, tables_of};
use crate::table_sets::TableSets;
use sl_cube::Point;
use sl_cube_sets::{Apart, CubeSet, Report, first_unsettled};
use sl_spec::{Ctor, CtorId, TableId, Tables};
use std::alloc::{AllocError, Global};

/// The sets of all tables, by the tables' numbers. It exists only where each table is settled.
#[derive(Debug, Drop)]
pub struct Checked {
    pub tables: Vec<TableSets>,
    pub ghost paired: { All IsPaired tables.items },
    pub ghost settled: { All (λ kept. ∥ HasChoices kept ∥₁) tables.items },
}

/// Why tables aren't checked.
#[derive(Clone, Copy, Debug, PartialEq, Eq)]
pub enum ConflictError {
    /// `both` is the least point that some constructor of the table has and at which none is the
    /// choice. `first` and `second` are the first two that have it and of which neither lies
    /// properly within the other; `apart` tells how these two differ.
    Ambiguous {
        table: TableId,
        first: CtorId,
        second: CtorId,
        both: Point,
        apart: Apart,
    },
    NoMemory,
}

impl From<AllocError> for ConflictError {
    ghost use Rattle.std.specs.Prelude.{◌≡◌};
    ghost use Rattle.sl_conflict.specs.declared.judging.ConflictError.{ConflictError};

    ghost from_gives = { λ _ error. error ≡ ConflictError.NoMemory };

    fn from(_: AllocError) -> Self {
        ConflictError::NoMemory
    }
}

impl Checked {
    /// The sets of a table.
    pub fn table(&self, table: TableId) -> Option<&TableSets>
        ensures same { option_copied result ≡ slice_get self.now.tables.items table }
        ensures paired { IfSome result (λ kept. IsPaired kept.now) }
        ensures settled { IfSome result (λ kept. ∥ HasChoices kept.now ∥₁) }
    {
        self.tables.get(index(table))
    }
}

/// The report on a table, with its constructors by their numbers.
fn ambiguous(table: TableId, kept: &TableSets, report: &Report) -> ConflictError
    requires paired { IsPaired kept.now }
    requires report { IsReport has_set kept.now.sets.items report.now }
    ensures { IsReportOf kept.now table result }
{
    ConflictError::Ambiguous {
        table,
        first: CtorId(kept.ctors[report.first]),
        second: CtorId(kept.ctors[report.second]),
        both: report.both,
        apart: report.apart,
    }
}

/// Whether this constructor is the first of a table.
fn begins_with(kept: &TableSets, number: usize) -> bool
    ensures { IsTrue result ↔ (slice_get kept.now.ctors.items 0 ≡ Some number) }
{
    match kept.ctors.first() {
        Some(first) => *first as usize == number,
        None => false,
    }
}

/// Judges a table.
fn judge(alloc: Global, table: TableId, kept: &TableSets) -> Result<(), ConflictError>
    requires { IsPaired kept.now }
    ensures settled { OnOk result (HasChoices kept.now) }
    ensures ambiguous { IfErr result (IsReportOf kept.now table) }
{
    let told = first_unsettled(alloc, kept.sets.as_slice())?;
    match told {
        Some(report) => Err(ambiguous(table, kept, &report)),
        None => Ok(()),
    }
}

/// Judges a table at its first constructor.
fn judge_at(
    alloc: Global,
    tables: &[TableSets],
    table: TableId,
    number: usize,
) -> Result<(), ConflictError>
    requires { All IsPaired tables.now }
    ensures settled { OnOk result (IsJudged tables.now table number) }
    ensures ambiguous { IfErr result (IsReportAt tables.now table number) }
{
    let Some(kept) = tables.get(index(table)) else {
        return Ok(());
    };
    if !begins_with(kept, number) {
        return Ok(());
    }
    judge(alloc, table, kept)
}

/// Judges all tables, each at its first constructor.
fn judge_all(alloc: Global, ctors: &[Ctor], tables: &[TableSets]) -> Result<(), ConflictError>
    requires { All IsPaired tables.now }
    ensures settled { OnOk result ((count : ℕ) (sets : List CubeSet)
        → AreTablesOf count (rows ctors.now sets) tables.now
        → AreSettled has_in (rows ctors.now sets) count) }
    ensures ambiguous { IfErr result (λ error. (count : ℕ) (sets : List CubeSet)
        → AreTablesOf count (rows ctors.now sets) tables.now
        → Tells ctors.now count (rows ctors.now sets) error) }
{
    'ctors: for number in 0..ctors.len() {
        let ctor = &ctors[number];
        judge_at(alloc, tables, ctor.table, number)?;
    }
    Ok(())
}

/// Whether each table of a text is settled: the sets of each table, or the report on the first
/// table, by its first constructor in the text, that isn't settled. `sets` has the constructors'
/// sets by their numbers; one without a set has no point. The only other error is want of memory.
pub fn check(alloc: Global, t: &Tables, sets: Vec<CubeSet>) -> Result<Checked, ConflictError>
    ensures tables { IfOk result (λ checked. AreTablesOf (length t.now.tables)
        (rows t.now.constructors sets.items) checked.tables.items) }
    ensures settled { IfOk result (λ checked. AreSettled has_in
        (rows t.now.constructors sets.items) (length t.now.tables)) }
    ensures ambiguous { IfErr result (Tells t.now.constructors (length t.now.tables)
        (rows t.now.constructors sets.items)) }
{
    let ctors = t.constructors.as_slice();
    let tables = tables_of(alloc, t.tables.len(), ctors, sets)?;
    judge_all(alloc, ctors, tables.as_slice())?;
    Ok(Checked { tables })
}
