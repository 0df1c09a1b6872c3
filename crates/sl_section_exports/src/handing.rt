//! What tables stand for, and which are assigned.

ghost use Rattle.std.specs.Prelude.{◌≡◌, ◌++◌, map, IfOk, OnOk};
ghost use Rattle.sl_section_equations.specs.Uses as u;
ghost use Rattle.sl_spec_rules.specs.Gathered.{gathered};
ghost use Rattle.sl_spec_tables.specs.Rows.{table_of};
ghost use Rattle.sl_section_exports.specs.Exports as spec;
ghost use Rattle.sl_section_exports.specs.Views.{row_of, rows_of};

use crate::exporting::add_if;
use crate::rows::Sectioned;
use sl_section_equations::{ExportKind, assigned, export_kind};
use sl_spec::{Ctor, Means, Operand, Tables};
use sl_spec_tables::number;
use sl_word::SpaceId;
use std::alloc::{AllocError, Global};

fn is_constant(kind: ExportKind) -> bool
    ensures { result ≡ spec.is_constant kind }
{
    match kind {
        ExportKind::Constant => true,
        ExportKind::Nothing | ExportKind::Place => false,
        ExportKind::Table(_) | ExportKind::Storage => false,
    }
}

fn is_storage(kind: ExportKind) -> bool
    ensures { result ≡ spec.is_storage kind }
{
    match kind {
        ExportKind::Storage => true,
        ExportKind::Nothing | ExportKind::Place => false,
        ExportKind::Table(_) | ExportKind::Constant => false,
    }
}

/// The number of a constructor's table.
pub fn table(of: &Sectioned) -> usize
    ensures { result ≡ (row_of of.now).0.0.table }
{
    let row = of.row;
    let ctor = row.ctor;
    number(ctor.table)
}

/// What a constructor exports.
fn kind(default: SpaceId, of: &Sectioned) -> ExportKind
    ensures { result ≡ u.export_kind default.0 (row_of of.now).1 }
{
    let section = of.section;
    export_kind(default, section)
}

/// The tables that export a constant of their own.
#[tactic(auto, unfolding(sl_spec_rules::specs::Gathered::gathered))]
pub fn constants(
    alloc: Global,
    default: SpaceId,
    rows: &[Sectioned],
) -> Result<Vec<usize>, AllocError>
    ensures { IfOk result (λ v. v.items ≡ spec.constants default.0 (rows_of rows.now)) }
{
    let mut tables = Vec::new(alloc);
    'rows: for index in 0..rows.len() {
        let of = rows[index];
        add_if(&mut tables, is_constant(kind(default, &of)), table(&of))?;
    }
    Ok(tables)
}

/// The tables that export storage of their own that is no target of a jump.
#[tactic(auto, unfolding(sl_spec_rules::specs::Gathered::gathered))]
pub fn storages(
    alloc: Global,
    default: SpaceId,
    rows: &[Sectioned],
) -> Result<Vec<usize>, AllocError>
    ensures { IfOk result (λ v. v.items ≡ spec.storages default.0 (rows_of rows.now)) }
{
    let mut tables = Vec::new(alloc);
    'rows: for index in 0..rows.len() {
        let of = rows[index];
        add_if(&mut tables, is_storage(kind(default, &of)), table(&of))?;
    }
    Ok(tables)
}

/// Adds the table that an operand means, where it means one.
fn add_meant(tables: &mut Vec<usize>, operand: &Operand) -> Result<(), AllocError>
    ensures { OnOk result (tables.new.items ≡ tables.old.items ++ table_of operand.now.means) }
{
    match operand.means {
        Means::Table(table) => {
            tables.push(number(table))?;
            Ok(())
        }
        Means::Field(_) => Ok(()),
        Means::Action(_) => Ok(()),
    }
}

/// Adds the table that the operand of a number means, where it means one.
fn add_operand(tables: &mut Vec<usize>, ctor: &Ctor, operand: u32) -> Result<(), AllocError>
    ensures { OnOk result (tables.new.items
        ≡ tables.old.items ++ spec.operand_tables ctor.now operand) }
{
    match ctor.operands.as_slice().get(operand as usize) {
        Some(operand) => add_meant(tables, operand),
        None => Ok(()),
    }
}

/// The table that a constructor re-exports.
fn re_exported(alloc: Global, default: SpaceId, of: &Sectioned) -> Result<Vec<usize>, AllocError>
    ensures { IfOk result (λ v. v.items
        ≡ spec.re_exported (row_of of.now).0.0 (u.export_kind default.0 (row_of of.now).1)) }
{
    let row = of.row;
    let ctor = row.ctor;
    let mut tables = Vec::new(alloc);
    match kind(default, of) {
        ExportKind::Table(operand) => add_operand(&mut tables, ctor, operand)?,
        ExportKind::Nothing | ExportKind::Constant => (),
        ExportKind::Place | ExportKind::Storage => (),
    }
    Ok(tables)
}

/// Adds an edge from a table to each of some others.
fn add_edges(
    edges: &mut Vec<(usize, usize)>,
    from: usize,
    tables: &[usize],
) -> Result<(), AllocError>
    ensures { OnOk result (edges.new.items ≡ edges.old.items ++ map (λ u. (from, u)) tables.now) }
{
    'tables: for index in 0..tables.len() {
        edges.push((from, tables[index]))?;
    }
    Ok(())
}

/// Each table with those that its constructors re-export.
#[tactic(auto, unfolding(sl_spec_rules::specs::Gathered::gathered))]
pub fn re_exports(
    alloc: Global,
    default: SpaceId,
    rows: &[Sectioned],
) -> Result<Vec<(usize, usize)>, AllocError>
    ensures { IfOk result (λ v. v.items ≡ spec.re_exports default.0 (rows_of rows.now)) }
{
    let mut edges = Vec::new(alloc);
    'rows: for index in 0..rows.len() {
        let of = rows[index];
        let tables = re_exported(alloc, default, &of)?;
        add_edges(&mut edges, table(&of), tables.as_slice())?;
    }
    Ok(edges)
}

/// Adds the tables that a constructor assigns.
#[tactic(auto, unfolding(sl_spec_rules::specs::Gathered::gathered))]
fn add_assigned(alloc: Global, tables: &mut Vec<usize>, of: &Sectioned) -> Result<(), AllocError>
    ensures { OnOk result (tables.new.items
        ≡ tables.old.items ++ spec.assigned_tables (row_of of.now)) }
{
    let row = of.row;
    let ctor = row.ctor;
    let section = of.section;
    let operands = assigned(alloc, section)?;
    let operands = operands.as_slice();
    'operands: for index in 0..operands.len() {
        add_operand(tables, ctor, operands[index])?;
    }
    Ok(())
}

/// The tables that some constructor assigns.
#[tactic(auto, unfolding(sl_spec_rules::specs::Gathered::gathered))]
pub fn assigned_tables(alloc: Global, rows: &[Sectioned]) -> Result<Vec<usize>, AllocError>
    ensures { IfOk result (λ v. v.items ≡ gathered spec.assigned_tables (rows_of rows.now)) }
{
    let mut tables = Vec::new(alloc);
    'rows: for index in 0..rows.len() {
        let of = rows[index];
        add_assigned(alloc, &mut tables, &of)?;
    }
    Ok(tables)
}
