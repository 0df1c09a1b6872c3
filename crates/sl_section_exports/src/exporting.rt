//! Which tables export.

ghost use Rattle.std.specs.Prelude.{◌≡◌, ◌++◌, IfOk, OnOk};
ghost use Rattle.std.specs.List.{list_any};
ghost use Rattle.sl_ast.specs.Views.{section_of, statement_of, statements_of};
ghost use Rattle.sl_spec_tables.specs.Views.{row_of, rows_of};
ghost use Rattle.sl_section_exports.specs.Exports as spec;

use sl_ast::constructors::Section;
use sl_ast::statements::Stmt;
use sl_spec_tables::{Row, number};
use std::alloc::{AllocError, Global};

fn is_export(of: &Stmt) -> bool
    ensures { result ≡ spec.is_export (statement_of of.now) }
{
    match of {
        Stmt::Export(_) => true,
        Stmt::Local(_, _, _) | Stmt::Declare(_, _, _) | Stmt::Assign(_, _) => false,
        Stmt::Goto(_) | Stmt::Branch(_, _) | Stmt::Call(_) | Stmt::Return(_) => false,
        Stmt::Build(_) | Stmt::Invoke(_, _) | Stmt::Label(_) => false,
    }
}

fn some_export(body: &[Stmt]) -> bool
    ensures { result ≡ list_any (λ s. spec.is_export (statement_of s)) body.now }
{
    body.iter().any(|of| is_export(of))
}

#[tactic(auto, using(sl_spec_rules::proofs::Seen::seen))]
fn does_export(section: &Section) -> bool
    ensures { result ≡ spec.does_export (section_of section.now) }
{
    match section {
        Section::Statements(body) => some_export(body.as_slice()),
        Section::Unimplemented => false,
    }
}

#[tactic(auto, using(sl_spec_rules::proofs::Seen::seen))]
fn is_silent(section: &Section) -> bool
    ensures { result ≡ spec.is_silent (section_of section.now) }
{
    match section {
        Section::Statements(body) => !some_export(body.as_slice()),
        Section::Unimplemented => false,
    }
}

fn row_exports(row: &Row) -> bool
    ensures { result ≡ spec.does_export (row_of row.now).1.1.section }
{
    let own = row.own;
    let constructor = own.own;
    does_export(&constructor.section)
}

fn row_is_silent(row: &Row) -> bool
    ensures { result ≡ spec.is_silent (row_of row.now).1.1.section }
{
    let own = row.own;
    let constructor = own.own;
    is_silent(&constructor.section)
}

fn table(row: &Row) -> usize
    ensures { result ≡ (row_of row.now).0.table }
{
    let ctor = row.ctor;
    number(ctor.table)
}

/// Adds a number where a test holds.
pub fn add_if(numbers: &mut Vec<usize>, holds: bool, number: usize) -> Result<(), AllocError>
    ensures { OnOk result (numbers.new.items ≡ numbers.old.items ++ spec.if_so holds number) }
{
    if holds {
        numbers.push(number)?;
    }
    Ok(())
}

/// The tables of the constructors that export.
#[tactic(auto, unfolding(sl_spec_rules::specs::Gathered::gathered))]
pub fn exporting(alloc: Global, rows: &[Row]) -> Result<Vec<usize>, AllocError>
    ensures { IfOk result (λ v. v.items ≡ spec.exporting (rows_of rows.now)) }
{
    let mut tables = Vec::new(alloc);
    'rows: for index in 0..rows.len() {
        let row = rows[index];
        add_if(&mut tables, row_exports(&row), table(&row))?;
    }
    Ok(tables)
}

/// The tables of the constructors that aren't `unimpl` and export nothing.
#[tactic(auto, unfolding(sl_spec_rules::specs::Gathered::gathered))]
pub fn silent(alloc: Global, rows: &[Row]) -> Result<Vec<usize>, AllocError>
    ensures { IfOk result (λ v. v.items ≡ spec.silent (rows_of rows.now)) }
{
    let mut tables = Vec::new(alloc);
    'rows: for index in 0..rows.len() {
        let row = rows[index];
        add_if(&mut tables, row_is_silent(&row), table(&row))?;
    }
    Ok(tables)
}
