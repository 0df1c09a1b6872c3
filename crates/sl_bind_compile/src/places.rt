//! Flaws and reports with the first tokens of their items.

ghost use Rattle.std.specs.Prelude.{◌≡◌, IfOk};
ghost use Rattle.sl_ast.specs.Views.{indexes_of};
ghost use Rattle.sl_bind.specs.BindFaults.{token_of};
ghost use Rattle.sl_bind_compile.specs.Outcomes.{item_of_ctor, name_of, of_report};
ghost use Rattle.sl_bind_compile.specs.Places.{TellsRefusal, fault_refused, fault_told, refused};
ghost use Rattle.sl_bind_compile.specs.Places.{report_refused, report_told};
ghost use Rattle.sl_bind_compile.specs.AtTokens.{by_tokens};

use crate::error::{Ambiguity, CompileError, Flaw};
use sl_bind::{Bound, first_token};
use sl_conflict::{ConflictError, Unsound};
use sl_cube_sets::Report;
use sl_shape::ShapeError;
use sl_spec::{TableId, Tables};
use std::alloc::{AllocError, Global};

/// The item that the constructor of this number is.
fn item_of(t: &Tables<'_>, ctor: usize) -> Option<u32>
    ensures { result ≡ item_of_ctor t.now ctor }
{
    match t.constructors.get(ctor) {
        Some(of) => Some(of.item),
        None => None,
    }
}

/// The first token of the item that the constructor of this number is.
fn token_at(alloc: Global, bound: &Bound<'_>, ctor: usize) -> Result<Option<usize>, AllocError>
    ensures { IfOk result (λ token. token
        ≡ token_of (indexes_of bound.now.spec) (item_of_ctor bound.now.tables ctor)) }
{
    match item_of(&bound.tables, ctor) {
        Some(item) => first_token(alloc, bound.spec.items.as_slice(), item),
        None => Ok(None),
    }
}

/// The name of a table.
fn name_of<'a>(t: &Tables<'a>, table: TableId) -> &'a [u8]
    ensures { result.now ≡ name_of t.now table }
{
    match t.tables.at(table.0 as usize) {
        Some(of) => of.name,
        None => b"",
    }
}

/// The flaw and its constructor, unless memory ran out.
fn fault_told(error: ShapeError) -> Option<(Flaw, usize)>
    ensures { result ≡ fault_told error }
{
    match error {
        ShapeError::InteriorEllipsis(ctor) => Some((Flaw::InteriorEllipsis, ctor.0 as usize)),
        ShapeError::TokensDiffer(ctor) => Some((Flaw::TokensDiffer, ctor.0 as usize)),
        ShapeError::Impossible(ctor) => Some((Flaw::Impossible, ctor.0 as usize)),
        ShapeError::TooManyCubes(ctor, count) => {
            Some((Flaw::TooManyCubes(count), ctor.0 as usize))
        }
        ShapeError::WindowTooLong(ctor, count) => {
            Some((Flaw::WindowTooLong(count), ctor.0 as usize))
        }
        ShapeError::NoMemory => None,
    }
}

/// The table and the report on it, unless memory ran out.
fn report_told(error: ConflictError) -> Option<(TableId, Report)>
    ensures { result ≡ report_told error }
{
    match error {
        ConflictError::Ambiguous {
            table,
            first,
            second,
            both,
            apart,
        } => {
            let report = Report {
                both,
                first: first.0 as usize,
                second: second.0 as usize,
                apart,
            };
            Some((table, report))
        }
        ConflictError::NoMemory => None,
    }
}

/// The error for a fault of a pattern.
fn faulty<'a>(alloc: Global, bound: &Bound<'a>, error: ShapeError) -> CompileError<'a>
    ensures { TellsRefusal (indexes_of bound.now.spec)
        (fault_refused bound.now.tables (fault_told error)) result }
{
    let Some((flaw, ctor)) = fault_told(error) else {
        return CompileError::NoMemory;
    };
    match token_at(alloc, bound, ctor) {
        Ok(token) => CompileError::Flaw { flaw, token },
        Err(_) => CompileError::NoMemory,
    }
}

/// What is told of a table that isn't settled.
fn ambiguity<'a>(
    alloc: Global,
    bound: &Bound<'a>,
    table: TableId,
    report: &Report,
) -> Result<Ambiguity<'a>, AllocError>
    ensures { IfOk result (λ a. a ≡ by_tokens (indexes_of bound.now.spec)
        (of_report bound.now.tables table report.now)) }
{
    let first = token_at(alloc, bound, report.first)?;
    let second = token_at(alloc, bound, report.second)?;
    Ok(Ambiguity {
        table: name_of(&bound.tables, table),
        first,
        second,
        both: report.both,
        apart: report.apart,
    })
}

/// The error for a table that isn't settled.
fn ambiguous<'a>(alloc: Global, bound: &Bound<'a>, error: ConflictError) -> CompileError<'a>
    ensures { TellsRefusal (indexes_of bound.now.spec)
        (report_refused bound.now.tables (report_told error)) result }
{
    let Some((table, report)) = report_told(error) else {
        return CompileError::NoMemory;
    };
    match ambiguity(alloc, bound, table, &report) {
        Ok(told) => CompileError::Ambiguous(told),
        Err(_) => CompileError::NoMemory,
    }
}

/// The error for tables that aren't sound.
pub fn refused<'a>(alloc: Global, bound: &Bound<'a>, why: Unsound) -> CompileError<'a>
    ensures { TellsRefusal (indexes_of bound.now.spec)
        (refused bound.now.tables why) result }
{
    match why {
        Unsound::Shape(error) => faulty(alloc, bound, error),
        Unsound::Conflict(error) => ambiguous(alloc, bound, error),
    }
}
