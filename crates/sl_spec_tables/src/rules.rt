//! Rules 32 to 37, one by one.

ghost use Rattle.std.specs.Prelude.{◌≡◌, ◌==◌, ◌&&◌, false, get_or, min, option_copied, slice_get};
ghost use Rattle.std.specs.List.{list_any};
ghost use Rattle.sl_spec_tables.specs.BlockLengths.{AreMeasured, IsMeasured};
ghost use Rattle.sl_spec_tables.specs.Lengths.{row_bytes};
ghost use Rattle.sl_spec_tables.specs.Rows.{is_of};
ghost use Rattle.sl_spec_tables.specs.TableRules.{first_place, has_default, has_instruction};
ghost use Rattle.sl_spec_tables.specs.TableRules.{past_most};
ghost use Rattle.sl_spec_tables.specs.Views.{row_of, rows_of};

use crate::block_lengths::Length;
use crate::faults::Place;
use crate::lengths::row_bytes;
use crate::rows::{Row, number};
use sl_spec::{ByBlock, Tables};

/// How many constructors there may be.
const MOST_CONSTRUCTORS: usize = 65_535;

/// Whether a constructor is one of `instruction`.
fn is_of_instruction(row: &Row) -> bool
    ensures { result ≡ is_of 0 (row_of row.now) }
{
    let ctor = row.ctor;
    number(ctor.table) == 0
}

/// The place of a constructor.
fn place(row: &Row) -> Place
    ensures { result ≡ Place.Item row.now.ctor.now.item }
{
    let ctor = row.ctor;
    Place::Item(ctor.item)
}

/// Rule 32: whether a default space exists.
#[tactic(auto, unfolding(crate::specs::TableRules::has_default))]
pub fn has_default(t: &Tables) -> bool
    ensures { result ≡ has_default t.now }
{
    t.spaces.iter().any(|space| space.default)
}

/// Whether some constructor is one of `instruction`.
fn some_of_instruction(rows: &[Row]) -> bool
    ensures { result ≡ list_any (λ r. is_of 0 (row_of r)) rows.now }
{
    rows.iter().any(|row| is_of_instruction(row))
}

/// Rule 33: whether `instruction` has a constructor.
pub fn has_instruction(rows: &[Row]) -> bool
    ensures { result ≡ has_instruction (rows_of rows.now) }
{
    some_of_instruction(rows)
}

/// The constructor at an index.
fn row_at<'r, 'x, 's: 'x, 'a: 's>(
    rows: &'r [Row<'x, 's, 'a>],
    index: usize,
) -> Option<&'r Row<'x, 's, 'a>>
    ensures { option_copied result ≡ slice_get rows.now index }
{
    rows.get(index)
}

/// Rule 33: the place of the first constructor too many.
pub fn past_most(rows: &[Row]) -> Option<Place>
    ensures { result ≡ past_most (rows_of rows.now) }
{
    match row_at(rows, MOST_CONSTRUCTORS) {
        Some(row) => Some(place(row)),
        None => None,
    }
}

/// The place of the first constructor of `instruction`.
pub fn first_of_instruction(rows: &[Row]) -> Option<Place>
    ensures { result ≡ first_place (is_of 0) (rows_of rows.now) }
{
    'rows: for index in 0..rows.len() {
        let row = rows[index];
        if is_of_instruction(&row) {
            return Some(place(&row));
        }
    }
    None
}

/// Whether something is told of a number.
fn is_told(told: &[bool], index: usize) -> bool
    ensures { result ≡ get_or told.now index false }
{
    match told.get(index) {
        Some(told) => *told,
        None => false,
    }
}

/// Whether it is told of the table of a constructor that it reaches itself.
fn reaches(told: &[bool], row: &Row) -> bool
    ensures { result ≡ get_or told.now row.now.ctor.now.table false }
{
    let ctor = row.ctor;
    is_told(told, number(ctor.table))
}

/// Rule 34: the place of the first constructor whose table reaches itself.
pub fn first_reaching(told: &[bool], rows: &[Row]) -> Option<Place>
    ensures { result ≡ first_place (λ r. get_or told.now r.0.table false) (rows_of rows.now) }
{
    'rows: for index in 0..rows.len() {
        let row = rows[index];
        if reaches(told, &row) {
            return Some(place(&row));
        }
    }
    None
}

/// Whether a constructor is one of `instruction` and has no byte.
fn is_empty(t: &Tables, made: &ByBlock<Length>, values: &[usize], row: &Row) -> bool
    requires { IsMeasured t.now made.now row.now }
    ensures { result ≡ (is_of 0 (row_of row.now)
        && (min (row_bytes t.now (λ u. get_or values.now u 0) (row_of row.now)) 1025 == 0)) }
{
    is_of_instruction(row) && row_bytes(t, made, values, row) == 0
}

/// Rule 35: the place of the first constructor of `instruction` that may have no byte.
pub fn first_empty(
    t: &Tables,
    made: &ByBlock<Length>,
    values: &[usize],
    rows: &[Row],
) -> Option<Place>
    requires { AreMeasured t.now made.now rows.now }
    ensures { result ≡ first_place (λ r. is_of 0 r
        && (min (row_bytes t.now (λ u. get_or values.now u 0) r) 1025 == 0)) (rows_of rows.now) }
{
    'rows: for index in 0..rows.len() {
        let row = rows[index];
        if is_empty(t, made, values, &row) {
            return Some(place(&row));
        }
    }
    None
}
