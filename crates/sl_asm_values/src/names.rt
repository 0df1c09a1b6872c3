//! A region narrowed by the values of a node's action names, in the order of its actions, each name
//! known by those before it.

ghost use Rattle.std.specs.Prelude.{◌≡◌, ◌∷◌, ◌≤◌, [], IfOk, MatchOption};
ghost use Rattle.std.specs.Prelude.{length, option_and_then, slice_get};
ghost use Rattle.sl_asm_values.specs.Names.{KeepsNames, NamesNone};
ghost use Rattle.sl_asm_values.specs.Rows.{GivesNoNumber, GivesOther, IsExact, IsNamed};
ghost use Rattle.sl_asm_values.specs.Rows.{IsPartOf, Leaves};
ghost use Rattle.sl_decode_plan.specs.declared.late.Late.TheVariants as l;

use crate::narrowing::{copied, narrowed_by};
use sl_asm_bits::{Known, exact};
use sl_asm_fit::Cell;
use sl_asm_known::{Frame, known};
use sl_asm_print::number_with;
use sl_decode_plan::{Late, Steps, Value};
use sl_spec::Tables;
use std::alloc::{AllocError, Global};

/// A region, and what is known of an expression's value for all of its lists.
#[derive(Drop)]
struct Named {
    region: Vec<Cell>,
    known: Known,
}

/// A region, and what is known of the values of the action names so far for all of its lists.
#[derive(Drop)]
struct Reached {
    region: Vec<Cell>,
    names: Vec<Known>,
}

/// The text that is wanted of a name, if one is.
fn wanted_of<'x>(wanted: &[Option<&'x [u8]>], index: usize) -> Option<&'x [u8]>
    ensures { result ≡ option_and_then (λ text. text) (slice_get wanted.now index) }
{
    match wanted.get(index) {
        Some(text) => *text,
        None => None,
    }
}

/// The region narrowed to lists that give the expression this value.
fn with_number(
    alloc: Global,
    t: &Tables,
    frame: &Frame,
    region: &[Cell],
    v: &Value,
    number: i64,
) -> Result<Option<Named>, AllocError>
    requires { length region.now ≤ 255 }
    ensures { IfOk result (λ found. MatchOption found
        (GivesOther t.now frame.now region.now v.now number)
        (IsExact t.now frame.now region.now v.now number)) }
{
    let known = exact(number);
    let narrow = narrowed_by(alloc, t, frame, region, v, &known)?;
    let Some(region) = narrow else {
        return Ok(None);
    };
    Ok(Some(Named { region, known }))
}

/// The region narrowed to lists that give the expression a value, with the wanted text if one is
/// wanted.
fn with_value(
    alloc: Global,
    t: &Tables,
    frame: &Frame,
    region: &[Cell],
    v: &Value,
    wanted: Option<&[u8]>,
) -> Result<Option<Named>, AllocError>
    requires { length region.now ≤ 255 }
    ensures { IfOk result (λ found. MatchOption found
        (GivesNoNumber t.now frame.now region.now v.now wanted.entry)
        (IsNamed t.now frame.now region.now v.now wanted.entry)) }
{
    let Some(known) = known(t, frame, region, v) else {
        return Ok(None);
    };
    let Some(text) = wanted else {
        let region = copied(alloc, region)?;
        return Ok(Some(Named { region, known }));
    };
    let read = number_with(alloc, false, text)?;
    let Some(number) = read else {
        return Ok(None);
    };
    let found = with_number(alloc, t, frame, region, v, number)?;
    Ok(found)
}

/// What is known when the next name has its value.
fn after_name(
    alloc: Global,
    t: &Tables,
    frame: &Frame,
    reached: Reached,
    v: &Value,
    wanted: &[Option<&[u8]>],
) -> Result<Option<Reached>, AllocError>
    requires { length reached.region.items ≤ 255 }
    ensures part { IfOk result (IsPartOf reached.region.items) }
    ensures leaves { IfOk result
        (Leaves t.now frame.now wanted.now reached (l.Name v.now ∷ [])) }
{
    let Reached { region, mut names } = reached;
    let here = Frame {
        at: frame.at,
        lengths: frame.lengths,
        context: frame.context,
        start: frame.start,
        next: frame.next,
        names: names.as_slice(),
    };
    let text = wanted_of(wanted, here.names.len());
    let found = with_value(alloc, t, &here, &region, v, text)?;
    let Some(Named { region, known }) = found else {
        return Ok(None);
    };
    names.push(known)?;
    Ok(Some(Reached { region, names }))
}

/// What is known when a step is done.
fn after_step(
    alloc: Global,
    t: &Tables,
    frame: &Frame,
    reached: Reached,
    step: &Late,
    wanted: &[Option<&[u8]>],
) -> Result<Option<Reached>, AllocError>
    requires { length reached.region.items ≤ 255 }
    ensures part { IfOk result (IsPartOf reached.region.items) }
    ensures leaves { IfOk result (Leaves t.now frame.now wanted.now reached (step.now ∷ [])) }
{
    match step {
        Late::Name(v) => after_name(alloc, t, frame, reached, v, wanted),
        Late::Commit(_) => Ok(Some(reached)),
    }
}

/// What is known when a row of steps is done.
fn after_row(
    alloc: Global,
    t: &Tables,
    frame: &Frame,
    reached: Reached,
    row: &[Late],
    wanted: &[Option<&[u8]>],
) -> Result<Option<Reached>, AllocError>
    requires { length reached.region.items ≤ 255 }
    ensures part { IfOk result (IsPartOf reached.region.items) }
    ensures leaves { IfOk result (Leaves t.now frame.now wanted.now reached row.now) }
{
    let mut left = reached;
    'steps: for index in 0..row.len() {
        let next = after_step(alloc, t, frame, left, &row[index], wanted)?;
        let Some(after) = next else {
            return Ok(None);
        };
        left = after;
    }
    Ok(Some(left))
}

/// The region narrowed by the texts that are wanted of the values of a node's action names, by its
/// late steps in order, each name known by those before it; `None` where no list of the region has
/// them all. `wanted` has the texts in the order of the names, `None` where none is wanted. The
/// frame's own names don't count. The only error is want of memory.
pub fn narrowed_by_names(
    alloc: Global,
    t: &Tables,
    frame: &Frame,
    region: &[Cell],
    steps: &Steps<Late>,
    wanted: &[Option<&[u8]>],
) -> Result<Option<Vec<Cell>>, AllocError>
    requires { length region.now ≤ 255 }
    ensures { IfOk result (λ found. MatchOption found
        (NamesNone t.now frame.now region.now steps.now wanted.now)
        (λ narrow. KeepsNames t.now frame.now region.now steps.now wanted.now narrow.items)) }
{
    let whole = copied(alloc, region)?;
    let mut left = Reached {
        region: whole,
        names: Vec::new(alloc),
    };
    let rows = steps.rows();
    'rows: for index in 0..rows.len() {
        let next = after_row(alloc, t, frame, left, rows[index].as_slice(), wanted)?;
        let Some(after) = next else {
            return Ok(None);
        };
        left = after;
    }
    Ok(Some(left.region))
}
