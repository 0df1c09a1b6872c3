//! The context that a node's actions leave, where it is known.

ghost use Rattle.std.specs.Prelude.{◌≡◌, ◌*◌, ◌%◌, ◌^◌, ℕ, List, Ok, IfOk};
ghost use Rattle.sl_asm_bits.specs.Known.{IsLeft};
ghost use Rattle.sl_asm_bounds.specs.Bounds.{Fits, IsEarlySite};
ghost use Rattle.sl_decode_meaning.specs.Actions.{at_context, changed, with_bits};
ghost use Rattle.sl_decode_meaning.specs.Outcomes.{in_turn};
ghost use Rattle.sl_decode_meaning.specs.Values.{Site};
ghost use Rattle.sl_decode_meaning.specs.declared.notes.Noted.{Noted};
ghost use Rattle.sl_decode_plan.specs.Steps.{early_step};
ghost use Rattle.sl_decode_plan.specs.Values.{value_in};

use sl_asm_bits::{Known, whole};
use sl_asm_fit::Cell;
use sl_asm_known::{Frame, known};
use sl_decode_plan::{Early, Steps, Value};
use sl_spec::Tables;

/// A number moved up by so many bits.
#[tactic(auto, using(sl_decode::proofs::BitLemmas::all_out))]
fn moved(number: u64, low: u8) -> u64
    ensures { result ≡ number * 2 ^ low % 2 ^ 64 }
{
    if low < 64 { number << low } else { 0 }
}

/// The low bits of a number in the place of the bits of the mask, which begin at `low`.
fn with_bits(low: u8, mask: u64, context: u64, number: i64) -> u64
    ensures { result ≡ with_bits low mask context number }
{
    context & !mask | moved(number.cast_unsigned(), low) & mask
}

/// What is known of the value of an expression at a context, for all lists of the region.
fn known_at(t: &Tables, frame: &Frame, region: &[Cell], context: u64, v: &Value) -> Option<Known>
    ensures { (s : Site) → IsEarlySite frame.now region.now s
        → IfOk (value_in t.now (at_context context s) v.now) (IsLeft result) }
{
    let here = Frame {
        at: frame.at,
        lengths: &[],
        context,
        start: frame.start,
        next: 0,
        names: &[],
    };
    known(t, &here, region, v)
}

/// The context after a step, for lists of the region.
fn after_step(
    t: &Tables,
    frame: &Frame,
    region: &[Cell],
    context: Option<u64>,
    step: &Early,
) -> Option<u64>
    ensures { (s : Site) (x y : ℕ) (before behind : List Noted) → IsEarlySite frame.now region.now s
        → Fits context x → early_step t.now s step.now (changed x before) ≡ Ok (changed y behind)
        → Fits result y }
{
    let before = context?;
    match step {
        Early::Set(low, mask, v) => {
            let known = known_at(t, frame, region, before, v)?;
            let number = whole(&known)?;
            Some(with_bits(*low, *mask, before, number))
        }
        Early::Note(_, _) => Some(before),
    }
}

/// The context after a row of steps, for lists of the region.
fn after_row(
    t: &Tables,
    frame: &Frame,
    region: &[Cell],
    context: Option<u64>,
    row: &[Early],
) -> Option<u64>
    ensures { (s : Site) (x y : ℕ) (before behind : List Noted) → IsEarlySite frame.now region.now s
        → Fits context x
        → in_turn (early_step t.now s) row.now (changed x before) ≡ Ok (changed y behind)
        → Fits result y }
{
    let mut known = context;
    'steps: for index in 0..row.len() {
        known = after_step(t, frame, region, known, &row[index]);
    }
    known
}

/// The context after the steps of a node, for lists of the region, where it is the same for all of
/// them. Of the frame only the node's place and the address of the instruction count.
pub fn after_steps(
    t: &Tables,
    frame: &Frame,
    region: &[Cell],
    context: Option<u64>,
    steps: &Steps<Early>,
) -> Option<u64>
    ensures { (s : Site) (x y : ℕ) (before behind : List Noted) → IsEarlySite frame.now region.now s
        → Fits context x
        → in_turn (early_step t.now s) steps.now (changed x before) ≡ Ok (changed y behind)
        → Fits result y }
{
    let rows = steps.rows();
    let mut known = context;
    'rows: for index in 0..rows.len() {
        known = after_row(t, frame, region, known, rows[index].as_slice());
    }
    known
}
