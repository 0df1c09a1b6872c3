//! What is known of values of actions.

ghost use Rattle.std.specs.Prelude.{◌≡◌, ◌+◌, ◌-◌, ◌^◌, ℤ, List, IfOk, min, slice_get};
ghost use Rattle.sl_asm_bits.specs.Known.{HasBits, IsLeft};
ghost use Rattle.sl_asm_known.specs.Frames.{AreOf, IsSiteOf};
ghost use Rattle.sl_decode_leaves.specs.Extents.{extent};
ghost use Rattle.sl_decode_meaning.specs.Values.{Site, value_or_zero};
ghost use Rattle.sl_decode_plan.specs.Values.{value_in};

use crate::Frame;
use crate::fields::{given_bits, plain_bits};
use sl_asm_bits::{Known, exact, operated, prefixed};
use sl_asm_fit::Cell;
use sl_decode_leaves::{Extent, extent_of};
use sl_decode_plan::Value;
use sl_spec::Tables;
use sl_spec_operators::literal;

/// The place of a token in bytes from the instruction's start; 2^64 - 1 stands for all that is
/// more.
pub(crate) fn place_of(frame: &Frame, place: &Extent) -> u64
    ensures { result ≡ min (frame.now.at + extent place.now frame.now.lengths.now) (2 ^ 64 - 1) }
{
    u64::from(frame.at).saturating_add(extent_of(place, frame.lengths))
}

/// What is known of the value of an action name; one that has none counts as 0.
fn name_bits(names: &[Known], number: u32) -> Known
    ensures { (values : List ℤ) → AreOf names.now values
        → HasBits result (value_or_zero (slice_get values number)) }
{
    let index = number as usize;
    if index < names.len() {
        let known = names[index];
        return known;
    }
    exact(0)
}

/// What is known of the value of an expression, for all lists of the region: if it has one, it has
/// these bits. `None` where it has none, as a quotient by 0 or a field without an attached number.
pub fn known(t: &Tables, frame: &Frame, region: &[Cell], v: &Value) -> Option<Known>
    ensures { (s : Site) → IsSiteOf frame.now region.now s
        → IfOk (value_in t.now s v.now) (IsLeft result) }
{
    match v {
        Value::Number(n) => Some(exact(*n)),
        Value::Start => Some(exact(literal(frame.start))),
        Value::Next => Some(exact(literal(frame.next))),
        Value::Named(number) => Some(name_bits(frame.names, *number)),
        Value::Field(id, place) => {
            given_bits(t, *id, region, place_of(frame, place), frame.context)
        }
        Value::Plain(id, place) => {
            let at = place_of(frame, place);
            Some(plain_bits(t, *id, region, at, frame.context))
        }
        Value::Prefix(op, inner) => {
            let inner = known(t, frame, region, inner)?;
            prefixed(*op, &inner)
        }
        Value::Binary(op, left, right) => {
            let left = known(t, frame, region, left)?;
            let right = known(t, frame, region, right)?;
            operated(*op, &left, &right)
        }
        Value::Undefined => None,
    }
}
