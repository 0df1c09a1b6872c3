//! Whether the lists of a region give an expression a wanted value.

ghost use Rattle.sl_asm_known.specs.Verdicts.{Says};

use crate::order::next_bit;
use crate::values::known;
use crate::{Bit, Frame};
use sl_asm_bits::{Known, are_apart, implies};
use sl_asm_fit::Cell;
use sl_decode_plan::Value;
use sl_spec::Tables;

/// What can be said of a wanted value for all lists of a region.
#[derive(Clone, Copy, Debug, PartialEq, Eq)]
pub enum Verdict {
    /// No list gives the expression a value with the wanted bits.
    Never,
    /// Each list that gives the expression a value gives it one with the wanted bits.
    Always,
    /// It hangs on this bit, which the region leaves open.
    Open(Bit),
    /// It hangs on no bit of the region that is open.
    Unclear,
}

/// What can be said of the expression's value and the bits that are wanted of it; one evaluation.
pub fn judge(t: &Tables, frame: &Frame, region: &[Cell], v: &Value, wanted: &Known) -> Verdict
    ensures { Says t.now frame.now region.now v.now wanted.now result }
{
    let Some(known) = known(t, frame, region, v) else {
        return Verdict::Never;
    };
    if are_apart(&known, wanted) {
        return Verdict::Never;
    }
    if implies(&known, wanted) {
        return Verdict::Always;
    }
    match next_bit(t, frame, region, v) {
        Some(bit) => Verdict::Open(bit),
        None => Verdict::Unclear,
    }
}
