//! The first table operand of a constructor.

ghost use Rattle.std.specs.Prelude.{◌∷◌, []};
ghost use Rattle.sl_gap_operands.specs.Firsts.{TellsFirst};

use sl_decode_leaves::extent_of;
use sl_decode_plan::{Plan, Slot};
use sl_spec::TableId;

/// The most bytes before an operand that is looked at.
const FARTHEST: u64 = 15;

/// A table operand.
#[derive(Clone, Copy, Debug)]
pub struct FirstOperand {
    pub table: TableId,
    /// In bytes from the constructor's own place.
    pub place: u64,
}

/// The operand of a slot before which no operand stands, where it is near enough.
fn near_operand(slot: &Slot) -> Option<FirstOperand>
    ensures { TellsFirst (slot.now ∷ []) result }
{
    let place = extent_of(&slot.place, &[]);
    if place > FARTHEST {
        return None;
    }
    Some(FirstOperand {
        table: slot.table,
        place,
    })
}

/// The first table operand, where there is one at a place of at most 15 bytes.
pub fn first_operand(plan: &Plan) -> Option<FirstOperand>
    ensures { TellsFirst plan.now.slots.items result }
{
    if plan.slots.is_empty() {
        return None;
    }
    near_operand(&plan.slots[0])
}
