//! The first moments of a decode: a tree grows depth first, parents first.

ghost use Rattle.std.specs.Prelude.{◌≡◌, ◌+◌, ◌≤◌, ◌↔◌, [], map, length, IsTrue, OnOk};
ghost use Rattle.sl_decode.specs.Inputs.{input_of};
ghost use Rattle.sl_decode.specs.Outcomes.{Gives};
ghost use Rattle.sl_decode.specs.Sprouts.{flat, laid, laid_grove, measured, row_of};
ghost use Rattle.sl_decode_meaning.specs.Decoding as spec;
ghost use Rattle.sl_decode_meaning.specs.Decoding.{operands};
ghost use Rattle.sl_decode_leaves.specs.Extents.{extent};
ghost use Rattle.sl_decode_plan.specs.Plans.{done_slot};

use crate::decode::{Choose, Decode, length_of, place_behind};
use crate::outcomes::DecodeError;
use crate::walk::{Growth, Sprout};
use sl_decode_meaning::Fault;
use sl_decode_plan::{Plan, Slot};
use sl_spec::TableId;

/// The most table operands of a constructor. More would be want of memory.
const MOST_OPERANDS: usize = 32;

/// Whether a constructor has no more than 32 table operands.
fn are_few(slots: &[Slot]) -> bool
    ensures { IsTrue result ↔ (length slots.now ≤ 32) }
{
    slots.len() <= MOST_OPERANDS
}

/// The length of a node, and the context that it leaves.
#[derive(Clone, Copy)]
pub struct Grown {
    pub length: u32,
    pub after: u64,
}

impl<C: Choose> Decode<'_, '_, C> {
    /// Adds the nodes of a table at a place, from a context, and their notes, where tables nest at
    /// most `left` deep.
    #[cycle(tree)]
    pub fn grow(
        &self,
        left: usize,
        table: TableId,
        at: u32,
        context: u64,
        growth: &mut Growth,
    ) -> Result<Grown, DecodeError>
        ensures gives { Gives (λ r. flat r.length (row_of growth.new) r.after) result
            (laid (row_of growth.old)
            (spec.grow (input_of C.chosen self.now) left table at context)) }
        ensures longer { OnOk result
            (length growth.old.sprouts.items ≤ length growth.new.sprouts.items) }
    {
        if left == 0 {
            return Err(DecodeError::Fault(Fault::NoConstructor { table, at }));
        }
        let ctor = match self.chosen(table, at, context) {
            Ok(ctor) => ctor,
            Err(error) => return Err(error),
        };
        let plan = match self.plan_of(ctor, table, at) {
            Ok(plan) => plan,
            Err(error) => return Err(error),
        };
        let index = growth.sprouts.len();
        let first = growth.notes.len();
        let own = match self.change_by(ctor, at, plan, context, &mut growth.notes) {
            Ok(own) => own,
            Err(error) => return Err(error),
        };
        let noted = growth.notes.len().saturating_sub(first);
        growth.sprouts.push(Sprout {
            ctor,
            at,
            length: 0,
            context: own,
            noted,
            below: 0,
        })?;
        let grown = match self.operands(left - 1, plan, at, own, growth) {
            Ok(grown) => grown,
            Err(error) => return Err(error),
        };
        growth.sprouts[index] = Sprout {
            ctor,
            at,
            length: grown.length,
            context: own,
            noted,
            below: growth.sprouts.len() - index - 1,
        };
        Ok(grown)
    }

    /// Adds the nodes of the operands of a plan, in pattern order, and their notes. The length is
    /// that of the plan's own node.
    #[cycle(tree)]
    fn operands(
        &self,
        left: usize,
        plan: &Plan,
        at: u32,
        context: u64,
        growth: &mut Growth,
    ) -> Result<Grown, DecodeError>
        ensures gives { Gives (λ r. flat r.length (row_of growth.new) r.after) result
            (measured (λ lengths. extent plan.now.length lengths)
            (laid_grove (row_of growth.old)
            (operands (spec.grow (input_of C.chosen self.now) left)
            (map done_slot plan.now.slots.items) at [] context))) }
        ensures longer { OnOk result
            (length growth.old.sprouts.items ≤ length growth.new.sprouts.items) }
    {
        let slots = plan.slots.as_slice();
        if slots.is_empty() {
            let length = length_of(&plan.length, &[])?;
            let after = context;
            return Ok(Grown { length, after });
        }
        if !are_few(slots) {
            return Err(DecodeError::NoMemory);
        }
        let mut lengths = [0; 32];
        let mut after = context;
        'slots: for k in 0..slots.len() {
            let slot = &slots[k];
            let place = place_behind(at, &slot.place, &lengths[..k])?;
            let grown = self.grow(left, slot.table, place, after, growth)?;
            lengths[k] = grown.length;
            after = grown.after;
        }
        let length = length_of(&plan.length, &lengths[..slots.len()])?;
        Ok(Grown { length, after })
    }
}
