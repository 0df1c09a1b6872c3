//! What is done at the nodes of constructors.

ghost use Rattle.std.specs.Prelude.{◌≡◌, ◌++◌, ◌∷◌, [], ℕ, List, map, IfOk, OnOk};
ghost use Rattle.sl_ast.specs.Unfolding.{written};
ghost use Rattle.sl_decode_meaning.specs.Meanings.{said, says, table_in};
ghost use Rattle.sl_decode_meaning.specs.Places.{bare_place, or_start, table_operands};
ghost use Rattle.sl_decode_leaves.specs.Blocks.{AreLeavesOfHead};
ghost use Rattle.sl_decode_leaves.specs.Extents.{extent, leaves_at};
ghost use Rattle.sl_decode_plan.specs.Plans.{DoesAll, done, done_by, done_slot, slot_by};
ghost use Rattle.sl_decode_plan.specs.Open.{AreRightFor, StayRight};
ghost use Rattle.sl_spec.specs.Numbers.{AreMadeFor, AreNumbered, KeepsMade};
ghost use Rattle.sl_spec.specs.Unfolded.{all_placed, placed};

use crate::action_steps::{ActionSteps, steps_among, steps_anew};
use crate::early::Early;
use crate::late::Late;
use crate::open_blocks::OpenBlocks;
use crate::rows::Steps;
use sl_decode_leaves::{
    BlockLeaves, Extent, JoinedLeaves, Look, Whole, bare, means_table, whole_among, whole_anew,
};
use sl_spec::{ByBlock, Ctor, Means, Operand, TableId, Tables, Unfolded};
use std::alloc::{AllocError, Global};

/// A table operand, and its place in bytes from the node's own.
#[derive(Drop)]
pub struct Slot {
    pub table: TableId,
    pub place: Extent,
}

/// What is done at the nodes of a constructor: the actions on its context and the notes of
/// `globalset` before the operands, the operands in pattern order, its length, and when the whole
/// tree stands the look-ups of bare fields and then the other actions.
#[derive(Drop)]
pub struct Plan {
    pub early: Steps<Early>,
    pub slots: Vec<Slot>,
    pub length: Extent,
    pub looks: Vec<Look>,
    pub late: Steps<Late>,
}

/// The table of a table operand.
fn table_in(operand: &Operand) -> TableId
    ensures { result ≡ table_in operand.now.means }
{
    match operand.means {
        Means::Table(table) => table,
        Means::Field(_) => TableId(0),
        Means::Action(_) => TableId(0),
    }
}

/// The place of a table operand.
fn place_in(leaves: &JoinedLeaves, operand: &Operand) -> Result<Extent, AllocError>
    ensures { IfOk result (λ r. (lengths : List ℕ) → extent r lengths
        ≡ or_start (bare_place operand.now.name (leaves_at lengths leaves.now))) }
{
    let place = bare(leaves, operand.name)?;
    Ok(place)
}

fn slot_of(leaves: &JoinedLeaves, operand: &Operand) -> Result<Slot, AllocError>
    ensures { IfOk result (λ r. done_slot r
        ≡ slot_by (λ lengths. leaves_at lengths leaves.now) operand.now) }
{
    let place = place_in(leaves, operand)?;
    Ok(Slot {
        table: table_in(operand),
        place,
    })
}

/// Adds an operand, if it is a table.
fn add_slot(leaves: &JoinedLeaves, operand: &Operand, all: &mut Vec<Slot>) -> Result<(), AllocError>
    ensures { OnOk result (map done_slot all.new.items ≡ map done_slot all.old.items
        ++ map (slot_by (λ lengths. leaves_at lengths leaves.now))
        (table_operands (operand.now ∷ []))) }
{
    if means_table(operand.means) {
        let slot = slot_of(leaves, operand)?;
        all.push(slot)?;
    }
    Ok(())
}

/// The operands that are tables.
fn slots_of(
    alloc: Global,
    operands: &[Operand],
    leaves: &JoinedLeaves,
) -> Result<Vec<Slot>, AllocError>
    ensures { IfOk result (λ v. map done_slot v.items
        ≡ map (slot_by (λ lengths. leaves_at lengths leaves.now))
        (table_operands operands.now)) }
{
    let mut all = Vec::new(alloc);
    'operands: for index in 0..operands.len() {
        add_slot(leaves, &operands[index], &mut all)?;
    }
    Ok(all)
}

/// The plan of a constructor with these operands, by what is made of its pattern and its actions.
fn plan_of(
    alloc: Global,
    operands: &[Operand],
    whole: Whole,
    steps: ActionSteps,
) -> Result<Plan, AllocError>
    ensures { IfOk result (DoesAll operands.now whole.entry steps) }
{
    let slots = slots_of(alloc, operands, &whole.leaves)?;
    Ok(Plan {
        early: steps.early,
        slots,
        length: whole.length,
        looks: whole.looks,
        late: steps.late,
    })
}

/// The plan of a constructor with these operands.
fn plan_with(
    alloc: Global,
    t: &Tables,
    operands: &[Operand],
    of: &Unfolded,
) -> Result<Plan, AllocError>
    ensures { IfOk result (λ r. done t.now r ≡ said t.now operands.now
        (placed of.now).1.pattern (written (placed of.now).1.actions)) }
{
    let whole = whole_anew(alloc, t, operands, of)?;
    let steps = steps_anew(alloc, t, operands, &whole.leaves, of)?;
    let plan = plan_of(alloc, operands, whole, steps)?;
    Ok(plan)
}

/// What is done at the nodes of a constructor, as its pattern and its actions say, those of the
/// blocks round it before its own. The only error is want of memory.
pub fn make_plan(alloc: Global, t: &Tables, ctor: &Ctor, of: &Unfolded) -> Result<Plan, AllocError>
    ensures { IfOk result (λ r. done t.now r ≡ said t.now ctor.now.operands
        (placed of.now).1.pattern (written (placed of.now).1.actions)) }
{
    let plan = plan_with(alloc, t, ctor.operands.as_slice(), of)?;
    Ok(plan)
}

/// The plan of a constructor with these operands, where what was made of blocks is taken.
fn plan_among<'s, 'a>(
    alloc: Global,
    t: &Tables,
    operands: &[Operand],
    of: &Unfolded<'s, 'a>,
    made: &mut ByBlock<BlockLeaves<'a>>,
    around: &mut OpenBlocks<'a>,
) -> Result<Plan, AllocError>
    requires leaves { AreMadeFor (AreLeavesOfHead t.now) of.now.heads.items made.old }
    requires around { AreRightFor t.now of.now.heads.items around.old }
    ensures plan { IfOk result (λ r. done t.now r ≡ said t.now operands.now
        (placed of.now).1.pattern (written (placed of.now).1.actions)) }
    ensures leaves { IfOk result (λ _.
        KeepsMade (AreLeavesOfHead t.now) of.now.heads.items made.old made.new) }
    ensures around { IfOk result (λ _.
        StayRight t.now of.now.heads.items around.old around.new) }
{
    let whole = whole_among(alloc, t, operands, of, made)?;
    let actions = steps_among(alloc, t, operands, &whole.leaves, of, around)?;
    let plan = plan_of(alloc, operands, whole, actions)?;
    Ok(plan)
}

/// The plans of all constructors of a text. What was made of a block's pattern and of its actions is
/// taken where it is right. The only error is want of memory.
pub fn make_plans(
    alloc: Global,
    t: &Tables,
    constructors: &[Unfolded],
) -> Result<Vec<Plan>, AllocError>
    requires { AreNumbered constructors.now }
    ensures { IfOk result (λ v. (number : ℕ) → done_by t.now v.items number
        ≡ says t.now (all_placed constructors.now) number) }
{
    let mut made = ByBlock::new(alloc);
    let mut around = OpenBlocks::new(alloc);
    let mut all = Vec::new(alloc);
    'constructors: for index in 0..constructors.len() {
        let Some(ctor) = t.constructors.get(index) else {
            return Ok(all);
        };
        let operands = ctor.operands.as_slice();
        let plan = plan_among(
            alloc,
            t,
            operands,
            &constructors[index],
            &mut made,
            &mut around,
        )?;
        all.push(plan)?;
    }
    Ok(all)
}
