//! The steps of all actions of a constructor.

ghost use Rattle.std.specs.Prelude.{◌≡◌, ◌++◌, [], IfOk, IfSome, OnOk, option_copied};
ghost use Rattle.std.specs.Prelude.{slice_get};
ghost use Rattle.sl_ast.specs.Unfolding.{written};
ghost use Rattle.sl_ast.specs.Views.{constructor_of, head_of};
ghost use Rattle.sl_decode_plan.specs.Open.{AreRightFor, AreStepsOf, StayRight};
ghost use Rattle.sl_decode_plan.specs.Rights.{AddsSteps, AreAllSteps, AreSteps};
ghost use Rattle.sl_spec.specs.Unfolded.{placed};

use crate::early::Early;
use crate::late::Late;
use crate::open_blocks::{OpenBlock, OpenBlocks};
use crate::rows::Steps;
use crate::shared::{SharedSteps, actions_in, copy, fresh};
use sl_ast::constructors::Constructor;
use sl_decode_leaves::{JoinedLeaves, are_plain};
use sl_spec::{Around, Operand, Tables, Unfolded};
use std::alloc::{AllocError, Global};

/// The steps of all actions of a constructor.
#[derive(Drop)]
pub struct ActionSteps {
    pub(crate) early: Steps<Early>,
    pub(crate) late: Steps<Late>,
}

impl ActionSteps {
    /// Those of no actions.
    fn new(alloc: Global) -> Self
        ensures early { result.early ≡ [] }
        ensures late { result.late ≡ [] }
    {
        ActionSteps {
            early: Steps::new(alloc),
            late: Steps::new(alloc),
        }
    }

    /// Adds those of more actions.
    fn add(&mut self, steps: SharedSteps) -> Result<(), AllocError>
        ensures early { OnOk result (self.new.early ≡ self.old.early ++ steps.early.value.items) }
        ensures late { OnOk result (self.new.late ≡ self.old.late ++ steps.late.value.items) }
    {
        self.early.add(steps.early)?;
        self.late.add(steps.late)?;
        Ok(())
    }
}

/// The steps of a block's actions: those that were made, if they were.
fn steps_in(
    alloc: Global,
    t: &Tables,
    operands: &[Operand],
    leaves: &JoinedLeaves,
    around: Around,
    made: Option<&OpenBlock>,
) -> Result<SharedSteps, AllocError>
    requires { IfSome (option_copied made) (λ x. AreSteps t.now operands.now leaves.now
        (written (head_of around.head.now).actions) x.steps) }
    ensures { IfOk result (AreSteps t.now operands.now leaves.now
        (written (head_of around.entry.head.now).actions)) }
{
    match made {
        Some(block) => {
            let steps = copy(&block.steps)?;
            Ok(steps)
        }
        None => fresh(alloc, t, operands, leaves, actions_in(around.head)),
    }
}

/// The block at an index.
fn block_at<'m, 'a>(made: &'m [OpenBlock<'a>], index: usize) -> Option<&'m OpenBlock<'a>>
    ensures { option_copied result ≡ slice_get made.now index }
{
    made.get(index)
}

/// Adds the steps of a block's actions, if it has any.
fn add_block(
    alloc: Global,
    t: &Tables,
    operands: &[Operand],
    leaves: &JoinedLeaves,
    around: Around,
    made: Option<&OpenBlock>,
    all: &mut ActionSteps,
) -> Result<(), AllocError>
    requires { IfSome (option_copied made) (λ x. AreSteps t.now operands.now leaves.now
        (written (head_of around.head.now).actions) x.steps) }
    ensures { OnOk result (AddsSteps t.now operands.now leaves.now
        (written (head_of around.entry.head.now).actions) all.old all.new) }
{
    if actions_in(around.head).is_empty() {
        return Ok(());
    }
    let steps = steps_in(alloc, t, operands, leaves, around, made)?;
    all.add(steps)?;
    Ok(())
}

/// Adds the steps of a constructor's own actions, if it has any.
fn add_own(
    alloc: Global,
    t: &Tables,
    operands: &[Operand],
    leaves: &JoinedLeaves,
    own: &Constructor,
    all: &mut ActionSteps,
) -> Result<(), AllocError>
    ensures { OnOk result (AddsSteps t.now operands.now leaves.now
        (written (constructor_of own.now).actions) all.old all.new) }
{
    let Some(actions) = &own.actions else {
        return Ok(());
    };
    let steps = fresh(alloc, t, operands, leaves, actions.as_slice())?;
    all.add(steps)?;
    Ok(())
}

/// The steps of the actions of a constructor with these operands and this pattern, those of the
/// blocks round it before its own. `made` are the outermost blocks, with their steps.
fn steps_of(
    alloc: Global,
    t: &Tables,
    operands: &[Operand],
    leaves: &JoinedLeaves,
    of: &Unfolded,
    made: &[OpenBlock],
) -> Result<ActionSteps, AllocError>
    requires { AreStepsOf t.now operands.now leaves.now made.now of.now.heads.items }
    ensures { IfOk result (AreAllSteps t.now operands.now leaves.now
        (written (placed of.now).1.actions)) }
{
    let heads = of.heads.as_slice();
    let mut all = ActionSteps::new(alloc);
    'heads: for index in 0..heads.len() {
        add_block(
            alloc,
            t,
            operands,
            leaves,
            heads[index],
            block_at(made, index),
            &mut all,
        )?;
    }
    add_own(alloc, t, operands, leaves, of.own, &mut all)?;
    Ok(all)
}

/// The same, all of it made anew.
pub(crate) fn steps_anew(
    alloc: Global,
    t: &Tables,
    operands: &[Operand],
    leaves: &JoinedLeaves,
    of: &Unfolded,
) -> Result<ActionSteps, AllocError>
    ensures { IfOk result (AreAllSteps t.now operands.now leaves.now
        (written (placed of.now).1.actions)) }
{
    steps_of(alloc, t, operands, leaves, of, &[])
}

/// Whether a block has actions.
fn have_actions(heads: &[Around]) -> bool {
    heads
        .iter()
        .any(|around| !actions_in(around.head).is_empty())
}

/// The same, where the steps of blocks are taken as far as they are right for this constructor.
pub(crate) fn steps_among<'a>(
    alloc: Global,
    t: &Tables,
    operands: &[Operand],
    leaves: &JoinedLeaves<'a>,
    of: &Unfolded<'_, 'a>,
    around: &mut OpenBlocks<'a>,
) -> Result<ActionSteps, AllocError>
    requires { AreRightFor t.now of.now.heads.items around.old }
    ensures steps { IfOk result (AreAllSteps t.now operands.now leaves.now
        (written (placed of.now).1.actions)) }
    ensures kept { IfOk result (λ _.
        StayRight t.now of.now.heads.items around.old around.new) }
{
    let heads = of.heads.as_slice();
    let patterns = leaves.patterns();
    // (each block has a pattern, though no clause says so)
    if heads.len() > patterns.len() || !have_actions(heads) || !are_plain(t, operands) {
        let steps = steps_anew(alloc, t, operands, leaves, of)?;
        return Ok(steps);
    }
    around.enter(alloc, t, operands, leaves, patterns, heads)?;
    let steps = steps_of(alloc, t, operands, leaves, of, around.open_blocks())?;
    Ok(steps)
}
