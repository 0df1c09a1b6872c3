//! Steps of actions that constructors share.

ghost use Rattle.std.specs.Prelude.{◌≡◌, IfOk};
ghost use Rattle.sl_ast.specs.Unfolding.{written};
ghost use Rattle.sl_ast.specs.Views.{actions_of, head_of};
ghost use Rattle.sl_decode_plan.specs.Rights.{AreSteps, IsCopy};

use crate::early::{Early, early_steps};
use crate::late::{Late, late_steps};
use sl_ast::constructors::Head;
use sl_ast::patterns::Action;
use sl_decode_leaves::JoinedLeaves;
use sl_spec::{Operand, Tables};
use std::alloc::{AllocError, Global};
use std::rc::Rc;

/// The steps of actions, which constructors can share.
#[derive(Drop)]
pub struct SharedSteps {
    pub(crate) early: Rc<Vec<Early>>,
    pub(crate) late: Rc<Vec<Late>>,
}

/// The actions of a block.
pub(crate) fn actions_in<'s, 'a>(head: &'s Head<'a>) -> &'s [Action<'a>]
    ensures { actions_of result.now ≡ written (head_of head.now).actions }
{
    match &head.actions {
        Some(actions) => actions.as_slice(),
        None => &[],
    }
}

/// The steps of actions, made anew.
pub(crate) fn fresh(
    alloc: Global,
    t: &Tables,
    operands: &[Operand],
    leaves: &JoinedLeaves,
    actions: &[Action],
) -> Result<SharedSteps, AllocError>
    ensures { IfOk result (AreSteps t.now operands.now leaves.now (actions_of actions.now)) }
{
    let early = early_steps(alloc, t, operands, leaves, actions)?;
    let late = late_steps(alloc, t, operands, leaves, actions)?;
    let early = Rc::new(alloc, early)?;
    Ok(SharedSteps {
        early,
        late: Rc::new(alloc, late)?,
    })
}

/// The same steps.
pub(crate) fn copy(steps: &SharedSteps) -> Result<SharedSteps, AllocError>
    ensures { IfOk result (λ x. IsCopy x steps.now) }
{
    let early = steps.early.clone()?;
    Ok(SharedSteps {
        early,
        late: steps.late.clone()?,
    })
}
