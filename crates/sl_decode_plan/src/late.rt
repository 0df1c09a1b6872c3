//! What is done at a node when the whole tree stands.

ghost use Rattle.std.specs.Prelude.{◌≡◌, ◌+◌, IfOk};
ghost use Rattle.sl_ast.specs.Views.{action_of, actions_of, expression_of, operand_of_address};
ghost use Rattle.sl_decode_meaning.specs.Actions.{Own, make_commit, set_name, tell};
ghost use Rattle.sl_decode_meaning.specs.Kinds.{context_field, kind_of};
ghost use Rattle.sl_decode_meaning.specs.Lookups.{shown};
ghost use Rattle.sl_decode_meaning.specs.Outcomes.{in_turn};
ghost use Rattle.sl_decode_meaning.specs.Values.{Site};
ghost use Rattle.sl_decode_leaves.specs.Extents.{extent, leaves_at};
ghost use Rattle.sl_decode_leaves.specs.Steps.{maybe};
ghost use Rattle.sl_decode_plan.specs.Steps.{late_step};
ghost use Rattle.sl_decode_plan.specs.Values.{site_of};

use crate::expressions::{address, compile};
use crate::values::{Scope, Value};
use sl_ast::expressions::Expr;
use sl_ast::patterns::{Action, Address};
use sl_decode_leaves::{JoinedLeaves, Look, add_step, context_field, extent_of, kind_of, shown};
use sl_decode_meaning::Fault;
use sl_spec::{Operand, Tables};
use std::alloc::{AllocError, Global};

/// What an action does when the whole tree stands.
#[derive(Drop)]
pub enum Late {
    /// The next action name gets its value.
    Name(Value),
    /// What was noted first of what is left is committed to the address.
    Commit(Value),
}

/// Looks a field up at a node.
pub fn look_up(t: &Tables, scope: &Scope, look: &Look) -> Result<(), Fault>
    ensures { let s = site_of scope.now in result ≡ shown t.now look.now.field s.bytes
        (s.at + extent look.now.place s.lengths) s.context }
{
    let at = u64::from(scope.at).saturating_add(extent_of(&look.place, scope.lengths));
    shown(t, look.field, scope.bytes, at, scope.context)
}

/// The value of a name that is no field of the context.
fn name_of(
    alloc: Global,
    t: &Tables,
    operands: &[Operand],
    leaves: &JoinedLeaves,
    name: &[u8],
    e: &Expr,
) -> Result<Option<Late>, AllocError>
    ensures { IfOk result (λ o. (s : Site) (c : Own) → maybe (late_step t.now s) o c
        ≡ set_name t.now operands.now (leaves_at s.lengths leaves.now) s (expression_of e.now)
        (context_field t.now (kind_of t.now operands.now name.now)) c) }
{
    match context_field(t, kind_of(t, operands, name)?) {
        Some(_) => Ok(None),
        None => {
            let value = compile(alloc, t, operands, leaves, e)?;
            Ok(Some(Late::Name(value)))
        }
    }
}

/// The commit of a field of the context.
fn commit_of(
    t: &Tables,
    operands: &[Operand],
    leaves: &JoinedLeaves,
    name: &[u8],
    to: &Address,
) -> Result<Option<Late>, AllocError>
    ensures { IfOk result (λ o. (s : Site) (c : Own) → maybe (late_step t.now s) o c
        ≡ make_commit t.now operands.now (leaves_at s.lengths leaves.now) s
        (operand_of_address to.now)
        (context_field t.now (kind_of t.now operands.now name.now)) c) }
{
    match context_field(t, kind_of(t, operands, name)?) {
        Some(_) => {
            let value = address(t, operands, leaves, to)?;
            Ok(Some(Late::Commit(value)))
        }
        None => Ok(None),
    }
}

/// What is done for an action when the whole tree stands.
fn late_of(
    alloc: Global,
    t: &Tables,
    operands: &[Operand],
    leaves: &JoinedLeaves,
    action: &Action,
) -> Result<Option<Late>, AllocError>
    ensures { IfOk result (λ o. (s : Site) (c : Own) → maybe (late_step t.now s) o c
        ≡ tell t.now operands.now (leaves_at s.lengths leaves.now) s (action_of action.now) c) }
{
    match action {
        Action::Assign(name, e) => {
            let step = name_of(alloc, t, operands, leaves, name, e)?;
            Ok(step)
        }
        Action::GlobalSet(to, name) => {
            let step = commit_of(t, operands, leaves, name, to)?;
            Ok(step)
        }
    }
}

/// What the actions of a constructor do when the whole tree stands.
pub(crate) fn late_steps(
    alloc: Global,
    t: &Tables,
    operands: &[Operand],
    leaves: &JoinedLeaves,
    actions: &[Action],
) -> Result<Vec<Late>, AllocError>
    ensures { IfOk result (λ v. (s : Site) (c : Own) → in_turn (late_step t.now s) v.items c
        ≡ in_turn (tell t.now operands.now (leaves_at s.lengths leaves.now) s)
        (actions_of actions.now) c) }
{
    let mut all = Vec::new(alloc);
    'actions: for index in 0..actions.len() {
        let step = late_of(alloc, t, operands, leaves, &actions[index])?;
        add_step(step, &mut all)?;
    }
    Ok(all)
}
