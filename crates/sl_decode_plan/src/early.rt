//! What is done at a node before its operands.

ghost use Rattle.std.specs.Prelude.{◌≡◌, List, IfOk};
ghost use Rattle.sl_ast.specs.Views.{action_of, actions_of, expression_of};
ghost use Rattle.sl_decode_meaning.specs.Actions.{Changed, act, add_note, set_context};
ghost use Rattle.sl_decode_meaning.specs.Kinds.{context_field, kind_of};
ghost use Rattle.sl_decode_meaning.specs.Outcomes.{in_turn};
ghost use Rattle.sl_decode_meaning.specs.Places.{Leaf as LeafAt};
ghost use Rattle.sl_decode_meaning.specs.Values.{Site};
ghost use Rattle.sl_decode_leaves.specs.Extents.{leaves_at};
ghost use Rattle.sl_decode_leaves.specs.Steps.{maybe};
ghost use Rattle.sl_decode_plan.specs.Steps.{early_step};

use crate::expressions::compile;
use crate::values::Value;
use sl_ast::expressions::Expr;
use sl_ast::patterns::Action;
use sl_decode_leaves::{JoinedLeaves, add_step, context_field, kind_of, mask_in};
use sl_spec::{Operand, Tables};
use std::alloc::{AllocError, Global};

/// An action on a field of the context, or what a `globalset` notes.
#[derive(Drop)]
pub enum Early {
    /// The bits of the mask get those of the value, which begin at this bit.
    Set(u8, u64, Value),
    /// The bits of the mask are noted, and whether they flow.
    Note(u64, bool),
}

/// An action on a name.
fn set_of(
    alloc: Global,
    t: &Tables,
    operands: &[Operand],
    leaves: &JoinedLeaves,
    name: &[u8],
    e: &Expr,
) -> Result<Option<Early>, AllocError>
    ensures { IfOk result (λ o. (s : Site) (c : Changed) → maybe (early_step t.now s) o c
        ≡ set_context t.now operands.now (leaves_at s.lengths leaves.now) s (expression_of e.now)
        (context_field t.now (kind_of t.now operands.now name.now)) c) }
{
    match context_field(t, kind_of(t, operands, name)?) {
        Some(of) => {
            let value = compile(alloc, t, operands, leaves, e)?;
            Ok(Some(Early::Set(of.low, mask_in(of), value)))
        }
        None => Ok(None),
    }
}

/// A note of a name.
fn note_of(t: &Tables, operands: &[Operand], name: &[u8]) -> Result<Option<Early>, AllocError>
    ensures { IfOk result (λ o. (ls : List LeafAt) (s : Site) (c : Changed)
        → maybe (early_step t.now s) o c ≡ add_note t.now operands.now ls s
        (context_field t.now (kind_of t.now operands.now name.now)) c) }
{
    match context_field(t, kind_of(t, operands, name)?) {
        Some(of) => Ok(Some(Early::Note(mask_in(of), !of.noflow))),
        None => Ok(None),
    }
}

/// What is done for an action before the operands.
fn early_of(
    alloc: Global,
    t: &Tables,
    operands: &[Operand],
    leaves: &JoinedLeaves,
    action: &Action,
) -> Result<Option<Early>, AllocError>
    ensures { IfOk result (λ o. (s : Site) (c : Changed) → maybe (early_step t.now s) o c
        ≡ act t.now operands.now (leaves_at s.lengths leaves.now) s (action_of action.now) c) }
{
    match action {
        Action::Assign(name, e) => {
            let step = set_of(alloc, t, operands, leaves, name, e)?;
            Ok(step)
        }
        Action::GlobalSet(_, name) => {
            let step = note_of(t, operands, name)?;
            Ok(step)
        }
    }
}

/// What the actions of a constructor do before the operands.
pub(crate) fn early_steps(
    alloc: Global,
    t: &Tables,
    operands: &[Operand],
    leaves: &JoinedLeaves,
    actions: &[Action],
) -> Result<Vec<Early>, AllocError>
    ensures { IfOk result (λ v. (s : Site) (c : Changed) → in_turn (early_step t.now s) v.items c
        ≡ in_turn (act t.now operands.now (leaves_at s.lengths leaves.now) s)
        (actions_of actions.now) c) }
{
    let mut all = Vec::new(alloc);
    'actions: for index in 0..actions.len() {
        let step = early_of(alloc, t, operands, leaves, &actions[index])?;
        add_step(step, &mut all)?;
    }
    Ok(all)
}
