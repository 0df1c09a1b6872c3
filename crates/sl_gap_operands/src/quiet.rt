//! Whether a constructor has an action on the context.

ghost use Rattle.std.specs.Prelude.{◌≡◌, IfOk};
ghost use Rattle.std.specs.List.{list_any};
ghost use Rattle.std.specs.Option.{is_some};
ghost use Rattle.sl_ast.specs.Unfolding.{written};
ghost use Rattle.sl_ast.specs.Views.{action_of, actions_of, constructor_of, head_of};
ghost use Rattle.sl_decode_meaning.specs.Kinds.{context_field, kind_of};
ghost use Rattle.sl_gap_operands.specs.Operands.{sets_context};
ghost use Rattle.sl_spec.specs.Unfolded.{placed};

use sl_ast::constructors::{Constructor, Head};
use sl_ast::patterns::Action;
use sl_decode_leaves::{context_field, kind_of};
use sl_spec::{Operand, Tables, Unfolded};
use std::alloc::AllocError;

/// Whether the name stands for a field of the context.
fn is_context(t: &Tables, operands: &[Operand], name: &[u8]) -> Result<bool, AllocError>
    ensures { IfOk result (λ is.
        is ≡ is_some (context_field t.now (kind_of t.now operands.now name.now))) }
{
    let kind = kind_of(t, operands, name)?;
    Ok(context_field(t, kind).is_some())
}

/// Whether the action sets a field of the context.
fn sets_context(t: &Tables, operands: &[Operand], action: &Action) -> Result<bool, AllocError>
    ensures { IfOk result (λ sets. sets
        ≡ sets_context t.now operands.now (action_of action.now)) }
{
    match action {
        Action::Assign(name, _) => is_context(t, operands, name),
        Action::GlobalSet(_, _) => Ok(false),
    }
}

/// Whether some of the actions sets a field of the context.
fn some_sets(t: &Tables, operands: &[Operand], actions: &[Action]) -> Result<bool, AllocError>
    ensures { IfOk result (λ sets. sets
        ≡ list_any (sets_context t.now operands.now) (actions_of actions.now)) }
{
    'actions: for index in 0..actions.len() {
        let sets = sets_context(t, operands, &actions[index])?;
        if sets {
            return Ok(true);
        }
    }
    Ok(false)
}

/// Whether some action of a block sets a field of the context.
fn head_sets(t: &Tables, operands: &[Operand], head: &Head) -> Result<bool, AllocError>
    ensures { IfOk result (λ sets. sets
        ≡ list_any (sets_context t.now operands.now) (written (head_of head.now).actions)) }
{
    match &head.actions {
        Some(actions) => some_sets(t, operands, actions.as_slice()),
        None => Ok(false),
    }
}

/// Whether some action of the constructor itself sets a field of the context.
fn own_sets(t: &Tables, operands: &[Operand], own: &Constructor) -> Result<bool, AllocError>
    ensures { IfOk result (λ sets. sets
        ≡ list_any (sets_context t.now operands.now) (written (constructor_of own.now).actions)) }
{
    match &own.actions {
        Some(actions) => some_sets(t, operands, actions.as_slice()),
        None => Ok(false),
    }
}

/// Whether some action of a constructor with these operands, those of the blocks round it among them,
/// sets a field of the context. The only error is want of memory.
pub fn sets_some(t: &Tables, operands: &[Operand], of: &Unfolded) -> Result<bool, AllocError>
    ensures { IfOk result (λ sets. sets
        ≡ list_any (sets_context t.now operands.now) (written (placed of.now).1.actions)) }
{
    let heads = of.heads.as_slice();
    'heads: for index in 0..heads.len() {
        let sets = head_sets(t, operands, heads[index].head)?;
        if sets {
            return Ok(true);
        }
    }
    own_sets(t, operands, of.own)
}
