//! Constructors that have actions.

ghost use Rattle.std.specs.Prelude.{◌≡◌, IfOk, MatchOption, map, position};
ghost use Rattle.std.specs.List.{list_any};
ghost use Rattle.sl_asm_encodings.specs.Encodings.{HasNoActions, IsFirstWithAction};
ghost use Rattle.sl_asm_encodings.specs.Written.{has_some, is_with_action};
ghost use Rattle.sl_ast.specs.Unfolding.{unfolded};
ghost use Rattle.sl_ast.specs.Views.{item_of};
ghost use Rattle.sl_spec.specs.ConstructorItems.{constructors_in};

use sl_ast::items::Item;
use sl_ast::patterns::Action;
use sl_spec::{Around, CtorId, Unfolded, unfolded_constructors};
use std::alloc::{AllocError, Global};

/// Whether brackets with an action are written.
fn has_some(actions: &Option<Vec<Action<'_>>>) -> bool
    ensures { result ≡ has_some actions.now }
{
    match actions {
        Some(actions) => !actions.is_empty(),
        None => false,
    }
}

/// Whether one of the blocks gives an action to what is inside.
fn some_give(heads: &[Around<'_, '_>]) -> bool
    ensures { result ≡ list_any (λ a. has_some a.head.now.actions) heads.now }
{
    heads.iter().any(|around| has_some(&around.head.actions))
}

/// Whether the constructor has an action, of a block round it or of its own.
fn is_with_action(constructor: &Unfolded<'_, '_>) -> bool
    ensures { result ≡ is_with_action constructor.now }
{
    some_give(constructor.heads.as_slice()) || has_some(&constructor.own.actions)
}

/// The index of the first one that has.
fn index_of_first(constructors: &[Unfolded<'_, '_>]) -> Option<usize>
    ensures { result ≡ position is_with_action constructors.now }
{
    constructors
        .iter()
        .position(|constructor| is_with_action(constructor))
}

/// The first constructor of the items, in the order of the text, that has an action or a
/// `globalset`. The only error is want of memory.
pub fn first_with_action(alloc: Global, items: &[Item<'_>]) -> Result<Option<CtorId>, AllocError>
    ensures { IfOk result (λ found. MatchOption found
        (HasNoActions (constructors_in (unfolded (map item_of items.now))))
        (IsFirstWithAction (constructors_in (unfolded (map item_of items.now))))) }
{
    let constructors = unfolded_constructors(alloc, items)?;
    let Some(index) = index_of_first(constructors.as_slice()) else {
        return Ok(None);
    };
    match u32::try_from(index) {
        Ok(number) => Ok(Some(CtorId(number))),
        Err(_) => Err(AllocError),
    }
}
