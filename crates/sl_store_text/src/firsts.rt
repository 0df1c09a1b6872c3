//! The first tokens of items.

ghost use Rattle.std.specs.Prelude.{◌≡◌, ◌++◌, IfOk};
ghost use Rattle.sl_ast.specs.Views.{indexes_of, inner_indexes, item_indexes};
ghost use Rattle.sl_store_text.specs.Firsts.{indexes_in};

use sl_ast::constructors::Inner;
use sl_ast::items::{Item, ItemKind, Spec};
use std::alloc::{AllocError, Global};

/// Adds the first tokens of a constructor in a block, or of a block and what is inside it.
fn add_inner(firsts: &mut Vec<usize>, inner: &Inner<'_>) -> Result<(), AllocError>
    ensures { IfOk result (λ _. firsts.new.items ≡ firsts.old.items ++ indexes_in inner.now) }
{
    match inner {
        Inner::Constructor(first, _) => firsts.push(*first)?,
        Inner::With(first, _, inside) => {
            firsts.push(*first)?;
            let inside = inside.as_slice();
            'inside: for index in 0..inside.len() {
                add_inner(firsts, &inside[index])?;
            }
        }
    }
    Ok(())
}

/// Adds the first tokens of what is inside a block.
fn add_inside(firsts: &mut Vec<usize>, inside: &[Inner<'_>]) -> Result<(), AllocError>
    ensures { IfOk result (λ _. firsts.new.items ≡ firsts.old.items ++ inner_indexes inside.now) }
{
    'inside: for index in 0..inside.len() {
        add_inner(firsts, &inside[index])?;
    }
    Ok(())
}

/// Adds the first tokens of an item and of what is inside it.
fn add_item(firsts: &mut Vec<usize>, item: &Item<'_>) -> Result<(), AllocError>
    ensures { IfOk result (λ _. firsts.new.items ≡ firsts.old.items ++ item_indexes item.now) }
{
    firsts.push(item.first)?;
    match &item.kind {
        ItemKind::With(_, inside) => add_inside(firsts, inside.as_slice()),
        ItemKind::Define(_) => Ok(()),
        ItemKind::AttachList(_, _, _) => Ok(()),
        ItemKind::AttachOne(_, _, _) => Ok(()),
        ItemKind::Macro(_) => Ok(()),
        ItemKind::Constructor(_) => Ok(()),
    }
}

/// The indexes of the first tokens of all items in the text's order, a block before the items
/// inside it.
pub fn first_tokens(alloc: Global, spec: &Spec<'_>) -> Result<Vec<usize>, AllocError>
    ensures { IfOk result (λ firsts. firsts.items ≡ indexes_of spec.now) }
{
    let mut firsts = Vec::new(alloc);
    let items = spec.items.as_slice();
    'items: for index in 0..items.len() {
        add_item(&mut firsts, &items[index])?;
    }
    Ok(firsts)
}
