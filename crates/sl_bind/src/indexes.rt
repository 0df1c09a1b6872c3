//! The first tokens of items.

ghost use Rattle.std.specs.Prelude.{◌≡◌, ◌++◌, IfOk, slice_get};
ghost use Rattle.sl_ast.specs.Views.{item_indexes};
ghost use Rattle.sl_bind.specs.Indexes.{indexes_in};
ghost use Rattle.sl_spec_rules.specs.Gathered.{gathered};

use sl_ast::constructors::Inner;
use sl_ast::items::{Item, ItemKind};
use sl_spec::Listed;
use std::alloc::{AllocError, Global};

/// Adds the first tokens of a constructor in a block, or of a block and what is inside it.
fn add_inner(inner: &Inner<'_>, all: &mut Listed<usize>) -> Result<(), AllocError>
    ensures { IfOk result (λ _. all.new ≡ all.old ++ indexes_in inner.now) }
{
    match inner {
        Inner::Constructor(first, _) => all.push(*first),
        Inner::With(first, _, inside) => {
            all.push(*first)?;
            let inside = inside.as_slice();
            'inside: for index in 0..inside.len() {
                add_inner(&inside[index], all)?;
            }
            Ok(())
        }
    }
}

/// Adds the first tokens of what stands in a block.
fn add_inside(inside: &[Inner<'_>], all: &mut Listed<usize>) -> Result<(), AllocError>
    ensures { IfOk result (λ _. all.new ≡ all.old ++ gathered indexes_in inside.now) }
{
    'inside: for index in 0..inside.len() {
        add_inner(&inside[index], all)?;
    }
    Ok(())
}

/// Adds the first tokens of an item and of what is inside it.
fn add_item(item: &Item<'_>, all: &mut Listed<usize>) -> Result<(), AllocError>
    ensures { IfOk result (λ _. all.new ≡ all.old ++ item_indexes item.now) }
{
    all.push(item.first)?;
    match &item.kind {
        ItemKind::With(_, inside) => add_inside(inside.as_slice(), all),
        ItemKind::Define(_) => Ok(()),
        ItemKind::AttachList(_, _, _) => Ok(()),
        ItemKind::AttachOne(_, _, _) => Ok(()),
        ItemKind::Macro(_) => Ok(()),
        ItemKind::Constructor(_) => Ok(()),
    }
}

/// The index of the first token of the item of this number, a block counting before the items
/// inside it.
pub fn first_token(
    alloc: Global,
    items: &[Item<'_>],
    number: u32,
) -> Result<Option<usize>, AllocError>
    ensures { IfOk result (λ token. token ≡ slice_get (gathered item_indexes items.now) number) }
{
    let mut all = Listed::new(alloc);
    'items: for index in 0..items.len() {
        add_item(&items[index], &mut all)?;
    }
    Ok(all.get(number as usize).copied())
}
