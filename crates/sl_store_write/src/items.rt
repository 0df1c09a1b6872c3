//! The bytes of items with their places.

ghost use Rattle.std.specs.Prelude.{◌≡◌, ◌++◌, IfOk, length, map};
ghost use Rattle.sl_ast.specs.Trees.{Inside};
ghost use Rattle.sl_ast.specs.Views.{head_of, inside_of, item_of, kind_of};
ghost use Rattle.sl_store_write.specs.Placing.{after_inside, after_item, block_bytes, inside_bytes};
ghost use Rattle.sl_store_write.specs.Placing.{placed_inside, placed_item, placed_items};
ghost use Rattle.sl_store_write.specs.Steps.{PutsPart, chain_of};
ghost use Rattle.sl_store_format.specs.Items.{write_item, write_placed};
ghost use Rattle.sl_store_format.specs.Packed.{chain_length};
ghost use Rattle.sl_store_bytes.specs.Lists.{write_list};

use crate::places::{Places, put_place};
use crate::put::{Put, put_code};
use sl_ast::constructors::{Head, Inner};
use sl_ast::items::{Item, ItemKind};
use sl_store_bytes::put_number;
use sl_store_format::forms::ItemForm;
use std::alloc::AllocError;

/// Writes a constructor in a block, or a block with what is inside it.
fn put_inner(
    out: &mut Vec<u8>,
    inner: &Inner<'_>,
    places: &mut Places<'_>,
) -> Result<(), AllocError>
    ensures { IfOk result (λ _. (rest : Inside) →
        PutsPart (chain_of inner.now) rest out.old.items places.old out.new.items places.new) }
{
    put_place(out, places)?;
    match inner {
        Inner::Constructor(_, constructor) => {
            put_code(out, ItemForm::Constructor)?;
            constructor.put(out)?;
        }
        Inner::With(_, head, inside) => {
            put_code(out, ItemForm::With)?;
            head.put(out)?;
            let inside = inside.as_slice();
            put_number(out, inside.len() as u64)?;
            'rounds: for index in 0..inside.len() {
                put_inner(out, &inside[index], places)?;
            }
        }
    }
    Ok(())
}

/// Writes what is inside a block, without its number.
fn put_inside(
    out: &mut Vec<u8>,
    inside: &[Inner<'_>],
    places: &mut Places<'_>,
) -> Result<(), AllocError>
    ensures bytes { IfOk result (λ _. out.new.items ≡ out.old.items ++ inside_bytes (inside_of inside.now) places.old) }
    ensures left { IfOk result (λ _. places.new ≡ after_inside (inside_of inside.now) places.old) }
    ensures many { IfOk result (λ _. chain_length (inside_of inside.now) ≡ length inside.now) }
{
    'rounds: for index in 0..inside.len() {
        put_inner(out, &inside[index], places)?;
    }
    Ok(())
}

/// Writes an item but a block, without its place.
fn put_kind(out: &mut Vec<u8>, kind: &ItemKind<'_>) -> Result<(), AllocError>
    ensures { IfOk result (λ _. out.new.items ≡ out.old.items ++ write_item (kind_of kind.now)) }
{
    match kind {
        ItemKind::Define(definition) => {
            put_code(out, ItemForm::Define)?;
            definition.put(out)?;
        }
        ItemKind::AttachList(kind, names, members) => {
            put_code(out, ItemForm::AttachList)?;
            put_code(out, *kind)?;
            names.put(out)?;
            members.put(out)?;
        }
        ItemKind::AttachOne(kind, names, member) => {
            put_code(out, ItemForm::AttachOne)?;
            put_code(out, *kind)?;
            names.put(out)?;
            member.put(out)?;
        }
        ItemKind::Macro(defined) => {
            put_code(out, ItemForm::Macro)?;
            defined.put(out)?;
        }
        ItemKind::Constructor(constructor) => {
            put_code(out, ItemForm::Constructor)?;
            constructor.put(out)?;
        }
        ItemKind::With(_, _) => {}
    }
    Ok(())
}

/// Writes a block with the places inside it, without its own.
fn put_block(
    out: &mut Vec<u8>,
    head: &Head<'_>,
    inside: &[Inner<'_>],
    places: &mut Places<'_>,
) -> Result<(), AllocError>
    ensures bytes { IfOk result (λ _. out.new.items
        ≡ out.old.items ++ block_bytes (head_of head.now) (placed_inside (inside_of inside.now) places.old)) }
    ensures left { IfOk result (λ _. places.new ≡ after_inside (inside_of inside.now) places.old) }
{
    put_code(out, ItemForm::With)?;
    head.put(out)?;
    put_number(out, inside.len() as u64)?;
    put_inside(out, inside, places)?;
    Ok(())
}

/// Writes an item with its place and the places inside it.
fn put_item(out: &mut Vec<u8>, item: &Item<'_>, places: &mut Places<'_>) -> Result<(), AllocError>
    ensures bytes { IfOk result (λ _. out.new.items
        ≡ out.old.items ++ write_placed (placed_item (item_of item.now) places.old)) }
    ensures left { IfOk result (λ _. places.new ≡ after_item (item_of item.now) places.old) }
{
    put_place(out, places)?;
    match &item.kind {
        ItemKind::With(head, inside) => put_block(out, head, inside.as_slice(), places)?,
        ItemKind::Define(_) => put_kind(out, &item.kind)?,
        ItemKind::AttachList(_, _, _) => put_kind(out, &item.kind)?,
        ItemKind::AttachOne(_, _, _) => put_kind(out, &item.kind)?,
        ItemKind::Macro(_) => put_kind(out, &item.kind)?,
        ItemKind::Constructor(_) => put_kind(out, &item.kind)?,
    }
    Ok(())
}

/// Writes the list of items.
pub fn put_items(
    out: &mut Vec<u8>,
    items: &[Item<'_>],
    places: &mut Places<'_>,
) -> Result<(), AllocError>
    ensures { IfOk result (λ _. out.new.items ≡ out.old.items
        ++ write_list write_placed (placed_items (map item_of items.now) places.old)) }
{
    put_number(out, items.len() as u64)?;
    'rounds: for index in 0..items.len() {
        put_item(out, &items[index], places)?;
    }
    Ok(())
}
