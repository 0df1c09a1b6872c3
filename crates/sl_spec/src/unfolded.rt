//! The constructors of a text, without `with` blocks.

ghost use Rattle.std.specs.Prelude.{◌≡◌, ◌+◌, ◌++◌, ◌∷◌, [], List, map, IfOk};
ghost use Rattle.sl_ast.specs.Trees.{block};
ghost use Rattle.sl_ast.specs.Unfolding.{unfolded};
ghost use Rattle.sl_ast.specs.Views.{constructor_of, head_of, inside_of, item_of};
ghost use Rattle.sl_spec.specs.Numbers.{AreNumbered, AreNumberedBelow};
ghost use Rattle.sl_spec.specs.Unfolded.{all_placed, heads_of, under};
ghost use Rattle.sl_spec.specs.ConstructorItems.{constructors_in};
ghost use Rattle.sl_spec.specs.Walks.{Adds, AddsItem, inner_before};

use sl_ast::constructors::{Constructor, Head, Inner};
use sl_ast::items::{Item, ItemKind};
use std::alloc::{AllocError, Global};

/// The head of a `with` block, with the number of its item among all items, by which the block is
/// known again.
#[derive(Clone, Copy)]
pub struct Around<'s, 'a> {
    pub number: u32,
    pub head: &'s Head<'a>,
}

/// A constructor as it is written, with the number of its item among all items and the blocks round
/// it, the outermost first. A block counts before the items inside it.
#[derive(Drop)]
pub struct Unfolded<'s, 'a> {
    pub number: u32,
    pub heads: Vec<Around<'s, 'a>>,
    pub own: &'s Constructor<'a>,
}

/// The number behind this one. 2^32 items would be want of memory.
fn next(number: u32) -> Result<u32, AllocError>
    ensures { IfOk result (λ next. next ≡ number + 1) }
{
    match number.checked_add(1) {
        Some(next) => Ok(next),
        None => Err(AllocError),
    }
}

/// The blocks with one more inside them.
fn inside_one<'s, 'a>(
    alloc: Global,
    heads: &[Around<'s, 'a>],
    number: u32,
    head: &'s Head<'a>,
) -> Result<Vec<Around<'s, 'a>>, AllocError>
    ensures { IfOk result (λ all. all.items
        ≡ heads.now ++ record { number = number; head = head.entry } ∷ []) }
{
    let mut all = Vec::from_slice(alloc, heads)?;
    all.push(Around { number, head })?;
    Ok(all)
}

/// Adds a constructor that stands in these blocks.
fn add_constructor<'s, 'a>(
    alloc: Global,
    heads: &[Around<'s, 'a>],
    number: u32,
    own: &'s Constructor<'a>,
    all: &mut Vec<Unfolded<'s, 'a>>,
) -> Result<u32, AllocError>
    ensures added { IfOk result (λ _. all_placed all.new.items ≡ all_placed all.old.items
        ++ (number, under (heads_of heads.now) (constructor_of own.now)) ∷ []) }
    ensures next { IfOk result (λ next. next ≡ number + 1) }
    ensures numbered { IfOk result (λ next. AreNumberedBelow number heads.now all.old.items
        → AreNumberedBelow next heads.now all.new.items) }
{
    let heads = Vec::from_slice(alloc, heads)?;
    all.push(Unfolded { number, heads, own })?;
    next(number)
}

/// Adds the constructors of a part of a block.
fn add_inner<'s, 'a>(
    alloc: Global,
    heads: &[Around<'s, 'a>],
    number: u32,
    inner: &'s Inner<'a>,
    all: &mut Vec<Unfolded<'s, 'a>>,
) -> Result<u32, AllocError>
    ensures added { IfOk result (λ next. Adds (heads_of heads.now) number (inner_before inner.now)
        (all_placed all.old.items) next (all_placed all.new.items)) }
    ensures numbered { IfOk result (λ next. AreNumberedBelow number heads.now all.old.items
        → AreNumberedBelow next heads.now all.new.items) }
{
    match inner {
        Inner::Constructor(_, own) => add_constructor(alloc, heads, number, own, all),
        Inner::With(_, head, inside) => {
            let around = inside_one(alloc, heads, number, head)?;
            let inside = inside.as_slice();
            let mut number = next(number)?;
            'inside: for index in 0..inside.len() {
                number = add_inner(alloc, around.as_slice(), number, &inside[index], all)?;
            }
            Ok(number)
        }
    }
}

/// Adds the constructors of a block that stands in no other.
fn add_block<'s, 'a>(
    alloc: Global,
    number: u32,
    head: &'s Head<'a>,
    inside: &'s [Inner<'a>],
    all: &mut Vec<Unfolded<'s, 'a>>,
) -> Result<u32, AllocError>
    ensures added { IfOk result (λ next.
        AddsItem number (block (head_of head.now) (inside_of inside.now))
        (all_placed all.old.items) next (all_placed all.new.items)) }
    ensures numbered { IfOk result (λ next. AreNumberedBelow number [] all.old.items
        → AreNumberedBelow next [] all.new.items) }
{
    let heads = inside_one(alloc, &[], number, head)?;
    let mut number = next(number)?;
    'inside: for index in 0..inside.len() {
        number = add_inner(alloc, heads.as_slice(), number, &inside[index], all)?;
    }
    Ok(number)
}

/// Adds the constructors of an item. The number behind it. Blocks with different heads have
/// different numbers, if those that are there have.
pub fn add_unfolded<'s, 'a>(
    alloc: Global,
    number: u32,
    item: &'s Item<'a>,
    all: &mut Vec<Unfolded<'s, 'a>>,
) -> Result<u32, AllocError>
    ensures added { IfOk result (λ next. AddsItem number (item_of item.now)
        (all_placed all.old.items) next (all_placed all.new.items)) }
    ensures numbered { IfOk result (λ next. AreNumberedBelow number [] all.old.items
        → AreNumberedBelow next [] all.new.items) }
{
    match &item.kind {
        ItemKind::Constructor(own) => add_constructor(alloc, &[], number, own, all),
        ItemKind::With(head, inside) => add_block(alloc, number, head, inside.as_slice(), all),
        ItemKind::Define(_) => next(number),
        ItemKind::AttachList(_, _, _) => next(number),
        ItemKind::AttachOne(_, _, _) => next(number),
        ItemKind::Macro(_) => next(number),
    }
}

/// The constructors of a text in its order, each with the blocks round it. Blocks with different
/// heads have different numbers.
pub fn unfolded_constructors<'s, 'a>(
    alloc: Global,
    items: &'s [Item<'a>],
) -> Result<Vec<Unfolded<'s, 'a>>, AllocError>
    ensures all { IfOk result (λ all. all_placed all.items
        ≡ constructors_in (unfolded (map item_of items.now))) }
    ensures numbered { IfOk result (λ all. AreNumbered all.items) }
{
    let mut all = Vec::new(alloc);
    let mut number = 0;
    'items: for index in 0..items.len() {
        number = add_unfolded(alloc, number, &items[index], &mut all)?;
    }
    Ok(all)
}
