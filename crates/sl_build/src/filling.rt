//! The operands of a node: what each stands for, and the lists of those that are tables.

ghost use Rattle.std.specs.Prelude.{◌≡◌, ◌++◌, ◌∷◌, List, Option, IfOk, OnOk, map, option_map};
ghost use Rattle.std.specs.Prelude.{[], drop, slice_get, take};
ghost use Rattle.sl_build.specs.Pieces.{filled_lists, filled_references, lengths_in};
ghost use Rattle.sl_build.specs.Views.{gives_in, pieces_of, slot_reference, slots_in};
ghost use Rattle.sl_decode_meaning.specs.Values.{value_or_zero};
ghost use Rattle.sl_build_emit.specs.Views.{lists_of, operations_of, reference_of, references_of};
ghost use Rattle.sl_meaning_sections.specs.References.{Reference as ReferenceOf};
ghost use Rattle.sl_show.specs.Entries.{row_of};

use crate::fields::field_at;
use crate::numbers::{nothing, plain};
use crate::slots::Slot;
use crate::trees::Tree;
use crate::work::Work;
use sl_build_emit::Reference;
use sl_decode_meaning::Entry;
use sl_pcode::Op;
use sl_spec::CtorId;
use std::alloc::{AllocError, Global};
use std::collections::VecDeque;

/// What the operands of a node stand for, and their lists; no list for one that isn't a table.
#[derive(Drop)]
pub(crate) struct Operands {
    pub refs: Vec<Reference>,
    pub lists: Vec<Vec<Op>>,
}

/// So many of a list, and those behind them.
fn divided<T>(xs: &[T], count: usize) -> (&[T], &[T])
    ensures front { result.0.now ≡ take count xs.now }
    ensures back { result.1.now ≡ drop count xs.now }
{
    if count < xs.len() {
        xs.split_at(count)
    } else {
        (xs, &[])
    }
}

/// The value of the action name of this number of a node; 0 where there is none.
fn value_of(values: &[i64], node: &Entry, number: u32) -> i64
    ensures { result ≡ value_or_zero (slice_get (row_of values.now node.now).node.values number) }
{
    let (_, from) = divided(values, node.first);
    let (own, _) = divided(from, node.end.saturating_sub(node.first));
    own.get(number as usize).copied().unwrap_or(0)
}

/// What an operand stands for at a node, by the lengths of the nodes below it; none for a table.
fn given(w: &Work<'_, '_, '_>, node: &Entry, lengths: &[u32], slot: &Slot) -> Option<Reference>
    ensures { option_map reference_of result ≡ slot_reference w.now.of.now.tables.now
        w.now.bytes.now (row_of w.now.values.now node.now).node lengths.now slot.now }
{
    match slot {
        Slot::Table => None,
        Slot::Field(id, place) => {
            let of = w.of;
            let tables = of.tables;
            let context = node.context;
            Some(field_at(tables, *id, w.bytes, node.at, place, lengths, context))
        }
        Slot::Action(k) => Some(plain(value_of(w.values, node, *k))),
    }
}

/// The operands of a constructor.
fn slots_in(slots: &[Vec<Slot>], ctor: CtorId) -> &[Slot]
    ensures { result.now ≡ slots_in (slice_get slots.now ctor) }
{
    match slots.get(ctor.0 as usize) {
        Some(slots) => slots.as_slice(),
        None => &[],
    }
}

/// The lengths of trees.
fn lengths_of(alloc: Global, trees: &VecDeque<Tree>) -> Result<Vec<u32>, AllocError>
    ensures { IfOk result (λ v. v.items ≡ lengths_in (pieces_of trees.now.items)) }
{
    let mut lengths = Vec::new(alloc);
    'trees: for index in 0..trees.len() {
        lengths.push(trees[index].length)?;
    }
    Ok(lengths)
}

/// Adds an operand.
fn add(filled: &mut Operands, reference: Reference, list: Vec<Op>) -> Result<(), AllocError>
    ensures refs { OnOk result (references_of filled.new.refs.items
        ≡ references_of filled.old.refs.items ++ reference_of reference ∷ []) }
    ensures lists { OnOk result (lists_of filled.new.lists.items
        ≡ lists_of filled.old.lists.items ++ operations_of list.items ∷ []) }
{
    filled.refs.push(reference)?;
    filled.lists.push(list)?;
    Ok(())
}

/// Adds an operand that is given, or the next one of the trees below.
fn fill(
    alloc: Global,
    filled: &mut Operands,
    given: Option<Reference>,
    below: &mut VecDeque<Tree>,
) -> Result<(), AllocError>
    ensures refs { OnOk result ((rest : List (Option ReferenceOf))
        → references_of filled.new.refs.items
        ++ filled_references rest (pieces_of below.new.items)
        ≡ references_of filled.old.refs.items
        ++ filled_references (option_map reference_of given ∷ rest) (pieces_of below.old.items)) }
    ensures lists { OnOk result ((rest : List (Option ReferenceOf))
        → lists_of filled.new.lists.items ++ filled_lists rest (pieces_of below.new.items)
        ≡ lists_of filled.old.lists.items
        ++ filled_lists (option_map reference_of given ∷ rest) (pieces_of below.old.items)) }
{
    match given {
        Some(reference) => add(filled, reference, Vec::new(alloc)),
        None => match below.pop_front() {
            Some(tree) => add(filled, tree.reference, tree.list),
            None => add(filled, nothing(), Vec::new(alloc)),
        },
    }
}

/// The operands of a node with these trees below it.
pub(crate) fn operands_of(
    alloc: Global,
    w: &Work<'_, '_, '_>,
    node: &Entry,
    mut below: VecDeque<Tree>,
) -> Result<Operands, AllocError>
    ensures refs { IfOk result (λ o. references_of o.refs.items ≡ filled_references
        (gives_in w.now (row_of w.now.values.now node.now).node
        (lengths_in (pieces_of below.items))) (pieces_of below.items)) }
    ensures lists { IfOk result (λ o. lists_of o.lists.items ≡ filled_lists
        (gives_in w.now (row_of w.now.values.now node.now).node
        (lengths_in (pieces_of below.items))) (pieces_of below.items)) }
{
    let lengths = lengths_of(alloc, &below)?;
    let of = w.of;
    let slots = slots_in(of.slots.as_slice(), node.ctor);
    let mut filled = Operands {
        refs: Vec::new(alloc),
        lists: Vec::new(alloc),
    };
    'slots: for index in 0..slots.len() {
        let given = given(w, node, lengths.as_slice(), &slots[index]);
        fill(alloc, &mut filled, given, &mut below)?;
    }
    Ok(filled)
}
