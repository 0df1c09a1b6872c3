//! The lists of trees, made from the last node to the first.

ghost use Rattle.std.specs.Prelude.{◌≡◌, ◌∷◌, List, [], IfOk, OnOk};
ghost use Rattle.sl_build.specs.Pieces.{behind_of, first_code, below_of, piece_before};
ghost use Rattle.sl_build.specs.Pieces.{piece_with, pieces};
ghost use Rattle.sl_build.specs.Views.{gives_in, list_in, piece_of, pieces_of, rows_in};
ghost use Rattle.sl_build.specs.Views.{section_in, setting_in, template_in};
ghost use Rattle.sl_build_emit.specs.Views as emit;
ghost use Rattle.sl_build_emit.specs.Views.{operations_of, references_of};
ghost use Rattle.sl_section_flat.specs.Views.{steps_of};
ghost use Rattle.sl_show.specs.Entries.{row_of};
ghost use Rattle.sl_build_template.specs.Views.{parts_of};

use crate::exports::exported;
use crate::filling::{Operands, operands_of};
use crate::templates::sizes_in;
use crate::work::{Work, one_more, small};
use sl_build_emit::{Reference, Site, place};
use sl_build_template::Part;
use sl_decode_meaning::Entry;
use sl_pcode::Op;
use sl_section_flat::Step;
use std::alloc::{AllocError, Global};
use std::collections::VecDeque;

/// A node with all that are below it.
#[derive(Drop)]
pub(crate) struct Tree {
    /// How many nodes there are.
    pub nodes: usize,
    /// The length of the root in bytes.
    pub length: u32,
    /// What the root exports.
    pub reference: Reference,
    /// The root's list.
    pub list: Vec<Op>,
}

/// The tree of the node of this number, with its operands, and the statements and the template of
/// its section.
fn tree_by(
    alloc: Global,
    w: &Work<'_, '_, '_>,
    k: u32,
    node: &Entry,
    filled: &Operands,
    steps: &[Step<'_>],
    template: &[Part<'_>],
) -> Result<Tree, AllocError>
    requires steps { steps_of steps.now ≡ (section_in w.now node.now.ctor).steps }
    requires template { parts_of template.now ≡ template_in w.now node.now.ctor }
    ensures { IfOk result (λ x. piece_of x ≡ piece_with (section_in w.now) (setting_in w.now)
        (list_in w.now) k (row_of w.now.values.now node.now) (references_of filled.now.refs.items)
        (emit.lists_of filled.now.lists.items)) }
{
    let of = w.of;
    let site = Site {
        endian: of.tables.endian,
        spaces: of.spaces.as_slice(),
        default: of.default,
        start: w.start,
        next: w.next,
        node: k,
        sizes: sizes_in(of.sizes, node.ctor),
        refs: filled.refs.as_slice(),
        top: w.top,
    };
    let list = place(alloc, &site, filled.lists.as_slice(), template);
    let reference = exported(alloc, &site, steps);
    let Site {
        endian: _,
        spaces: _,
        default: _,
        start: _,
        next: _,
        node: _,
        sizes: _,
        refs: _,
        top: _,
    } = site;
    let list = list?;
    let reference = reference?;
    let nodes = one_more(node.below)?;
    Ok(Tree {
        nodes,
        length: node.length,
        reference,
        list,
    })
}

/// The tree of the node of this number, with its operands and the statements of its section.
fn tree_with(
    alloc: Global,
    w: &Work<'_, '_, '_>,
    k: u32,
    node: &Entry,
    filled: &Operands,
    steps: &[Step<'_>],
) -> Result<Tree, AllocError>
    requires { steps_of steps.now ≡ (section_in w.now node.now.ctor).steps }
    ensures { IfOk result (λ x. piece_of x ≡ piece_with (section_in w.now) (setting_in w.now)
        (list_in w.now) k (row_of w.now.values.now node.now) (references_of filled.now.refs.items)
        (emit.lists_of filled.now.lists.items)) }
{
    let templates = w.of.templates.as_slice();
    match templates.get(node.ctor.0 as usize) {
        Some(template) => tree_by(alloc, w, k, node, filled, steps, template.as_slice()),
        None => tree_by(alloc, w, k, node, filled, steps, &[]),
    }
}

/// The tree of the node of this number, with its operands.
fn tree_of(
    alloc: Global,
    w: &Work<'_, '_, '_>,
    k: u32,
    node: &Entry,
    filled: &Operands,
) -> Result<Tree, AllocError>
    ensures { IfOk result (λ x. piece_of x ≡ piece_with (section_in w.now) (setting_in w.now)
        (list_in w.now) k (row_of w.now.values.now node.now) (references_of filled.now.refs.items)
        (emit.lists_of filled.now.lists.items)) }
{
    let sections = w.of.sections.as_slice();
    match sections.get(node.ctor.0 as usize) {
        Some(section) => tree_with(alloc, w, k, node, filled, section.steps.as_slice()),
        None => tree_with(alloc, w, k, node, filled, &[]),
    }
}

/// Takes the first trees, which have so many nodes together.
fn take_below(
    alloc: Global,
    done: &mut VecDeque<Tree>,
    count: usize,
) -> Result<VecDeque<Tree>, AllocError>
    ensures below { IfOk result (λ v. pieces_of v.items
        ≡ below_of count (pieces_of done.old.items)) }
    ensures behind { OnOk result (pieces_of done.new.items
        ≡ behind_of count (pieces_of done.old.items)) }
{
    let mut below = VecDeque::new(alloc);
    let mut left = count;
    'trees: while left > 0 {
        match done.pop_front() {
            Some(tree) => {
                left = left.saturating_sub(tree.nodes);
                below.push_back(tree)?;
            }
            None => return Ok(below),
        }
    }
    Ok(below)
}

/// Puts the tree of the node of this number before those behind it.
fn add_tree(
    alloc: Global,
    w: &Work<'_, '_, '_>,
    k: u32,
    node: &Entry,
    done: &mut VecDeque<Tree>,
) -> Result<(), AllocError>
    ensures { OnOk result (pieces_of done.new.items ≡ piece_before (section_in w.now)
        (setting_in w.now) (list_in w.now) (gives_in w.now) k (row_of w.now.values.now node.now)
        (pieces_of done.old.items)) }
{
    let below = take_below(alloc, done, node.below)?;
    let filled = operands_of(alloc, w, node, below)?;
    let tree = tree_of(alloc, w, k, node, &filled)?;
    done.push_front(tree)?;
    Ok(())
}

/// The trees of a row.
fn trees(alloc: Global, w: &Work<'_, '_, '_>, nodes: &[Entry]) -> Result<VecDeque<Tree>, AllocError>
    ensures { IfOk result (λ v. pieces_of v.items ≡ pieces (section_in w.now) (setting_in w.now)
        (list_in w.now) (gives_in w.now) 0 (rows_in w.now nodes.now)) }
{
    let mut done = VecDeque::new(alloc);
    'nodes: for round in 0..nodes.len() {
        let index = nodes.len() - 1 - round;
        let k = small(index)?;
        add_tree(alloc, w, k, &nodes[index], &mut done)?;
    }
    Ok(done)
}

/// The list of the first tree of a row.
pub(crate) fn first_list(
    alloc: Global,
    w: &Work<'_, '_, '_>,
    nodes: &[Entry],
) -> Result<Vec<Op>, AllocError>
    ensures { IfOk result (λ v. operations_of v.items ≡ first_code (pieces (section_in w.now)
        (setting_in w.now) (list_in w.now) (gives_in w.now) 0 (rows_in w.now nodes.now))) }
{
    let mut done = trees(alloc, w, nodes)?;
    match done.pop_front() {
        Some(tree) => Ok(tree.list),
        None => Ok(Vec::new(alloc)),
    }
}
