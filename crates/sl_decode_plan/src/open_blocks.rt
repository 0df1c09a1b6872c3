//! The blocks round a constructor, with the steps of their actions, which are taken for the next
//! constructors as long as they are right for them.

ghost use Rattle.std.specs.Prelude.{◌≡◌, ◌≤◌, ℕ, IfOk, IsTrue, OnOk, length, option_copied, take};
ghost use Rattle.sl_decode_leaves.specs.Blocks.{ArePlain};
ghost use Rattle.sl_decode_leaves.specs.Joined.{all_leaves};
ghost use Rattle.sl_decode_plan.specs.Settled.{AddsUnsettled, IsInside};
ghost use Rattle.sl_decode_plan.specs.Open.{AreCommon, AreEntered, AreRightAnyway, AreRightFor};
ghost use Rattle.sl_decode_plan.specs.Open.{IsFront};
ghost use Rattle.sl_decode_plan.specs.Open.{IsOpened, StandAlike, leaves_of, unsettled_of};
ghost use Rattle.sl_decode_plan.specs.Uses.{ReadAsBefore};

use crate::settled::add_unsettled;
use crate::shared::{SharedSteps, actions_in, fresh};
use crate::uses::{Used, read_as_before, uses_in};
use sl_decode_leaves::{JoinedLeaves, PatternLeaves};
use sl_spec::{Around, Named, Operand, Tables};
use std::alloc::{AllocError, Global};
use std::marker::Model;
use std::rc::Rc;

/// A block with the steps of its actions, the names of its pattern, and those names in its actions,
/// and in those of the blocks round it, that the patterns up to its own don't settle.
#[derive(Drop)]
pub(crate) struct OpenBlock<'a> {
    pub number: u32,
    pub leaves: Rc<PatternLeaves<'a>>,
    pub steps: SharedSteps,
    pub unsettled: Named<'a, Used<'a>>,
}

/// The blocks round the last constructor for which they were entered. Contracts see the list of them,
/// the outermost first.
#[derive(Drop)]
pub(crate) struct OpenBlocks<'a> {
    blocks: Vec<OpenBlock<'a>>,
}

impl<'a> Model for OpenBlocks<'a> {
    ghost use Rattle.std.specs.Coded.{codes};
    ghost use Rattle.std.specs.Prelude.{List};
    ghost use Rattle.sl_decode_leaves.specs.contracts.extents.Extent as e;
    ghost use Rattle.sl_decode_plan.specs.contracts.values.Value as v;
    ghost use Rattle.sl_decode_plan.specs.declared.open_blocks.OpenBlock as o;

    ghost Value = { List o.OpenBlock };

    ghost coded = { Prim.hlevel (codes, e.the_row.coded, v.the_row.coded) };

    ghost view = { λ b. b.blocks.items };
}

/// Whether this block has that number, and its pattern the same names at the same places.
fn is_same_block(block: &OpenBlock, around: &Around, its: &PatternLeaves) -> bool
    ensures number { IsTrue result → block.now.number ≡ around.now.number }
    ensures alike { IsTrue result → StandAlike (leaves_of block.now) its.now.leaves.items }
{
    block.number == around.number && block.leaves.has_same_places(its)
}

/// Adds the names that the block outside leaves, if there is one, without those that are settled inside
/// blocks with these patterns.
fn add_outer<'a>(
    t: &Tables,
    patterns: &[Rc<PatternLeaves>],
    outer: Option<&OpenBlock<'a>>,
    all: &mut Named<'a, Used<'a>>,
) -> Result<(), AllocError>
    ensures { OnOk result (AddsUnsettled t.now (all_leaves patterns.now)
        (unsettled_of (option_copied outer.entry)) all.old all.new) }
{
    match outer {
        Some(block) => add_unsettled(t, patterns, &block.unsettled, all),
        None => Ok(()),
    }
}

/// The names that aren't settled inside blocks with these patterns: those that the block outside
/// leaves, and of those that actions use.
fn unsettled_in<'a>(
    alloc: Global,
    t: &Tables,
    patterns: &[Rc<PatternLeaves>],
    outer: Option<&OpenBlock<'a>>,
    used: &Named<'a, Used<'a>>,
) -> Result<Named<'a, Used<'a>>, AllocError>
    ensures { IfOk result (AddsUnsettled t.now (all_leaves patterns.now) used.now
        (unsettled_of (option_copied outer.entry))) }
{
    let mut all = Named::new(alloc);
    add_outer(t, patterns, outer, &mut all)?;
    add_unsettled(t, patterns, used, &mut all)?;
    Ok(all)
}

/// A block with the steps of its actions, inside another one, if there is one. The patterns are those
/// of the blocks round it and its own, `its`.
fn opened<'a>(
    alloc: Global,
    t: &Tables,
    operands: &[Operand],
    leaves: &JoinedLeaves,
    patterns: &[Rc<PatternLeaves>],
    its: &Rc<PatternLeaves<'a>>,
    around: Around<'_, 'a>,
    outer: Option<&OpenBlock<'a>>,
) -> Result<OpenBlock<'a>, AllocError>
    requires inside { IsInside t.now (all_leaves patterns.now) operands.now leaves.now }
    requires unsettled { ReadAsBefore t.now operands.now leaves.now
        (unsettled_of (option_copied outer)) }
    ensures { IfOk result (IsOpened t.now operands.now leaves.now (all_leaves patterns.now)
        its.now.value.leaves.items (unsettled_of (option_copied outer.entry)) around.entry) }
{
    let actions = actions_in(around.head);
    let steps = fresh(alloc, t, operands, leaves, actions)?;
    let used = uses_in(alloc, t, operands, leaves, actions)?;
    let unsettled = unsettled_in(alloc, t, patterns, outer, &used)?;
    let kept = its.clone()?;
    Ok(OpenBlock {
        number: around.number,
        leaves: kept,
        steps,
        unsettled,
    })
}

impl<'a> OpenBlocks<'a> {
    /// No block was met yet.
    pub fn new(alloc: Global) -> Self
        ensures { AreRightAnyway result }
    {
        OpenBlocks {
            blocks: Vec::new(alloc),
        }
    }

    /// How many of the blocks are those round a constructor with these patterns, the outermost first.
    fn common(&self, patterns: &[Rc<PatternLeaves>], heads: &[Around]) -> usize
        ensures { (count : ℕ) → count ≤ result
            → AreCommon (all_leaves (take count patterns.now)) self.now heads.now count }
    {
        let blocks = self.blocks.as_slice();
        let most = blocks.len().min(heads.len()).min(patterns.len());
        'first: for index in 0..most {
            if !is_same_block(&blocks[index], &heads[index], &patterns[index]) {
                return index;
            }
        }
        most
    }

    /// How many of the blocks are those round a constructor with this pattern, and have steps that are
    /// right for it, the outermost first. Most often all that it shares with the last one are.
    fn front(
        &self,
        t: &Tables,
        operands: &[Operand],
        leaves: &JoinedLeaves,
        patterns: &[Rc<PatternLeaves>],
        heads: &[Around],
    ) -> Result<usize, AllocError>
        ensures { IfOk result (λ count. IsFront t.now operands.now leaves.now
            (all_leaves (take count patterns.now)) self.now heads.now count) }
    {
        let blocks = self.blocks.as_slice();
        let common = self.common(patterns, heads);
        'inner: for index in 0..common {
            let last = common - index - 1;
            if read_as_before(t, operands, leaves, &blocks[last].unsettled)? {
                return Ok(last + 1);
            }
        }
        Ok(0)
    }

    /// Closes the blocks from the first one that isn't among `heads`, or isn't right for a constructor
    /// with these operands and this pattern, and opens the rest of `heads`, with their steps.
    pub fn enter(
        &mut self,
        alloc: Global,
        t: &Tables,
        operands: &[Operand],
        leaves: &JoinedLeaves,
        patterns: &[Rc<PatternLeaves<'a>>],
        heads: &[Around<'_, 'a>],
    ) -> Result<(), AllocError>
        requires plain { ArePlain t.now operands.now }
        requires whole { all_leaves patterns.now ≡ leaves.now }
        requires enough { length heads.now ≤ length patterns.now }
        requires right { AreRightFor t.now heads.now self.old }
        ensures { OnOk result
            (AreEntered t.now operands.now leaves.now heads.now self.old self.new) }
    {
        let front = self.front(t, operands, leaves, patterns, heads)?;
        self.blocks.truncate(front);
        'inside: for index in front..heads.len() {
            let round = &patterns[..index + 1];
            let its = &patterns[index];
            let outer = self.blocks.last();
            let block = opened(alloc, t, operands, leaves, round, its, heads[index], outer)?;
            self.blocks.push(block)?;
        }
        Ok(())
    }

    /// The blocks, the outermost first.
    pub fn open_blocks(&self) -> &[OpenBlock<'a>]
        ensures { result.now ≡ self.now }
    {
        self.blocks.as_slice()
    }
}
