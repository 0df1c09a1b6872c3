//! Nodes of tables and of constructors, with their operands. Each call asks what is known of nodes
//! for all lists of a region at once; `None` says that there are none.

ghost use Rattle.std.specs.Prelude.{◌≡◌, ◌≤◌, ◌<◌, ℕ, List, IfOk, IfSome, IsTrue, length};
ghost use Rattle.std.specs.List.{flat_map};
ghost use Rattle.sl_asm_bounds.specs.Bounds.{AreAsLong, Fits};
ghost use Rattle.sl_asm_narrow.specs.Candidates.{text_of};
ghost use Rattle.sl_asm_print.specs.Splits.{KeepsTexts};
ghost use Rattle.sl_show.specs.declared.templates.Part.{Part as PartOf};
ghost use Rattle.sl_asm_narrow.specs.Nodes.{ActsOn, BoundsConstructor, BoundsOperand};
ghost use Rattle.sl_asm_narrow.specs.Nodes.{BoundsNode, BoundsOperands};
ghost use Rattle.sl_asm_narrow.specs.Nodes.{BoundsPlanned, BoundsTable};
ghost use Rattle.sl_asm_narrow.specs.Readers.{IsReader};
ghost use Rattle.sl_conflict.specs.Kept.{IsPaired};

use crate::operands::Operands;
use crate::reader::{Goal, Node, Reader, Setting};
use sl_asm_bounds::{Bounds, after_steps, either, narrow_some, text_of, unknown};
use sl_asm_fit::Cell;
use sl_asm_known::Frame;
use sl_asm_print::{begins_with, splits};
use sl_conflict::TableSets;
use sl_decode_plan::{Plan, Slot};
use sl_show::Part;
use sl_spec::TableId;
use std::alloc::{AllocError, Global};

/// How many nodes deep one without a text is read.
const BLIND_DEPTH: usize = 2;

/// How many nodes deep a node is read, by whether its text is known.
fn depth_of(depth: usize, goal: &Goal) -> usize
    ensures { result ≤ depth }
{
    if goal.text.is_some() {
        depth
    } else {
        depth.min(BLIND_DEPTH)
    }
}

/// Whether the text, if one is known, may be shown by the parts.
fn may_be_shown(parts: &[Part], goal: &Goal) -> bool
    ensures { (shows : PartOf → List ℕ) → KeepsTexts shows
        → Fits (text_of goal.now.text) (flat_map shows parts.now) → IsTrue result }
{
    match goal.text {
        Some(text) => begins_with(parts, text),
        None => true,
    }
}

/// Whether there is one part alone, and it isn't a text.
fn is_alone(parts: &[Part]) -> bool
    ensures { IsTrue result → length parts.now ≡ 1 }
{
    match parts.first() {
        Some(Part::Text(_)) => false,
        _ => parts.len() == 1,
    }
}

impl Reader<'_, '_, '_> {
    /// The goal after a node's own actions, for lists of the region.
    fn after_actions<'x>(
        &self,
        setting: &Setting,
        region: &[Cell],
        plan: &Plan,
        goal: &Goal<'x>,
    ) -> Goal<'x>
        ensures at { result.at ≡ goal.now.at }
        ensures text { result.text ≡ goal.now.text }
        ensures context { ActsOn self.now setting.now region.now plan.now goal.now
            result.context }
    {
        let frame = Frame {
            at: goal.at,
            lengths: &[],
            context: 0,
            start: setting.start,
            next: 0,
            names: &[],
        };
        let context = after_steps(self.tables(), &frame, region, goal.context, &plan.early);
        Goal {
            at: goal.at,
            context,
            text: goal.text,
        }
    }

    /// What is known of a node of the table, read so many nodes deep.
    #[cycle(reading)]
    pub(crate) fn table(
        &self,
        alloc: Global,
        setting: &Setting,
        depth: usize,
        region: &[Cell],
        table: TableId,
        goal: &Goal,
    ) -> Result<Option<Bounds>, AllocError>
        requires ready { IsReader self.now }
        requires place { goal.now.at ≤ 255 }
        requires long { length region.now ≤ 255 }
        ensures bounds { IfOk result (BoundsTable self.now setting.now region.now table goal.now) }
        ensures long { IfOk result (AreAsLong (length region.now)) }
    {
        let depth = depth_of(depth, goal);
        let Some(kept) = self.compiled.checked.table(table) else {
            let same = unknown(alloc, region)?;
            return Ok(Some(same));
        };
        if depth == 0 {
            let same = unknown(alloc, region)?;
            return Ok(Some(same));
        }
        let mut all = None;
        'places: for place in 0..kept.ctors.len() {
            if self.may_begin(kept.ctors[place], goal) {
                let one = self.constructor(alloc, setting, depth - 1, region, kept, place, goal)?;
                all = either(alloc, region.len(), all, one)?;
            }
        }
        Ok(all)
    }

    /// What is known of a node of the constructor at a place of a table.
    #[cycle(reading)]
    fn constructor(
        &self,
        alloc: Global,
        setting: &Setting,
        depth: usize,
        region: &[Cell],
        kept: &TableSets,
        place: usize,
        goal: &Goal,
    ) -> Result<Option<Bounds>, AllocError>
        requires ready { IsReader self.now }
        requires place { goal.now.at ≤ 255 }
        requires long { length region.now ≤ 255 }
        requires paired { IsPaired kept.now }
        requires there { place < length kept.now.ctors.items }
        ensures bounds { IfOk result (BoundsConstructor self.now setting.now region.now kept.now
            place goal.now) }
        ensures long { IfOk result (AreAsLong (length region.now)) }
    {
        let number = kept.ctors[place];
        let parts = self.parts(number);
        let Some(plan) = self.plans.get(number as usize) else {
            return Ok(None);
        };
        if !may_be_shown(parts, goal) {
            return Ok(None);
        }
        let set = &kept.sets[place];
        let narrow = narrow_some(alloc, region, goal.at, goal.context, &set.cubes)?;
        let Some(cells) = narrow else {
            return Ok(None);
        };
        let after = self.after_actions(setting, &cells, plan, goal);
        let found = self.displayed(alloc, setting, depth, &cells, plan, parts, &after)?;
        Ok(found)
    }

    /// What is known of a node with this plan and with a text that is shown by the parts; the goal's
    /// context is that after its own actions.
    #[cycle(reading)]
    fn displayed(
        &self,
        alloc: Global,
        setting: &Setting,
        depth: usize,
        region: &[Cell],
        plan: &Plan,
        parts: &[Part],
        goal: &Goal,
    ) -> Result<Option<Bounds>, AllocError>
        requires ready { IsReader self.now }
        requires place { goal.now.at ≤ 255 }
        requires long { length region.now ≤ 255 }
        ensures bounds { IfOk result (BoundsPlanned self.now setting.now region.now plan.now
            parts.now goal.now) }
        ensures long { IfOk result (AreAsLong (length region.now)) }
    {
        let Some(text) = goal.text else {
            let node = Node {
                plan,
                parts,
                texts: &[],
                goal: *goal,
            };
            let found = self.inner(alloc, setting, depth, region, &node)?;
            return Ok(found);
        };
        if is_alone(parts) {
            let node = Node {
                plan,
                parts,
                texts: &[text],
                goal: *goal,
            };
            let found = self.inner(alloc, setting, depth, region, &node)?;
            return Ok(found);
        }
        let ways = splits(alloc, parts, text)?;
        let mut all = None;
        'ways: for index in 0..ways.len() {
            let node = Node {
                plan,
                parts,
                texts: ways[index].as_slice(),
                goal: *goal,
            };
            let one = self.inner(alloc, setting, depth, region, &node)?;
            all = either(alloc, region.len(), all, one)?;
        }
        Ok(all)
    }

    /// The same where these are the texts of the parts.
    #[cycle(reading)]
    fn inner(
        &self,
        alloc: Global,
        setting: &Setting,
        depth: usize,
        region: &[Cell],
        node: &Node,
    ) -> Result<Option<Bounds>, AllocError>
        requires ready { IsReader self.now }
        requires place { node.now.goal.at ≤ 255 }
        requires long { length region.now ≤ 255 }
        ensures bounds { IfOk result (BoundsNode self.now setting.now region.now node.now) }
        ensures long { IfOk result (AreAsLong (length region.now)) }
    {
        let below = self.operands(alloc, setting, depth, region, node)?;
        let Some(operands) = below else {
            return Ok(None);
        };
        let found = self.shown(alloc, setting, operands, node)?;
        Ok(found)
    }

    /// What is known of the operands of such a node.
    #[cycle(reading)]
    fn operands(
        &self,
        alloc: Global,
        setting: &Setting,
        depth: usize,
        region: &[Cell],
        node: &Node,
    ) -> Result<Option<Operands>, AllocError>
        requires ready { IsReader self.now }
        requires place { node.now.goal.at ≤ 255 }
        requires long { length region.now ≤ 255 }
        ensures bounds { IfOk result (BoundsOperands self.now setting.now region.now node.now) }
        ensures long { IfOk result (λ found. IfSome found (λ o. length o.region.items
            ≡ length region.now)) }
    {
        let mut known = Operands::none(alloc, region, node.goal.context)?;
        let slots = node.plan.slots.as_slice();
        'slots: for index in 0..slots.len() {
            let text = text_of(node.parts, node.texts, index);
            let at = node.goal.at;
            let next = self.operand(alloc, setting, depth, &known, &slots[index], at, text)?;
            let Some(bounds) = next else {
                return Ok(None);
            };
            known.add(bounds)?;
        }
        Ok(Some(known))
    }

    /// What is known of the operand after those that are known, in a node at a place.
    #[cycle(reading)]
    fn operand(
        &self,
        alloc: Global,
        setting: &Setting,
        depth: usize,
        known: &Operands,
        slot: &Slot,
        at: u32,
        text: Option<&[u8]>,
    ) -> Result<Option<Bounds>, AllocError>
        requires ready { IsReader self.now }
        requires long { length known.now.region.items ≤ 255 }
        ensures bounds { IfOk result (BoundsOperand self.now setting.now known.now slot.now at
            text.entry) }
        ensures long { IfOk result (AreAsLong (length known.now.region.items)) }
    {
        let Some(place) = known.lengths.place(at, &slot.place) else {
            let same = unknown(alloc, &known.region)?;
            return Ok(Some(same));
        };
        let goal = Goal {
            at: place,
            context: known.context,
            text,
        };
        let region = known.region.as_slice();
        let found = self.table(alloc, setting, depth, region, slot.table, &goal)?;
        Ok(found)
    }
}
