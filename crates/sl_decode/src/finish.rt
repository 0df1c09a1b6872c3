//! The late moments of a decode: all nodes once more in the same order.

ghost use Rattle.std.specs.Prelude.{◌≡◌, ◌++◌, ◌∷◌, [], List, length, IsTrue, IfOk, OnOk};
ghost use Rattle.sl_decode_contexts.specs.declared.commits.Commit.{Commit as CommitOf};
ghost use Rattle.sl_decode.specs.Finishing as spec;
ghost use Rattle.sl_decode.specs.Finishing.{begun_of, finish_kept, kept, kept_of, roots};
ghost use Rattle.sl_decode.specs.Finishing.{told, told_of};
ghost use Rattle.sl_decode.specs.Inputs.{input_of};
ghost use Rattle.sl_decode.specs.Outcomes.{Gives};
ghost use Rattle.sl_decode.specs.declared.walk.Sprout.{Sprout as SproutOf};
ghost use Rattle.sl_decode_meaning.specs.Actions as at;
ghost use Rattle.sl_decode_meaning.specs.Decoding.{finish_node, site_at};
ghost use Rattle.sl_decode_plan.specs.Plans.{done};

use crate::decode::{Choose, Decode};
use crate::late::{look_all, tell_all};
use crate::outcomes::DecodeError;
use crate::points::divided;
use crate::walk::{NodeRoom, Sprout, Walk};
use sl_decode_contexts::Commit;
use sl_decode_meaning::{Entry, Noted};
use sl_decode_plan::{Plan, Scope};
use sl_spec::{CtorId, TableId};
use std::alloc::AllocError;

/// A node with those that stand below it, and its notes.
#[derive(Clone, Copy)]
struct Begun<'g> {
    sprout: &'g Sprout,
    below: &'g [Sprout],
    notes: &'g [Noted],
}

/// Looks at one more node, of which `skipped` are skipped first: how many are behind it. Its length
/// is added, if it isn't skipped.
fn add_length(sprout: &Sprout, skipped: usize, lengths: &mut Vec<u32>) -> Result<usize, AllocError>
    ensures { IfOk result (λ n. (rest : List SproutOf) → lengths.new.items ++ roots n rest
        ≡ lengths.old.items ++ roots skipped (sprout.now ∷ rest)) }
{
    if skipped > 0 {
        return Ok(skipped - 1);
    }
    lengths.push(sprout.length)?;
    Ok(sprout.below)
}

/// Adds the lengths of the nodes that stand below none of the others.
fn add_lengths(sprouts: &[Sprout], lengths: &mut Vec<u32>) -> Result<(), AllocError>
    ensures { OnOk result (lengths.new.items ≡ lengths.old.items ++ roots 0 sprouts.now) }
{
    let mut skipped = 0;
    'sprouts: for index in 0..sprouts.len() {
        skipped = add_length(&sprouts[index], skipped, lengths)?;
    }
    Ok(())
}

/// Adds values, if there are any.
fn add_values(own: &[i64], values: &mut Vec<i64>) -> Result<(), AllocError>
    ensures { OnOk result (values.new.items ≡ values.old.items ++ own.now) }
{
    if own.is_empty() {
        return Ok(());
    }
    values.extend_from_slice(own)
}

/// Adds a node with its values.
fn keep(
    sprout: &Sprout,
    own: &[i64],
    nodes: &mut Vec<Entry>,
    values: &mut Vec<i64>,
) -> Result<(), AllocError>
    ensures { OnOk result ((cs ds : List CommitOf) → kept nodes.new.items values.new.items ds
        ≡ spec.keep sprout.now (told own.now ds) (kept nodes.old.items values.old.items cs)) }
{
    let first = values.len();
    add_values(own, values)?;
    nodes.push(Entry {
        ctor: sprout.ctor,
        at: sprout.at,
        length: sprout.length,
        context: sprout.context,
        first,
        end: values.len(),
        below: sprout.below,
    })?;
    Ok(())
}

/// Whether nothing is done at a node of the plan when the whole tree stands.
fn is_idle(plan: &Plan) -> bool
    ensures { IsTrue result → (plan.now.looks.items ≡ []) × (plan.now.late ≡ []) }
{
    plan.looks.is_empty() && plan.late.rows().is_empty()
}

impl<C: Choose> Decode<'_, '_, C> {
    /// The late moments of a node by the plan of its constructor: values are added to those of
    /// `room`, which are none, and commits to the others.
    #[tactic(auto, using(crate::proofs::FinishLemmas::idle_late))]
    fn finish_by(
        &self,
        plan: &Plan,
        next: u64,
        node: &Begun,
        room: &mut NodeRoom,
        commits: &mut Vec<Commit>,
    ) -> Result<(), DecodeError>
        requires { room.old.values.items ≡ [] }
        ensures { Gives (λ _. told room.new.values.items commits.new.items) result
            (told_of ((done self.now.tables.now plan.now).late
            (site_at (input_of C.chosen self.now) node.now.sprout.now.ctor node.now.sprout.now.at
            (roots 0 node.now.below.now) node.now.sprout.now.context next)
            (at.own node.now.notes.now [] commits.old.items))) }
    {
        if is_idle(plan) {
            return Ok(());
        }
        room.lengths.clear();
        add_lengths(node.below, &mut room.lengths)?;
        let scope = Scope {
            ctor: node.sprout.ctor,
            bytes: self.bytes,
            at: node.sprout.at,
            lengths: room.lengths.as_slice(),
            context: node.sprout.context,
            start: self.address,
            next,
            values: &[],
        };
        look_all(self.tables, &scope, plan.looks.as_slice())?;
        tell_all(
            self.tables,
            &scope,
            &plan.late,
            node.notes,
            &mut room.values,
            commits,
        )?;
        Ok(())
    }

    /// The late moments of a node: its values are put in place of those of `room`, and commits are
    /// added.
    fn finish_one(
        &self,
        next: u64,
        node: &Begun,
        room: &mut NodeRoom,
        commits: &mut Vec<Commit>,
    ) -> Result<(), DecodeError>
        ensures { Gives (λ _. told room.new.values.items commits.new.items) result
            (told_of (finish_node (input_of C.chosen self.now) next
            (begun_of node.now.sprout.now node.now.notes.now) (roots 0 node.now.below.now)
            commits.old.items)) }
    {
        room.values.clear();
        let sprout = node.sprout;
        let CtorId(number) = sprout.ctor;
        let plan = self.plan_of(sprout.ctor, TableId(number), sprout.at)?;
        self.finish_by(plan, next, node, room, commits)
    }

    /// The late moments of all nodes, `next` being the address behind the instruction. Nodes, values
    /// and commits are added.
    pub fn finish(&self, next: u64, walk: &mut Walk) -> Result<(), DecodeError>
        ensures { Gives (λ _. kept_of walk.new) result
            (finish_kept (input_of C.chosen self.now) next walk.old.growth.sprouts.items
            walk.old.growth.notes.items (kept_of walk.old)) }
    {
        let Walk {
            nodes,
            values,
            commits,
            growth,
            room,
        } = walk;
        let growth = &*growth;
        let sprouts = growth.sprouts.as_slice();
        let mut rest = growth.notes.as_slice();
        'sprouts: for index in 0..sprouts.len() {
            let sprout = &sprouts[index];
            let (_, behind) = divided(sprouts, index + 1);
            let (below, _) = divided(behind, sprout.below);
            let (notes, left) = divided(rest, sprout.noted);
            let node = Begun {
                sprout,
                below,
                notes,
            };
            self.finish_one(next, &node, room, commits)?;
            keep(sprout, room.values.as_slice(), nodes, values)?;
            rest = left;
        }
        Ok(())
    }
}
