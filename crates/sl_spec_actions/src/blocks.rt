//! The actions of constructors in blocks. Those of a block are judged once for all constructors inside.

ghost use Rattle.std.specs.Prelude.{◌≡◌, false, IfOk, OnOk};
ghost use Rattle.std.specs.List.{list_all};
ghost use Rattle.sl_ast.specs.Unfolding.{written};
ghost use Rattle.sl_ast.specs.Views.{constructor_of};
ghost use Rattle.sl_spec_actions.specs.ActionNames.{action_names};
ghost use Rattle.sl_spec_actions.specs.ActionRules.{action_demands};
ghost use Rattle.sl_spec_actions.specs.Blocks.{AreEntered, AreFactsInside, AreRightAnyway};
ghost use Rattle.sl_spec_actions.specs.Blocks.{AreRightFor};
ghost use Rattle.sl_spec_actions.specs.Blocks.{IsEntered, IsFront, StayRight, is_idle};
ghost use Rattle.sl_spec_actions.specs.Levels.{first_broken_at};
ghost use Rattle.sl_spec_actions.specs.Pending.{all_stand};
ghost use Rattle.sl_spec_actions.specs.SeenActions.{seen_written};
ghost use Rattle.sl_spec_actions.specs.Parts.{parts_of};
ghost use Rattle.sl_spec_rules.specs.Demands.{first_broken};
ghost use Rattle.sl_spec.specs.Unfolded.{placed};

use crate::actions::level_inside;
use crate::levels::{Judged, Level};
use crate::pattern_names::{names_of_head, names_of_pattern};
use crate::pending::Pending;
use sl_ast::patterns::Action;
use sl_spec::{Around, Named, Table, Tables, Unfolded};
use sl_spec_rules::NameSet;
use std::alloc::{AllocError, Global};
use std::marker::Model;

/// The blocks round the constructor that was judged last, with what is known of their actions. It is
/// judged once for all constructors inside a block that stand one behind the other. Contracts see the
/// list of the blocks, the outermost first.
#[derive(Drop)]
pub struct JudgedBlocks<'a> {
    levels: Vec<Level<'a>>,
}

impl<'a> Model for JudgedBlocks<'a> {
    ghost use Rattle.std.specs.Prelude.{List};
    ghost use Rattle.sl_spec_actions.specs.Levels as spec;

    ghost Value = { List spec.Level };

    ghost view = { λ b. b.levels.items };
}

impl<'a> JudgedBlocks<'a> {
    /// No block was judged yet.
    pub fn new(alloc: Global) -> Self
        ensures { AreRightAnyway result }
    {
        JudgedBlocks {
            levels: Vec::new(alloc),
        }
    }

    /// How many of these blocks were judged already, with all round them.
    fn front(&self, blocks: &[Around]) -> usize
        ensures { IsFront result self.now blocks.now }
    {
        let levels = self.levels.as_slice();
        'levels: for index in 0..levels.len() {
            match blocks.get(index) {
                Some(block) => {
                    let level = &levels[index];
                    if block.number != level.number {
                        return index;
                    }
                }
                None => return index,
            }
        }
        levels.len()
    }

    /// Judges a block inside those.
    fn add<'s>(
        &mut self,
        alloc: Global,
        all: &Named<'a, Table<'a>>,
        t: &Tables<'a>,
        block: Around<'s, 'a>,
    ) -> Result<(), AllocError>
        ensures { OnOk result (IsEntered all.now t.now block.entry self.old self.new) }
    {
        let head = block.head;
        let names = names_of_head(alloc, all, head)?;
        let around = self.levels.as_slice();
        let level = level_inside(alloc, all, t, around, block.number, names, &head.actions)?;
        self.levels.push(level)?;
        Ok(())
    }

    /// Leaves the blocks that aren't among these, and judges those of these that weren't judged yet.
    fn enter<'s>(
        &mut self,
        alloc: Global,
        all: &Named<'a, Table<'a>>,
        t: &Tables<'a>,
        blocks: &[Around<'s, 'a>],
    ) -> Result<(), AllocError>
        ensures { OnOk result (AreEntered all.now t.now blocks.now self.old self.new) }
    {
        let front = self.front(blocks);
        self.levels.truncate(front);
        'inside: for index in front..blocks.len() {
            self.add(alloc, all, t, blocks[index])?;
        }
        Ok(())
    }
}

/// What rules 21 to 25 say of the actions of a constructor, its own behind those of the blocks round
/// it.
#[derive(Drop)]
pub struct ActionFacts<'a> {
    /// The names that they set, each once, in the text's order. Fields of the context are none of
    /// them.
    pub given: NameSet<'a>,
    /// The number of the first rule that they break.
    pub broken: Option<u8>,
}

/// Whether no action is written.
fn is_idle(actions: &Option<Vec<Action>>) -> bool
    ensures { result ≡ is_idle (seen_written actions.now) }
{
    match actions {
        Some(actions) => actions.is_empty(),
        None => true,
    }
}

/// Whether none of these blocks has an action.
fn are_idle(blocks: &[Around]) -> bool
    ensures { result ≡ list_all (λ b. is_idle (seen_written b.head.now.actions)) blocks.now }
{
    blocks.iter().all(|block| is_idle(&block.head.actions))
}

/// Whether a rule holds where nothing stands inside.
fn holds_alone(rule: &Pending) -> bool
    ensures { result ≡ all_stand rule.now (λ n. false) }
{
    rule.holds && rule.names.len() == 0
}

/// The number of the first rule that doesn't hold where nothing stands inside.
fn first_broken(judged: &Judged) -> Option<u8>
    ensures { result ≡ first_broken_at judged.now }
{
    if !judged.new_left {
        Some(21)
    } else if !holds_alone(&judged.known_names) {
        Some(22)
    } else if !judged.early_names.holds {
        Some(23)
    } else if !judged.context_field {
        Some(24)
    } else if !holds_alone(&judged.address) {
        Some(25)
    } else {
        None
    }
}

/// What is known of a constructor's actions, where nothing stands inside.
fn facts_at<'a>(level: Level<'a>) -> ActionFacts<'a>
    ensures given { result.given ≡ level.entry.judged.given }
    ensures broken { result.broken ≡ first_broken_at level.entry.judged }
{
    let judged = level.judged;
    let broken = first_broken(&judged);
    let given = judged.given;
    ActionFacts { given, broken }
}

/// The actions of a constructor inside these blocks, all of which were judged.
fn facts_inside<'s, 'a>(
    alloc: Global,
    all: &Named<'a, Table<'a>>,
    t: &Tables<'a>,
    of: &Unfolded<'s, 'a>,
    blocks: &JudgedBlocks<'a>,
) -> Result<ActionFacts<'a>, AllocError>
    ensures { IfOk result (λ f. AreFactsInside all.now t.now (constructor_of of.now.own.now)
        blocks.now f.given f.broken) }
{
    let own = of.own;
    let names = names_of_pattern(alloc, all, &own.pattern)?;
    let around = blocks.levels.as_slice();
    let level = level_inside(alloc, all, t, around, of.number, names, &own.actions)?;
    Ok(facts_at(level))
}

/// What rules 21 to 25 say of the actions of a constructor. `all` are the tables of the whole text,
/// `t` is what is defined before the constructor, and `blocks` are those round the constructor that was
/// judged before it, if no definition stands between. Names are gathered for actions alone.
pub fn judge_actions<'s, 'a>(
    alloc: Global,
    all: &Named<'a, Table<'a>>,
    t: &Tables<'a>,
    of: &Unfolded<'s, 'a>,
    blocks: &mut JudgedBlocks<'a>,
) -> Result<ActionFacts<'a>, AllocError>
    requires { AreRightFor all.now t.now of.now.heads.items blocks.old }
    ensures given { IfOk result (λ f. f.given
        ≡ action_names t.now (written (placed of.now).1.actions)) }
    ensures broken { IfOk result (λ f. f.broken ≡ first_broken (action_demands all.now t.now
        (parts_of all.now (placed of.now).1.pattern) (written (placed of.now).1.actions))) }
    ensures kept { IfOk result (λ _.
        StayRight all.now t.now of.now.heads.items blocks.old blocks.new) }
{
    let heads = of.heads.as_slice();
    let own = of.own;
    if are_idle(heads) && is_idle(&own.actions) {
        return Ok(ActionFacts {
            given: NameSet::new(alloc),
            broken: None,
        });
    }
    blocks.enter(alloc, all, t, heads)?;
    let facts = facts_inside(alloc, all, t, of, blocks)?;
    Ok(facts)
}
