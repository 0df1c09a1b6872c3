//! Actions by rules 21 to 25, level by level.

ghost use Rattle.std.specs.Prelude.{◌≡◌, [], IfOk, OnOk, fold};
ghost use Rattle.sl_ast.specs.Views.{action_of, actions_of};
ghost use Rattle.sl_spec_actions.specs.ActionNames.{with_name};
ghost use Rattle.sl_spec_actions.specs.Blocks.{IsInside};
ghost use Rattle.sl_spec_actions.specs.Levels.{IsBegun, IsWith, StaysJudged, early_inside};
ghost use Rattle.sl_spec_actions.specs.Levels.{innermost};
ghost use Rattle.sl_spec_actions.specs.SeenActions.{seen_written};
ghost use Rattle.sl_spec_actions.specs.Stands.{stands_of};

use crate::levels::{Judged, Level, Stands, any_unwanted};
use crate::pattern_names::PatternNames;
use crate::pending::{Pending, left_inside};
use crate::rules::{
    has_new_left, sets_context_field, use_address, use_early_names, use_known_names,
};
use crate::set_names::{add_action, add_once, name_at};
use sl_ast::patterns::Action;
use sl_spec::{Named, Table, Tables};
use sl_spec_rules::NameSet;
use std::alloc::{AllocError, Global};

/// The names once more.
fn copied<'a>(alloc: Global, names: &NameSet<'a>) -> Result<NameSet<'a>, AllocError>
    ensures { IfOk result (λ copy. copy ≡ fold with_name [] names.now) }
{
    let mut copy = NameSet::new(alloc);
    'names: for index in 0..names.len() {
        let name = name_at(names, index);
        add_once(&mut copy, name)?;
    }
    Ok(copy)
}

/// Rule 23 inside these levels, where this is known of it at the innermost one, before any action
/// inside a pattern with these names behind a table.
fn early_inside<'a>(
    alloc: Global,
    around: &[Level<'a>],
    outer: &Pending<'a>,
    behind_table: &NameSet<'a>,
) -> Pending<'a>
    ensures { result ≡ early_inside around.now behind_table.now outer.now }
{
    Pending {
        holds: outer.holds && !any_unwanted(around, behind_table),
        names: NameSet::new(alloc),
    }
}

/// What is known inside these levels, where this is known at the innermost one, before any action
/// inside a pattern with these names.
fn begun_inside<'a>(
    alloc: Global,
    around: &[Level<'a>],
    outer: &Judged<'a>,
    names: &PatternNames<'a>,
) -> Result<Judged<'a>, AllocError>
    ensures { IfOk result (IsBegun around.now names.now outer.now) }
{
    Ok(Judged {
        given: copied(alloc, &outer.given)?,
        new_left: outer.new_left,
        known_names: left_inside(alloc, &outer.known_names, &names.anywhere)?,
        early_names: early_inside(alloc, around, &outer.early_names, &names.behind_table),
        context_field: outer.context_field,
        address: left_inside(alloc, &outer.address, &names.bare)?,
    })
}

/// What is known inside these levels before any action inside a pattern with these names.
fn begun<'a>(
    alloc: Global,
    around: &[Level<'a>],
    names: &PatternNames<'a>,
) -> Result<Judged<'a>, AllocError>
    ensures { IfOk result (IsBegun around.now names.now (innermost around.now)) }
{
    match around.last() {
        Some(level) => begun_inside(alloc, around, &level.judged, names),
        None => Ok(Judged::new(alloc)),
    }
}

/// Judges one action more.
fn add_judged<'a>(
    alloc: Global,
    all: &Named<'a, Table<'a>>,
    t: &Tables<'a>,
    stands: &Stands<'_, 'a>,
    action: &Action<'a>,
    judged: &mut Judged<'a>,
) -> Result<(), AllocError>
    ensures { OnOk result
        (IsWith all.now t.now (stands_of stands.now) (action_of action.now) judged.old judged.new) }
{
    let before = &judged.given;
    judged.new_left = judged.new_left && has_new_left(all, t, before, action);
    use_known_names(alloc, t, stands, before, action, &mut judged.known_names)?;
    use_early_names(alloc, t, stands, before, action, &mut judged.early_names)?;
    judged.context_field = judged.context_field && sets_context_field(t, before, action);
    use_address(t, stands, before, action, &mut judged.address)?;
    add_action(t, &mut judged.given, action)
}

/// Judges more actions.
fn add_all_judged<'a>(
    alloc: Global,
    all: &Named<'a, Table<'a>>,
    t: &Tables<'a>,
    stands: &Stands<'_, 'a>,
    actions: &[Action<'a>],
    judged: &mut Judged<'a>,
) -> Result<(), AllocError>
    ensures { OnOk result (StaysJudged all.now t.now (stands_of stands.now) (actions_of actions.now)
        judged.old judged.new) }
{
    'actions: for index in 0..actions.len() {
        add_judged(alloc, all, t, stands, &actions[index], judged)?;
    }
    Ok(())
}

/// Judges the actions that are written, if any.
fn add_written<'a>(
    alloc: Global,
    all: &Named<'a, Table<'a>>,
    t: &Tables<'a>,
    stands: &Stands<'_, 'a>,
    actions: &Option<Vec<Action<'a>>>,
    judged: &mut Judged<'a>,
) -> Result<(), AllocError>
    ensures { OnOk result (StaysJudged all.now t.now (stands_of stands.now)
        (seen_written actions.now) judged.old judged.new) }
{
    match actions {
        Some(actions) => add_all_judged(alloc, all, t, stands, actions.as_slice(), judged)?,
        None => {}
    }
    Ok(())
}

/// A block or a constructor inside these levels, with the names of its pattern and its actions.
pub(crate) fn level_inside<'a>(
    alloc: Global,
    all: &Named<'a, Table<'a>>,
    t: &Tables<'a>,
    around: &[Level<'a>],
    number: u32,
    names: PatternNames<'a>,
    actions: &Option<Vec<Action<'a>>>,
) -> Result<Level<'a>, AllocError>
    ensures { IfOk result (IsInside all.now t.now around.now number names.entry
        (seen_written actions.now)) }
{
    let mut judged = begun(alloc, around, &names)?;
    let own = &names;
    let stands = Stands { around, own };
    add_written(alloc, all, t, &stands, actions, &mut judged)?;
    Ok(Level {
        number,
        names,
        judged,
    })
}
