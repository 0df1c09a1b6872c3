//! What each rule demands of one action.

ghost use Rattle.std.specs.Prelude.{◌≡◌, ◌&&◌, OnOk, map};
ghost use Rattle.std.specs.List.{list_all};
ghost use Rattle.sl_ast.specs.Trees.{by_name};
ghost use Rattle.sl_ast.specs.Views.{action_of, operand_of_address};
ghost use Rattle.sl_spec_rules.specs.Names.{is_among};
ghost use Rattle.sl_spec_actions.specs.ActionRules.{built_in_names, has_address, has_new_left};
ghost use Rattle.sl_spec_actions.specs.ActionRules.{is_address, is_early, is_global, is_next};
ghost use Rattle.sl_spec_actions.specs.ActionRules.{is_start};
ghost use Rattle.sl_spec_actions.specs.ActionRules.{is_usable, sets_context_field};
ghost use Rattle.sl_spec_actions.specs.ActionRules.{uses_early_names, uses_known_names};
ghost use Rattle.sl_spec_actions.specs.Pending.{all_stand, none_stands};
ghost use Rattle.sl_spec_actions.specs.Standing.{Standing};
ghost use Rattle.sl_spec_actions.specs.JoinedStanding.{joined};
ghost use Rattle.sl_spec_actions.specs.Stands.{stands_of};

use crate::levels::Stands;
use crate::names_used::names_in;
use crate::pending::Pending;
use crate::set_names::{is_context_field, is_token_field};
use sl_ast::patterns::{Action, Address};
use sl_spec::{Named, Table, Tables};
use sl_spec_rules::{NameSet, is_among};
use std::alloc::{AllocError, Global};

/// The names that are there from the start.
const BUILT_IN_NAMES: [&str; 6] = [
    "const",
    "unique",
    "instruction",
    "inst_start",
    "inst_next",
    "epsilon",
];

fn is_start(name: &[u8]) -> bool
    ensures { result ≡ is_start name.now }
{
    name == "inst_start".as_bytes()
}

fn is_next(name: &[u8]) -> bool
    ensures { result ≡ is_next name.now }
{
    name == "inst_next".as_bytes()
}

/// Whether the name is there from the start.
#[tactic(auto, unfolding(crate::specs::ActionRules::built_in_names))]
fn is_built_in(name: &[u8]) -> bool
    ensures { result ≡ is_among built_in_names name.now }
{
    is_among(&BUILT_IN_NAMES, name)
}

/// Whether the name is a global one.
pub fn is_global(all: &Named<Table>, t: &Tables, name: &[u8]) -> bool
    ensures { result ≡ is_global all.now t.now name.now }
{
    is_built_in(name)
        || t.spaces.has(name)
        || t.registers.has(name)
        || t.bitranges.has(name)
        || t.userops.has(name)
        || t.tokens.has(name)
        || t.fields.has(name)
        || t.macros.has(name)
        || all.has(name)
}

/// Rule 21, of one action.
#[tactic(auto, unfolding(crate::specs::ActionRules::has_new_left))]
pub(crate) fn has_new_left(
    all: &Named<Table>,
    t: &Tables,
    before: &NameSet,
    action: &Action,
) -> bool
    ensures { result ≡ has_new_left all.now t.now before.now (action_of action.now) }
{
    match action {
        Action::Assign(name, _) => {
            is_context_field(t, name) || !is_global(all, t, name) && !before.has(name)
        }
        Action::GlobalSet(_, _) => true,
    }
}

/// Whether the expression of an action may use the name, whatever stands inside.
fn is_usable(t: &Tables, stands: &Stands, before: &NameSet, name: &[u8]) -> bool
    ensures { result ≡ is_usable t.now (stands_of stands.now) before.now name.now }
{
    is_token_field(t, name) && stands.is_anywhere(name)
        || is_context_field(t, name)
        || before.has(name)
        || is_start(name)
        || is_next(name)
}

/// Rule 22 of a name in the expression of an action, with the names so far.
fn use_name<'a>(
    t: &Tables,
    stands: &Stands,
    before: &NameSet,
    name: &'a [u8],
    known: &mut Pending<'a>,
) -> Result<(), AllocError>
    ensures { OnOk result ((inside : Standing) → all_stand known.new inside.anywhere
        ≡ (all_stand known.old inside.anywhere
        && is_usable t.now (joined (stands_of stands.now) inside) before.now name.now)) }
{
    if is_usable(t, stands, before, name) {
        return Ok(());
    }
    if is_token_field(t, name) {
        known.hang_on(name)?;
    } else {
        known.break_it();
    }
    Ok(())
}

fn use_names<'a>(
    t: &Tables,
    stands: &Stands,
    before: &NameSet,
    names: &[&'a [u8]],
    known: &mut Pending<'a>,
) -> Result<(), AllocError>
    ensures { OnOk result ((inside : Standing) → all_stand known.new inside.anywhere
        ≡ (all_stand known.old inside.anywhere
        && list_all (is_usable t.now (joined (stands_of stands.now) inside) before.now)
        (map (λ n. n.now) names.now))) }
{
    'names: for index in 0..names.len() {
        use_name(t, stands, before, names[index], known)?;
    }
    Ok(())
}

/// Rule 22, with one action more.
#[tactic(auto, unfolding(crate::specs::ActionRules::uses_known_names))]
pub(crate) fn use_known_names<'a>(
    alloc: Global,
    t: &Tables,
    stands: &Stands,
    before: &NameSet,
    action: &Action<'a>,
    known: &mut Pending<'a>,
) -> Result<(), AllocError>
    ensures { OnOk result ((inside : Standing) → all_stand known.new inside.anywhere
        ≡ (all_stand known.old inside.anywhere && uses_known_names t.now
        (joined (stands_of stands.now) inside) before.now (action_of action.now))) }
{
    match action {
        Action::Assign(_, e) => {
            let names = names_in(alloc, e)?;
            use_names(t, stands, before, names.as_slice(), known)
        }
        Action::GlobalSet(_, _) => Ok(()),
    }
}

/// Whether the expression of an action on a context field may use the name, unless it stands behind a
/// table inside.
fn is_early(stands: &Stands, before: &NameSet, name: &[u8]) -> bool
    ensures { result ≡ is_early (stands_of stands.now) before.now name.now }
{
    !is_next(name) && !before.has(name) && !stands.is_behind_table(name)
}

/// Rule 23 of a name in the expression of an action on a context field, with the names so far.
fn use_early_name<'a>(
    stands: &Stands,
    before: &NameSet,
    name: &'a [u8],
    early: &mut Pending<'a>,
) -> Result<(), AllocError>
    ensures { OnOk result ((inside : Standing) → none_stands early.new inside.behind_table
        ≡ (none_stands early.old inside.behind_table
        && is_early (joined (stands_of stands.now) inside) before.now name.now)) }
{
    if is_early(stands, before, name) {
        early.hang_on(name)?;
    } else {
        early.break_it();
    }
    Ok(())
}

fn use_names_early<'a>(
    stands: &Stands,
    before: &NameSet,
    names: &[&'a [u8]],
    early: &mut Pending<'a>,
) -> Result<(), AllocError>
    ensures { OnOk result ((inside : Standing) → none_stands early.new inside.behind_table
        ≡ (none_stands early.old inside.behind_table
        && list_all (is_early (joined (stands_of stands.now) inside) before.now)
        (map (λ n. n.now) names.now))) }
{
    'names: for index in 0..names.len() {
        use_early_name(stands, before, names[index], early)?;
    }
    Ok(())
}

/// Rule 23, with one action more.
#[tactic(auto, unfolding(crate::specs::ActionRules::uses_early_names))]
pub(crate) fn use_early_names<'a>(
    alloc: Global,
    t: &Tables,
    stands: &Stands,
    before: &NameSet,
    action: &Action<'a>,
    early: &mut Pending<'a>,
) -> Result<(), AllocError>
    ensures { OnOk result ((inside : Standing) → none_stands early.new inside.behind_table
        ≡ (none_stands early.old inside.behind_table && uses_early_names t.now
        (joined (stands_of stands.now) inside) before.now (action_of action.now))) }
{
    match action {
        Action::Assign(name, e) => {
            if !is_context_field(t, name) {
                return Ok(());
            }
            let names = names_in(alloc, e)?;
            use_names_early(stands, before, names.as_slice(), early)
        }
        Action::GlobalSet(_, _) => Ok(()),
    }
}

/// Rule 24, of one action.
#[tactic(auto, unfolding(crate::specs::ActionRules::sets_context_field))]
pub(crate) fn sets_context_field(t: &Tables, before: &NameSet, action: &Action) -> bool
    ensures { result ≡ sets_context_field t.now before.now (action_of action.now) }
{
    match action {
        Action::Assign(_, _) => true,
        Action::GlobalSet(_, field) => is_context_field(t, field),
    }
}

/// Whether a `globalset` may have the name as its address, whatever stands inside.
fn is_address(t: &Tables, stands: &Stands, before: &NameSet, name: &[u8]) -> bool
    ensures { result ≡ is_address t.now (stands_of stands.now) before.now (by_name name.now) }
{
    is_start(name)
        || is_next(name)
        || is_token_field(t, name) && stands.is_bare(name)
        || before.has(name)
}

/// Rule 25 of a name that is an address, with the names so far.
fn use_address_name<'a>(
    t: &Tables,
    stands: &Stands,
    before: &NameSet,
    name: &'a [u8],
    address: &mut Pending<'a>,
) -> Result<(), AllocError>
    ensures { OnOk result ((inside : Standing) → all_stand address.new inside.bare
        ≡ (all_stand address.old inside.bare
        && is_address t.now (joined (stands_of stands.now) inside) before.now (by_name name.now))) }
{
    if is_address(t, stands, before, name) {
        return Ok(());
    }
    if is_token_field(t, name) {
        address.hang_on(name)?;
    } else {
        address.break_it();
    }
    Ok(())
}

/// Rule 25 of an address, with the names so far.
fn use_operand<'a>(
    t: &Tables,
    stands: &Stands,
    before: &NameSet,
    at: &Address<'a>,
    address: &mut Pending<'a>,
) -> Result<(), AllocError>
    ensures { OnOk result ((inside : Standing) → all_stand address.new inside.bare
        ≡ (all_stand address.old inside.bare && is_address t.now (joined (stands_of stands.now) inside)
        before.now (operand_of_address at.now))) }
{
    match at {
        Address::Name(name) => use_address_name(t, stands, before, name, address),
        Address::Integer(_) => Ok(()),
    }
}

/// Rule 25, with one action more.
#[tactic(auto, unfolding(crate::specs::ActionRules::has_address))]
pub(crate) fn use_address<'a>(
    t: &Tables,
    stands: &Stands,
    before: &NameSet,
    action: &Action<'a>,
    address: &mut Pending<'a>,
) -> Result<(), AllocError>
    ensures { OnOk result ((inside : Standing) → all_stand address.new inside.bare
        ≡ (all_stand address.old inside.bare && has_address t.now
        (joined (stands_of stands.now) inside) before.now (action_of action.now))) }
{
    match action {
        Action::Assign(_, _) => Ok(()),
        Action::GlobalSet(at, _) => use_operand(t, stands, before, at, address),
    }
}
