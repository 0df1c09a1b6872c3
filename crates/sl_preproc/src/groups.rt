//! Conditional groups.

ghost use Rattle.std.specs.Prelude.{◌≡◌, [], ◌∷◌, reverse, OnOk, MatchOption, Ok};
ghost use Rattle.sl_preproc_directives.specs.Held.{values_of};
ghost use Rattle.sl_preproc_directives.specs.Given.{Gives};
ghost use Rattle.sl_preproc.specs.Groups.{is_taken, is_live, is_dead, chosen_if, new_group, with_branch, opened, elif_branch, at_elif, is_well_ended, else_branch, at_else, at_endif, turned_by, is_conditional, outermost};
ghost use Rattle.sl_preproc.specs.Stacks.{stack_of, IsFirst};

use sl_preproc_directives::definitions::Definitions;
use sl_preproc_directives::directive::{Keyword, judge};
use sl_preproc_directives::fault::{Cause, Fault};
use sl_preproc_directives::parts::is_ended;
use std::alloc::Global;

/// How a branch of a group stands to the branch that the group chooses.
#[derive(Clone, Copy, Debug, PartialEq, Eq)]
pub enum Branch {
    /// The group stands in text that isn't live.
    Dead,
    /// No branch has been chosen yet.
    Waiting,
    /// This branch is chosen.
    Taken,
    /// A branch before it was chosen.
    Passed,
}

/// A group that is open: the line of its `@if`, its branch, and whether that is the one of `@else`.
#[derive(Clone, Copy, Debug)]
pub struct Group {
    pub line: u32,
    pub branch: Branch,
    pub has_else: bool,
}

/// The open groups of a file, the outermost first.
pub type Groups = Vec<Group>;

fn is_taken(branch: Branch) -> bool
    ensures { result ≡ is_taken branch }
{
    matches!(branch, Branch::Taken)
}

fn is_dead(branch: Branch) -> bool
    ensures { result ≡ is_dead branch }
{
    matches!(branch, Branch::Dead)
}

fn chosen_if(holds: bool) -> Branch
    ensures { result ≡ chosen_if holds }
{
    if holds {
        Branch::Taken
    } else {
        Branch::Waiting
    }
}

/// Opens a group within the others.
fn push(group: Group, groups: &mut Groups) -> Result<(), Fault>
    ensures { Gives (λ _. stack_of groups.new) result (Ok (group ∷ stack_of groups.old)) }
{
    groups.push(group)?;
    Ok(())
}

/// Takes the innermost group away.
fn pop(groups: &mut Groups) -> Option<Group>
    ensures { MatchOption result (stack_of groups.old ≡ []) (λ g. stack_of groups.old ≡ g ∷ stack_of groups.new) }
{
    groups.pop()
}

/// The innermost group.
fn innermost(groups: &Groups) -> Option<Group>
    ensures { MatchOption result (stack_of groups.now ≡ []) (λ g. IsFirst g (stack_of groups.now)) }
{
    groups.last().copied()
}

/// Whether the lines here are live.
pub fn is_live(groups: &Groups) -> bool
    ensures { result ≡ is_live (stack_of groups.now) }
{
    match innermost(groups) {
        Some(group) => is_taken(group.branch),
        None => true,
    }
}

/// Opens a group at its `@if`, which stands on this line.
#[tactic(auto, unfolding(crate::specs::Groups::opened))]
pub fn open(
    alloc: Global,
    defs: &Definitions,
    line: u32,
    keyword: Keyword,
    rest: &[u8],
    groups: &mut Groups,
) -> Result<(), Fault>
    ensures { Gives (λ _. stack_of groups.new) result (opened (values_of defs.now) line keyword rest.now (stack_of groups.old)) }
{
    let branch = if is_live(groups) {
        let holds = judge(alloc, defs, keyword, rest)?;
        chosen_if(holds)
    } else {
        Branch::Dead
    };
    push(
        Group {
            line,
            branch,
            has_else: false,
        },
        groups,
    )
}

fn elif_branch(
    alloc: Global,
    defs: &Definitions,
    keyword: Keyword,
    rest: &[u8],
    branch: Branch,
) -> Result<Branch, Fault>
    ensures { Gives (λ b. b) result (elif_branch (values_of defs.now) keyword rest.now branch) }
{
    match branch {
        Branch::Dead => Ok(Branch::Dead),
        Branch::Waiting => {
            let holds = judge(alloc, defs, keyword, rest)?;
            Ok(chosen_if(holds))
        }
        Branch::Taken | Branch::Passed => Ok(Branch::Passed),
    }
}

/// Goes on to the branch of an `@elif`.
#[tactic(auto, unfolding(crate::specs::Groups::at_elif))]
pub fn at_elif(
    alloc: Global,
    defs: &Definitions,
    keyword: Keyword,
    rest: &[u8],
    groups: &mut Groups,
) -> Result<(), Fault>
    ensures { Gives (λ _. stack_of groups.new) result (at_elif (values_of defs.now) keyword rest.now (stack_of groups.old)) }
{
    let Some(group) = pop(groups) else {
        return Err(Fault::Refused(Cause::Unbalanced));
    };
    if group.has_else {
        return Err(Fault::Refused(Cause::Unbalanced));
    }
    let branch = elif_branch(alloc, defs, keyword, rest, group.branch)?;
    push(
        Group {
            line: group.line,
            branch,
            has_else: false,
        },
        groups,
    )
}

fn is_well_ended(branch: Branch, rest: &[u8]) -> bool
    ensures { result ≡ is_well_ended branch rest.now }
{
    is_dead(branch) || is_ended(rest)
}

fn else_branch(branch: Branch) -> Branch
    ensures { result ≡ else_branch branch }
{
    match branch {
        Branch::Dead => Branch::Dead,
        Branch::Waiting => Branch::Taken,
        Branch::Taken | Branch::Passed => Branch::Passed,
    }
}

/// Goes on to the branch of an `@else`.
#[tactic(auto, unfolding(crate::specs::Groups::at_else))]
pub fn at_else(rest: &[u8], groups: &mut Groups) -> Result<(), Fault>
    ensures { Gives (λ _. stack_of groups.new) result (at_else rest.now (stack_of groups.old)) }
{
    let Some(group) = pop(groups) else {
        return Err(Fault::Refused(Cause::Unbalanced));
    };
    if group.has_else {
        return Err(Fault::Refused(Cause::Unbalanced));
    }
    if !is_well_ended(group.branch, rest) {
        return Err(Fault::Refused(Cause::BadDirective));
    }
    push(
        Group {
            line: group.line,
            branch: else_branch(group.branch),
            has_else: true,
        },
        groups,
    )
}

/// Closes a group at its `@endif`.
#[tactic(auto, unfolding(crate::specs::Groups::at_endif))]
pub fn at_endif(rest: &[u8], groups: &mut Groups) -> Result<(), Fault>
    ensures { Gives (λ _. stack_of groups.new) result (at_endif rest.now (stack_of groups.old)) }
{
    let Some(group) = pop(groups) else {
        return Err(Fault::Refused(Cause::Unbalanced));
    };
    if is_well_ended(group.branch, rest) {
        Ok(())
    } else {
        Err(Fault::Refused(Cause::BadDirective))
    }
}

/// Follows a conditional directive, which stands on this line.
#[tactic(auto, unfolding(crate::specs::Groups::turned_by))]
pub fn turn(
    alloc: Global,
    defs: &Definitions,
    line: u32,
    keyword: Keyword,
    rest: &[u8],
    groups: &mut Groups,
) -> Result<(), Fault>
    ensures { Gives (λ _. stack_of groups.new) result (turned_by (values_of defs.now) line keyword rest.now (stack_of groups.old)) }
{
    match keyword {
        Keyword::Elif => at_elif(alloc, defs, keyword, rest, groups),
        Keyword::Else => at_else(rest, groups),
        Keyword::Endif => at_endif(rest, groups),
        _ => open(alloc, defs, line, keyword, rest, groups),
    }
}

pub fn is_conditional(keyword: Keyword) -> bool
    ensures { result ≡ is_conditional keyword }
{
    !matches!(
        keyword,
        Keyword::Include | Keyword::Define | Keyword::Undef | Keyword::Unknown
    )
}
