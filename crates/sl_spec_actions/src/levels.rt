//! Nested blocks and a constructor in them, level by level.

ghost use Rattle.std.specs.Prelude.{◌≡◌};
ghost use Rattle.sl_spec_actions.specs.Levels.{any_unwanted, is_unwanted, nothing_judged};
ghost use Rattle.sl_spec_actions.specs.Levels.{stands_in};
ghost use Rattle.sl_spec_actions.specs.Stands.{stands_of};
ghost use Rattle.sl_spec_rules.specs.Names.{is_among};

use crate::pattern_names::PatternNames;
use crate::pending::Pending;
use crate::set_names::name_at;
use sl_spec_rules::NameSet;
use std::alloc::Global;
use std::marker::Model;

/// What is known of actions, whatever patterns stand inside: the action names that they set, whether
/// rules 21 and 24 hold, and on which names rules 22, 23 and 25 hang.
#[derive(Drop)]
pub(crate) struct Judged<'a> {
    pub given: NameSet<'a>,
    pub new_left: bool,
    pub known_names: Pending<'a>,
    pub early_names: Pending<'a>,
    pub context_field: bool,
    pub address: Pending<'a>,
}

impl<'a> Model for Judged<'a> {
    ghost use Rattle.sl_spec_actions.specs.Levels as spec;

    ghost Value = { spec.Judged };

    ghost view = { λ j. record {
      given = j.given;
      new_left = j.new_left;
      known_names = j.known_names;
      early_names = j.early_names;
      context_field = j.context_field;
      address = j.address;
    } };
}

impl<'a> Judged<'a> {
    /// What is known of no actions.
    pub fn new(alloc: Global) -> Self
        ensures { result ≡ nothing_judged }
    {
        Judged {
            given: NameSet::new(alloc),
            new_left: true,
            known_names: Pending::new(alloc),
            early_names: Pending::new(alloc),
            context_field: true,
            address: Pending::new(alloc),
        }
    }
}

/// A block or a constructor: the number of its item, the names of its pattern, and what is known of
/// the actions down to it. Rule 23 hangs on its own names here; those of the blocks round it are kept
/// with them.
#[derive(Drop)]
pub(crate) struct Level<'a> {
    pub number: u32,
    pub names: PatternNames<'a>,
    pub judged: Judged<'a>,
}

impl<'a> Model for Level<'a> {
    ghost use Rattle.sl_spec_actions.specs.Levels as spec;

    ghost Value = { spec.Level };

    ghost view = { λ l. record { number = l.number; names = l.names; judged = l.judged } };
}

/// Whether rule 23 hangs on the name at one of the levels.
fn is_unwanted(levels: &[Level], name: &[u8]) -> bool
    ensures { result ≡ is_unwanted levels.now name.now }
{
    levels
        .iter()
        .any(|level| level.judged.early_names.names.has(name))
}

/// Whether it hangs on one of these names at one of the levels.
pub(crate) fn any_unwanted(levels: &[Level], names: &NameSet) -> bool
    ensures { result ≡ any_unwanted levels.now (is_among names.now) }
{
    'names: for index in 0..names.len() {
        if is_unwanted(levels, name_at(names, index)) {
            return true;
        }
    }
    false
}

/// The patterns round those that are inside: those of levels, and one in them.
#[derive(Drop)]
pub(crate) struct Stands<'s, 'a> {
    pub around: &'s [Level<'a>],
    pub own: &'s PatternNames<'a>,
}

/// Whether the name stands in the pattern of one of the levels.
fn is_anywhere(levels: &[Level], name: &[u8]) -> bool
    ensures { result ≡ (stands_in levels.now).anywhere name.now }
{
    levels.iter().any(|level| level.names.is_anywhere(name))
}

/// Whether it stands alone in one of them.
fn is_bare(levels: &[Level], name: &[u8]) -> bool
    ensures { result ≡ (stands_in levels.now).bare name.now }
{
    levels.iter().any(|level| level.names.is_bare(name))
}

/// Whether it stands behind a table in one of them.
fn is_behind_table(levels: &[Level], name: &[u8]) -> bool
    ensures { result ≡ (stands_in levels.now).behind_table name.now }
{
    levels.iter().any(|level| level.names.is_behind_table(name))
}

impl Stands<'_, '_> {
    /// Whether the name stands in one of the patterns.
    pub fn is_anywhere(&self, name: &[u8]) -> bool
        ensures { result ≡ (stands_of self.now).anywhere name.now }
    {
        is_anywhere(self.around, name) || self.own.is_anywhere(name)
    }

    /// Whether it stands alone in one of them.
    pub fn is_bare(&self, name: &[u8]) -> bool
        ensures { result ≡ (stands_of self.now).bare name.now }
    {
        is_bare(self.around, name) || self.own.is_bare(name)
    }

    /// Whether it stands behind a table in one of them.
    pub fn is_behind_table(&self, name: &[u8]) -> bool
        ensures { result ≡ (stands_of self.now).behind_table name.now }
    {
        is_behind_table(self.around, name) || self.own.is_behind_table(name)
    }
}
