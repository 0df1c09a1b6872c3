//! How names stand in patterns.

ghost use Rattle.std.specs.Prelude.{◌≡◌, OnOk, IfOk};
ghost use Rattle.sl_spec_actions.specs.Blocks.{standing_in_head};
ghost use Rattle.sl_ast.specs.Views.{head_of, pattern_of};
ghost use Rattle.sl_spec_actions.specs.PatternNames.{no_names, standing_of, with_part};
ghost use Rattle.sl_spec_actions.specs.Standing.{standing};
ghost use Rattle.sl_spec_actions.specs.Parts.{parts_of};
ghost use Rattle.sl_spec_rules.specs.Names.{is_among};

use crate::part::Part;
use crate::set_names::add_once;
use crate::walk::parts_of;
use sl_ast::constructors::Head;
use sl_ast::patterns::Pattern;
use sl_spec::{Named, Table};
use sl_spec_rules::NameSet;
use std::alloc::{AllocError, Global};
use std::marker::Model;

/// The names of a pattern: all of them, those that stand alone, and those right of a `;` whose left
/// side holds a table.
#[derive(Drop)]
pub(crate) struct PatternNames<'a> {
    pub anywhere: NameSet<'a>,
    pub bare: NameSet<'a>,
    pub behind_table: NameSet<'a>,
}

impl<'a> Model for PatternNames<'a> {
    ghost use Rattle.sl_spec_actions.specs.PatternNames as spec;

    ghost Value = { spec.PatternNames };

    ghost view = { λ n. record {
      anywhere = n.anywhere;
      bare = n.bare;
      behind_table = n.behind_table;
    } };
}

impl<'a> PatternNames<'a> {
    /// The names of no pattern.
    pub fn new(alloc: Global) -> Self
        ensures { result ≡ no_names }
    {
        PatternNames {
            anywhere: NameSet::new(alloc),
            bare: NameSet::new(alloc),
            behind_table: NameSet::new(alloc),
        }
    }
}

impl PatternNames<'_> {
    pub(crate) fn is_anywhere(&self, name: &[u8]) -> bool
        ensures { result ≡ is_among self.now.anywhere name.now }
    {
        self.anywhere.has(name)
    }

    pub(crate) fn is_bare(&self, name: &[u8]) -> bool
        ensures { result ≡ is_among self.now.bare name.now }
    {
        self.bare.has(name)
    }

    pub(crate) fn is_behind_table(&self, name: &[u8]) -> bool
        ensures { result ≡ is_among self.now.behind_table name.now }
    {
        self.behind_table.has(name)
    }
}

/// Adds the name of a part.
fn add_part<'a>(names: &mut PatternNames<'a>, part: &Part<'a>) -> Result<(), AllocError>
    ensures { OnOk result (names.new ≡ with_part names.old part.now) }
{
    add_once(&mut names.anywhere, part.name)?;
    if part.bare {
        add_once(&mut names.bare, part.name)?;
    }
    if part.behind_table {
        add_once(&mut names.behind_table, part.name)?;
    }
    Ok(())
}

/// The names of the parts of a pattern.
fn names_of<'a>(alloc: Global, parts: &[Part<'a>]) -> Result<PatternNames<'a>, AllocError>
    ensures { IfOk result (λ names. standing_of names ≡ standing parts.now) }
{
    let mut names = PatternNames::new(alloc);
    'parts: for index in 0..parts.len() {
        add_part(&mut names, &parts[index])?;
    }
    Ok(names)
}

/// The names of a pattern. `tables` are all tables of the text.
pub(crate) fn names_of_pattern<'a>(
    alloc: Global,
    tables: &Named<'a, Table<'a>>,
    pattern: &Pattern<'a>,
) -> Result<PatternNames<'a>, AllocError>
    ensures { IfOk result (λ names. standing_of names
        ≡ standing (parts_of tables.now (pattern_of pattern.now))) }
{
    let parts = parts_of(alloc, tables, pattern)?;
    names_of(alloc, parts.as_slice())
}

/// The names of a block's pattern, if it has one.
pub(crate) fn names_of_head<'a>(
    alloc: Global,
    tables: &Named<'a, Table<'a>>,
    head: &Head<'a>,
) -> Result<PatternNames<'a>, AllocError>
    ensures { IfOk result (λ names. standing_of names
        ≡ standing_in_head tables.now (head_of head.now)) }
{
    match &head.pattern {
        Some(pattern) => names_of_pattern(alloc, tables, pattern),
        None => Ok(PatternNames::new(alloc)),
    }
}
