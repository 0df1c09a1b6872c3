//! What the whole text says of names.

ghost use Rattle.std.specs.Prelude.{◌≡◌, IfOk, OnOk, fold, map, option_map};
ghost use Rattle.sl_ast.specs.Views as a;
ghost use Rattle.sl_ast.specs.Views.{bytes, item_of};
ghost use Rattle.sl_section_resolve.specs.Steps.{with_name};
ghost use Rattle.sl_section_rules.specs.WholeText.{context_at, context_defined, context_of};
ghost use Rattle.sl_section_rules.specs.WholeText.{whole_of, with_attached, with_names};
ghost use Rattle.sl_section_rules.specs.WholeText.{with_variables};

use crate::macros::add_once;
use sl_ast::definitions::{AttachKind, Definition, Names};
use sl_ast::items::{Item, ItemKind};
use sl_spec::{Named, Table};
use sl_spec_rules::NameSet;
use std::alloc::{AllocError, Global};
use std::marker::Model;

/// What the whole text says of names, also behind a section that names them: all tables, the
/// register of the context, and the fields that are attached to variables.
#[derive(Drop)]
pub struct Whole<'a> {
    pub tables: Named<'a, Table<'a>>,
    pub context: Option<&'a [u8]>,
    pub attached: NameSet<'a>,
}

impl<'a> Model for Whole<'a> {
    ghost use Rattle.std.specs.Prelude.{option_map};
    ghost use Rattle.sl_ast.specs.Views.{bytes};
    ghost use Rattle.sl_section_rules.specs.WholeText as spec;

    ghost Value = { spec.Whole };

    ghost view = { λ w. record {
      tables = w.tables;
      context = option_map bytes w.context;
      attached = w.attached;
    } };
}

fn context_defined<'a>(of: &Definition<'a>) -> Option<&'a [u8]>
    ensures { option_map bytes result ≡ context_defined (a.definition_of of.now) }
{
    match of {
        Definition::Context(name, _) => Some(*name),
        Definition::Endian(_) => None,
        Definition::Alignment(_) => None,
        Definition::Space(_, _) => None,
        Definition::BitRanges(_, _) => None,
        Definition::PcodeOps(_) => None,
        Definition::Token(_, _, _, _) => None,
        Definition::Registers(_, _, _, _) => None,
    }
}

fn context_at<'a>(item: &Item<'a>) -> Option<&'a [u8]>
    ensures { option_map bytes result ≡ context_at (item_of item.now) }
{
    match &item.kind {
        ItemKind::Define(of) => context_defined(of),
        ItemKind::AttachList(_, _, _) => None,
        ItemKind::AttachOne(_, _, _) => None,
        ItemKind::Macro(_) => None,
        ItemKind::Constructor(_) => None,
        ItemKind::With(_, _) => None,
    }
}

/// The register of the first `define context`.
fn context_of<'a>(items: &[Item<'a>]) -> Option<&'a [u8]>
    ensures { option_map bytes result ≡ context_of (map item_of items.now) }
{
    'items: for index in 0..items.len() {
        let context = context_at(&items[index]);
        if context.is_some() {
            return context;
        }
    }
    None
}

/// Adds names, each once.
fn add_all<'a>(all: &mut NameSet<'a>, names: &[&'a [u8]]) -> Result<(), AllocError>
    ensures { OnOk result (all.new ≡ fold with_name all.old (map bytes names.now)) }
{
    'names: for index in 0..names.len() {
        add_once(all, names[index])?;
    }
    Ok(())
}

fn add_names<'a>(all: &mut NameSet<'a>, names: &Names<'a>) -> Result<(), AllocError>
    ensures { OnOk result (all.new ≡ with_names all.old (a.names_of names.now)) }
{
    match names {
        Names::One(name) => add_once(all, name),
        Names::List(names) => add_all(all, names.as_slice()),
    }
}

/// Adds the fields of an attached list, where it is one of variables.
fn add_variables<'a>(
    all: &mut NameSet<'a>,
    kind: AttachKind,
    names: &Names<'a>,
) -> Result<(), AllocError>
    ensures { OnOk result (all.new ≡ with_variables all.old kind (a.names_of names.now)) }
{
    match kind {
        AttachKind::Variables => add_names(all, names),
        AttachKind::Names => Ok(()),
        AttachKind::Values => Ok(()),
    }
}

/// Adds the fields that an item attaches to variables.
fn add_attached<'a>(all: &mut NameSet<'a>, item: &Item<'a>) -> Result<(), AllocError>
    ensures { OnOk result (all.new ≡ with_attached all.old (item_of item.now)) }
{
    match &item.kind {
        ItemKind::AttachList(kind, names, _) => add_variables(all, *kind, names),
        ItemKind::AttachOne(kind, names, _) => add_variables(all, *kind, names),
        ItemKind::Define(_) => Ok(()),
        ItemKind::Macro(_) => Ok(()),
        ItemKind::Constructor(_) => Ok(()),
        ItemKind::With(_, _) => Ok(()),
    }
}

/// What a text says of names, with all its tables.
pub fn whole_of<'a>(
    alloc: Global,
    tables: Named<'a, Table<'a>>,
    items: &[Item<'a>],
) -> Result<Whole<'a>, AllocError>
    ensures { IfOk result (λ w. w ≡ whole_of tables.entry (map item_of items.now)) }
{
    let mut attached = NameSet::new(alloc);
    'items: for index in 0..items.len() {
        add_attached(&mut attached, &items[index])?;
    }
    Ok(Whole {
        tables,
        context: context_of(items),
        attached,
    })
}
