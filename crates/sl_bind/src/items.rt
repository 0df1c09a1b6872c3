//! Item by item.

ghost use Rattle.std.specs.Prelude.{◌≡◌, IfOk, map};
ghost use Rattle.sl_ast.specs.Unfolding.{unfolded};
ghost use Rattle.sl_ast.specs.Views.{item_of, macro_of, section_of};
ghost use Rattle.sl_bind.specs.Steps.{GivesAt, GoesOn, constructor_item};
ghost use Rattle.sl_bind.specs.Verdict.{at, beginning, item_step, last_operands, macro_step};
ghost use Rattle.sl_bind.specs.Verdict.{macro_taken, placed_step, section_step, single_step};
ghost use Rattle.sl_bind.specs.Verdict.{with_constructor_of};
ghost use Rattle.sl_spec_constructors.specs.ConstructorRules.{is_of_root};
ghost use Rattle.sl_spec_constructors.specs.Made.{IsMadeFor, StaysMade};
ghost use Rattle.sl_spec_constructors.specs.WholeText.{table_name};
ghost use Rattle.sl_spec_rules.specs.Demands.{Gives, first_broken, run};
ghost use Rattle.sl_section_rules.specs.SectionRules.{section_demands};
ghost use Rattle.sl_spec.specs.Numbers.{AreNumbered};
ghost use Rattle.sl_spec.specs.Unfolded.{all_placed, placed, unfolded_one};
ghost use Rattle.sl_spec.specs.ConstructorItems.{constructors_in};

use crate::stop::{Stop, stop_at};
use sl_ast::constructors::{Macro, Section};
use sl_ast::items::{Item, ItemKind};
use sl_section_rules::{Signature, Whole, add_signature, judge_macro, judge_section, signature_of};
use sl_spec::{Macro as MacroEntry, Named, Table, Tables, Unfolded, add_unfolded};
use sl_spec_constructors::{MadeOfBlocks, define_constructor, table_name};
use sl_spec_definitions::{Known, begin, define, opening};
use sl_spec_registers::is_new;
use sl_spec_rules::Fault;
use std::alloc::{AllocError, Global};

/// What is known before an item, and the macros so far as calls of them are judged.
#[derive(Drop)]
pub struct Progress<'a> {
    pub known: Known<'a>,
    pub macros: Named<'a, Signature<'a>>,
}

/// What is known before the first item.
pub fn beginning<'a>(alloc: Global) -> Result<Progress<'a>, AllocError>
    ensures { IfOk result (λ progress. progress ≡ beginning) }
{
    let known = opening(alloc)?;
    Ok(Progress {
        known,
        macros: Named::new(alloc),
    })
}

/// Adds a macro, the item of this number, by the macros before it: rule 3, and rules 26 to 31 of its
/// body.
fn define_macro<'a>(
    alloc: Global,
    whole: &Whole<'a>,
    macros: &Named<'a, Signature<'a>>,
    t: &mut Tables<'a>,
    number: u32,
    of: &Macro<'a>,
) -> Result<(), Fault>
    ensures { Gives (λ _. t.new) result
        (macro_step whole.now macros.now t.old number (macro_of of.now)) }
{
    let name = of.name;
    if !is_new(t, name) {
        return Err(Fault::Rule(3));
    }
    t.macros.add(name, MacroEntry { name, item: number })?;
    match judge_macro(alloc, whole, t, macros, of)? {
        Some(rule) => Err(Fault::Rule(rule)),
        None => Ok(()),
    }
}

/// Takes a macro.
fn take_macro<'a>(
    alloc: Global,
    whole: &Whole<'a>,
    progress: &mut Progress<'a>,
    number: u32,
    of: &Macro<'a>,
) -> Result<(), Fault>
    ensures { Gives (λ _. progress.new) result
        (macro_taken whole.now progress.old number (macro_of of.now)) }
{
    let tables = &mut progress.known.tables;
    define_macro(alloc, whole, &progress.macros, tables, number, of)?;
    let signature = signature_of(alloc, &progress.macros, of)?;
    add_signature(&mut progress.macros, signature)?;
    Ok(())
}

/// Takes an item that is no constructor and no block.
fn single<'a>(
    alloc: Global,
    whole: &Whole<'a>,
    progress: &mut Progress<'a>,
    number: u32,
    item: &Item<'a>,
) -> Result<(), Fault>
    ensures { Gives (λ _. progress.new) result
        (single_step whole.now progress.old number (item_of item.now)) }
{
    define(alloc, &mut progress.known, item)?;
    match &item.kind {
        ItemKind::Macro(of) => take_macro(alloc, whole, progress, number, of),
        ItemKind::Define(_) => Ok(()),
        ItemKind::AttachList(_, _, _) => Ok(()),
        ItemKind::AttachOne(_, _, _) => Ok(()),
        ItemKind::Constructor(_) => Ok(()),
        ItemKind::With(_, _) => Ok(()),
    }
}

/// Adds a constructor: rules up to 25.
fn add_constructor<'s, 'a>(
    alloc: Global,
    tables: &Named<'a, Table<'a>>,
    known: &mut Known<'a>,
    of: &Unfolded<'s, 'a>,
    made: &mut MadeOfBlocks<'a>,
) -> Result<(), Fault>
    requires { IsMadeFor tables.now known.old.tables of.now.heads.items made.old }
    ensures gives { Gives (λ _. known.new) result (with_constructor_of tables.now known.old
        (placed of.now).0 (placed of.now).1) }
    ensures kept { IfOk result (λ _.
        StaysMade tables.now known.old.tables of.now.heads.items made.old made.new) }
{
    begin(known, false)?;
    define_constructor(alloc, tables, &mut known.tables, of, made)
}

/// Whether it is a constructor of `instruction`.
fn is_of_root<'s, 'a>(of: &Unfolded<'s, 'a>) -> bool
    ensures { result ≡ is_of_root (table_name (placed of.now).1) }
{
    table_name(of) == b"instruction".as_slice()
}

/// The section of a constructor.
fn section<'s, 'a>(of: &Unfolded<'s, 'a>) -> &'s Section<'a>
    ensures { section_of result.now ≡ (placed of.now).1.section }
{
    let own = of.own;
    &own.section
}

/// The first of rules 26 to 31 that a section breaks, whose constructor was added last.
fn judge<'a>(
    alloc: Global,
    whole: &Whole<'a>,
    progress: &Progress<'a>,
    is_root: bool,
    section: &Section<'a>,
) -> Result<Option<u8>, AllocError>
    ensures { IfOk result (λ broken. broken ≡ first_broken (section_demands whole.now
        progress.now.known.tables progress.now.macros (last_operands progress.now.known.tables)
        is_root (section_of section.now))) }
{
    let t = &progress.known.tables;
    let macros = &progress.macros;
    let last = t.constructors.len().saturating_sub(1);
    match t.constructors.get(last) {
        Some(ctor) => {
            let operands = ctor.operands.as_slice();
            judge_section(alloc, whole, t, macros, operands, is_root, section)
        }
        None => judge_section(alloc, whole, t, macros, &[], is_root, section),
    }
}

/// Judges the section of a constructor that was added last.
fn demand_section<'s, 'a>(
    alloc: Global,
    whole: &Whole<'a>,
    progress: &Progress<'a>,
    of: &Unfolded<'s, 'a>,
) -> Result<(), Fault>
    ensures { Gives (λ _. progress.now) result
        (section_step whole.now (placed of.now).1 progress.now) }
{
    match judge(alloc, whole, progress, is_of_root(of), section(of))? {
        Some(rule) => Err(Fault::Rule(rule)),
        None => Ok(()),
    }
}

/// Takes a constructor: rules up to 25, and then 26 to 31 of its section.
fn constructor<'s, 'a>(
    alloc: Global,
    whole: &Whole<'a>,
    progress: &mut Progress<'a>,
    of: &Unfolded<'s, 'a>,
    made: &mut MadeOfBlocks<'a>,
) -> Result<(), Fault>
    requires { IsMadeFor whole.now.tables progress.old.known.tables of.now.heads.items made.old }
    ensures gives { Gives (λ _. progress.new) result
        (item_step whole.now progress.old (constructor_item of.now)) }
    ensures kept { IfOk result (λ _.
        StaysMade whole.now.tables progress.old.known.tables of.now.heads.items made.old made.new) }
{
    add_constructor(alloc, &whole.tables, &mut progress.known, of, made)?;
    demand_section(alloc, whole, progress, of)
}

/// Takes a constructor, and tells its item where a rule is broken.
fn take_constructor<'s, 'a>(
    alloc: Global,
    whole: &Whole<'a>,
    progress: &mut Progress<'a>,
    of: &Unfolded<'s, 'a>,
    made: &mut MadeOfBlocks<'a>,
) -> Result<(), Stop>
    requires { IsMadeFor whole.now.tables progress.old.known.tables of.now.heads.items made.old }
    ensures gives { GivesAt (λ _. progress.new) result
        (placed_step whole.now progress.old (constructor_item of.now)) }
    ensures kept { IfOk result (λ _.
        StaysMade whole.now.tables progress.old.known.tables of.now.heads.items made.old made.new) }
{
    match constructor(alloc, whole, progress, of, made) {
        Ok(()) => Ok(()),
        Err(fault) => Err(stop_at(of.number, fault)),
    }
}

/// Takes constructors in their order. What is asked of the pattern and the actions of a block is made
/// once for all of them.
fn take_constructors<'s, 'a>(
    alloc: Global,
    whole: &Whole<'a>,
    progress: &mut Progress<'a>,
    all: &[Unfolded<'s, 'a>],
) -> Result<(), Stop>
    requires { AreNumbered all.now }
    ensures { GivesAt (λ _. progress.new) result
        (run (placed_step whole.now) progress.old (map constructor_item all.now)) }
{
    let mut made = MadeOfBlocks::new(alloc);
    'constructors: for index in 0..all.len() {
        take_constructor(alloc, whole, progress, &all[index], &mut made)?;
    }
    Ok(())
}

/// Takes an item that is no constructor and no block, and tells it where a rule is broken.
fn take_single<'a>(
    alloc: Global,
    whole: &Whole<'a>,
    progress: &mut Progress<'a>,
    number: u32,
    item: &Item<'a>,
) -> Result<(), Stop>
    ensures { GivesAt (λ _. progress.new) result
        (at number (single_step whole.now progress.old number (item_of item.now))) }
{
    match single(alloc, whole, progress, number, item) {
        Ok(()) => Ok(()),
        Err(fault) => Err(stop_at(number, fault)),
    }
}

/// Takes an item that is this number, or the constructors that it comes to.
fn take_unfolded<'s, 'a>(
    alloc: Global,
    whole: &Whole<'a>,
    progress: &mut Progress<'a>,
    number: u32,
    item: &Item<'a>,
    constructors: &[Unfolded<'s, 'a>],
) -> Result<(), Stop>
    requires placed { all_placed constructors.now
        ≡ constructors_in (unfolded_one number (item_of item.now)) }
    requires numbered { AreNumbered constructors.now }
    ensures { GivesAt (λ _. progress.new) result
        (run (placed_step whole.now) progress.old (unfolded_one number (item_of item.now))) }
{
    match &item.kind {
        ItemKind::Constructor(_) => take_constructors(alloc, whole, progress, constructors),
        ItemKind::With(_, _) => take_constructors(alloc, whole, progress, constructors),
        ItemKind::Define(_) => take_single(alloc, whole, progress, number, item),
        ItemKind::AttachList(_, _, _) => take_single(alloc, whole, progress, number, item),
        ItemKind::AttachOne(_, _, _) => take_single(alloc, whole, progress, number, item),
        ItemKind::Macro(_) => take_single(alloc, whole, progress, number, item),
    }
}

/// Takes an item of this number. The number behind it.
fn take_item<'a>(
    alloc: Global,
    whole: &Whole<'a>,
    progress: &mut Progress<'a>,
    number: u32,
    item: &Item<'a>,
) -> Result<u32, Stop>
    ensures taken { GivesAt (λ _. progress.new) result
        (run (placed_step whole.now) progress.old (unfolded_one number (item_of item.now))) }
    ensures next { IfOk result (GoesOn number (item_of item.now)) }
{
    let mut constructors = Vec::new(alloc);
    let next = add_unfolded(alloc, number, item, &mut constructors)?;
    take_unfolded(
        alloc,
        whole,
        progress,
        number,
        item,
        constructors.as_slice(),
    )?;
    Ok(next)
}

/// Takes all items of a text in their order.
pub fn take_items<'a>(
    alloc: Global,
    whole: &Whole<'a>,
    progress: &mut Progress<'a>,
    items: &[Item<'a>],
) -> Result<(), Stop>
    ensures { GivesAt (λ _. progress.new) result
        (run (placed_step whole.now) progress.old (unfolded (map item_of items.now))) }
{
    let mut number = 0;
    'items: for index in 0..items.len() {
        number = take_item(alloc, whole, progress, number, &items[index])?;
    }
    Ok(())
}
