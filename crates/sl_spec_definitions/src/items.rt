//! Items that are definitions or attached lists, with all rules that they are judged by.

ghost use Rattle.std.specs.Prelude.{◌≡◌, ◌≤◌, ◌∷◌, true, IfErr, IfOk, map};
ghost use Rattle.sl_ast.specs.Views.{bit_range_of, definition_of, item_of, kind_of, member_of, names_of};
ghost use Rattle.sl_spec_rules.specs.Demands.{Gives};
ghost use Rattle.sl_spec_rules.specs.declared.fault.Fault.{Fault};
ghost use Rattle.sl_spec_registers.specs.RegisterRules.{bit_range_step, register_step};
ghost use Rattle.sl_spec_registers.specs.UserOps.{userop_step};
ghost use Rattle.sl_spec_definitions.specs.AttachRules.{attach_step};
ghost use Rattle.sl_spec_definitions.specs.Beginning.{alignment_step, is_alignment, with_endian};
ghost use Rattle.sl_spec_definitions.specs.Items.{all_names, defined, definition_step, taken};

use crate::attached;
use crate::context::define_context;
use crate::known::{Known, begin, is_endian};
use crate::tokens::{define_token, endian_of};
use sl_ast::definitions::{AttachKind, BitRange, ByteOrder, Definition, Member, Names};
use sl_ast::items::{Item, ItemKind};
use sl_spec::Tables;
use sl_spec_registers::{define_bit_ranges, define_registers, define_space, define_userops};
use sl_spec_rules::Fault;
use std::alloc::{AllocError, Global};

/// Rule 2: no alignment stands yet, and it is 1 to 16.
fn is_alignment(stands: bool, n: u64) -> bool
    ensures is { result ≡ is_alignment stands n }
    ensures most { result ≡ true → n ≤ 16 }
{
    !stands && 1 <= n && n <= 16
}

/// Sets the byte order, with no rule but rule 1 of its item (SLEIGH manual, "Endianess Definition").
pub fn set_endian(t: &mut Tables, order: ByteOrder)
    ensures { t.new ≡ with_endian t.old order }
{
    t.endian = endian_of(order);
}

/// Sets the alignment (SLEIGH manual, "Alignment Definition").
pub fn set_alignment(known: &mut Known, n: u64) -> Result<(), Fault>
    ensures step { Gives (λ _. known.new) result (alignment_step known.old n) }
    ensures takes_no_memory { IfErr result (λ fault. fault ≡ Fault.Rule 2) }
{
    if !is_alignment(known.alignment_stands, n) {
        return Err(Fault::Rule(2));
    }
    known.tables.alignment = n as u8;
    known.alignment_stands = true;
    Ok(())
}

/// Defines one operation or those in brackets.
fn userops<'a>(alloc: Global, t: &mut Tables<'a>, names: &Names<'a>) -> Result<(), Fault>
    ensures { Gives (λ _. t.new) result (userop_step t.old (all_names (names_of names.now))) }
{
    match names {
        Names::One(name) => define_userops(alloc, t, &[*name]),
        Names::List(names) => define_userops(alloc, t, names.as_slice()),
    }
}

/// Defines one register or those in brackets.
fn registers<'a>(
    alloc: Global,
    t: &mut Tables<'a>,
    space: &[u8],
    offset: u64,
    size: u64,
    names: &Names<'a>,
) -> Result<(), Fault>
    ensures { Gives (λ _. t.new) result
        (register_step t.old space.now offset size (all_names (names_of names.now))) }
{
    match names {
        Names::One(name) => define_registers(alloc, t, space, offset, size, &[*name]),
        Names::List(names) => define_registers(alloc, t, space, offset, size, names.as_slice()),
    }
}

/// Attaches a list to one field or to those in brackets.
fn attach<'a>(
    alloc: Global,
    t: &mut Tables<'a>,
    kind: AttachKind,
    names: &Names<'a>,
    members: &[Member<'a>],
) -> Result<(), Fault>
    ensures { Gives (λ _. t.new) result
        (attach_step t.old kind (all_names (names_of names.now)) (map member_of members.now)) }
{
    match names {
        Names::One(name) => attached::attach(alloc, t, kind, &[*name], members),
        Names::List(names) => attached::attach(alloc, t, kind, names.as_slice(), members),
    }
}

/// One bit range and more as one list.
fn all_ranges<'a>(
    alloc: Global,
    first: BitRange<'a>,
    more: &[BitRange<'a>],
) -> Result<Vec<BitRange<'a>>, AllocError>
    ensures { IfOk result (λ all. map bit_range_of all.items
        ≡ bit_range_of first.entry ∷ map bit_range_of more.now) }
{
    let mut all = Vec::new(alloc);
    all.push(first)?;
    all.extend_from_slice(more)?;
    Ok(all)
}

/// Defines one bit range and more.
fn bit_ranges<'a>(
    alloc: Global,
    t: &mut Tables<'a>,
    first: BitRange<'a>,
    more: &[BitRange<'a>],
) -> Result<(), Fault>
    ensures { Gives (λ _. t.new) result
        (bit_range_step t.old (bit_range_of first.entry ∷ map bit_range_of more.now)) }
{
    let all = all_ranges(alloc, first, more)?;
    define_bit_ranges(alloc, t, all.as_slice())
}

/// What follows `define`, but for rule 1.
fn defined<'a>(
    alloc: Global,
    known: &mut Known<'a>,
    definition: &Definition<'a>,
) -> Result<(), Fault>
    ensures { Gives (λ _. known.new) result (defined known.old (definition_of definition.now)) }
{
    let t = &mut known.tables;
    match definition {
        Definition::Endian(order) => {
            set_endian(t, *order);
            Ok(())
        }
        Definition::Alignment(n) => set_alignment(known, *n),
        Definition::Space(name, given) => define_space(t, name, given.as_slice()),
        Definition::BitRanges(first, more) => bit_ranges(alloc, t, *first, more.as_slice()),
        Definition::PcodeOps(names) => userops(alloc, t, names),
        Definition::Token(name, bits, order, fields) => {
            define_token(alloc, t, name, *bits, *order, fields.as_slice())
        }
        Definition::Context(register, fields) => {
            define_context(alloc, t, register, fields.as_slice())
        }
        Definition::Registers(space, offset, size, names) => {
            registers(alloc, t, space, *offset, *size, names)
        }
    }
}

/// A definition or an attached list, but for rule 1.
fn taken<'a>(alloc: Global, known: &mut Known<'a>, kind: &ItemKind<'a>) -> Result<(), Fault>
    ensures { Gives (λ _. known.new) result (taken known.old (kind_of kind.now)) }
{
    match kind {
        ItemKind::Define(definition) => defined(alloc, known, definition),
        ItemKind::AttachList(kind, names, members) => {
            attach(alloc, &mut known.tables, *kind, names, members.as_slice())
        }
        ItemKind::AttachOne(kind, names, member) => {
            attach(alloc, &mut known.tables, *kind, names, &[*member])
        }
        ItemKind::Macro(_) => Ok(()),
        ItemKind::Constructor(_) => Ok(()),
        ItemKind::With(_, _) => Ok(()),
    }
}

/// Takes an item that is a definition or an attached list, with all its rules. Of any other item it
/// judges rule 1 alone, and adds nothing.
#[tactic(auto, unfolding(crate::specs::Items::definition_step))]
pub fn define<'a>(alloc: Global, known: &mut Known<'a>, item: &Item<'a>) -> Result<(), Fault>
    ensures { Gives (λ _. known.new) result (definition_step known.old (item_of item.now)) }
{
    begin(known, is_endian(item))?;
    taken(alloc, known, &item.kind)
}
