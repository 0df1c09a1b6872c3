//! Attached lists: rules 13 to 15, and what they add.

ghost use Rattle.std.specs.Prelude.{◌≡◌, ◌++◌, true, OnOk, IfOk, map, option_copied, unwrap_or};
ghost use Rattle.std.specs.List.{list_all};
ghost use Rattle.sl_ast.specs.Views.{member_of};
ghost use Rattle.sl_spec_rules.specs.Demands.{Gives};
ghost use Rattle.sl_spec_rules.specs.Names.{are_distinct};
ghost use Rattle.sl_spec.specs.Named.{index_named, named};
ghost use Rattle.sl_spec.specs.Views.{entries_of};
ghost use Rattle.sl_spec_definitions.specs.AttachRules.{are_open, attach_step, attachment};
ghost use Rattle.sl_spec_definitions.specs.AttachRules.{has_codes};
ghost use Rattle.sl_spec_definitions.specs.AttachRules.{is_length, is_open};

use crate::members::{are_members, given_entries};
use sl_ast::definitions::{AttachKind, Member};
use sl_spec::{Attached, Attachments, Entries, Field, FieldId, Named, Tables};
use sl_spec_rules::{Fault, are_distinct};
use std::alloc::{AllocError, Global};
use std::rc::Rc;

/// The number of a field. 2^32 fields would be want of memory.
fn field_number<'a>(
    fields: &Named<'a, Field<'a>>,
    name: &[u8],
) -> Result<Option<FieldId>, AllocError>
    ensures { IfOk result (λ n. n ≡ index_named (λ f. f.name) name.now fields.now) }
{
    match fields.index_of(name) {
        Some(index) => match u32::try_from(index) {
            Ok(number) => Ok(Some(FieldId(number))),
            Err(_) => Err(AllocError),
        },
        None => Ok(None),
    }
}

/// Whether there is such a field, to which nothing is attached.
fn is_open(attached: &Attachments, field: Option<FieldId>) -> bool
    ensures { result ≡ is_open attached.now field }
{
    match field {
        Some(field) => !attached.has(field),
        None => false,
    }
}

/// Whether each name is that of a field to which nothing is attached.
fn all_open(t: &Tables, names: &[&[u8]]) -> Result<bool, AllocError>
    ensures { IfOk result (λ all. all ≡ list_all
        (λ name. is_open t.now.attached (index_named (λ f. f.name) name t.now.fields))
        (map (λ n. n.now) names.now)) }
{
    'names: for index in 0..names.len() {
        let field = field_number(&t.fields, names[index])?;
        if !is_open(&t.attached, field) {
            return Ok(false);
        }
    }
    Ok(true)
}

/// Rule 13: each field is defined, and attached once.
fn are_open(alloc: Global, t: &Tables, names: &[&[u8]]) -> Result<bool, AllocError>
    ensures { IfOk result (λ all.
        all ≡ are_open t.now.fields t.now.attached (map (λ n. n.now) names.now)) }
{
    let open = all_open(t, names)?;
    let distinct = are_distinct(alloc, names)?;
    Ok(open && distinct)
}

/// Whether there is such a field, with a code for each of `count` members.
fn has_codes(count: usize, field: Option<&Field>) -> bool
    ensures { result ≡ has_codes count (option_copied field.entry) }
{
    match field {
        Some(field) => count as u128 <= 1 << (field.high - field.low + 1),
        None => false,
    }
}

fn all_have_codes<'a>(fields: &Named<'a, Field<'a>>, names: &[&[u8]], count: usize) -> bool
    ensures { result ≡ list_all
        (λ name. has_codes count (named (λ f. f.name) name.now fields.now)) names.now }
{
    names.iter().all(|name| has_codes(count, fields.get(name)))
}

/// Rule 15: there are 1 to 2^width members, for the width of each field.
#[tactic(auto, using(sl_spec_rules::proofs::Seen::seen), unfolding(crate::specs::AttachRules::is_length))]
fn is_length<'a>(fields: &Named<'a, Field<'a>>, names: &[&[u8]], count: usize) -> bool
    ensures { result ≡ is_length fields.now (map (λ n. n.now) names.now) count }
{
    1 <= count && all_have_codes(fields, names, count)
}

/// Entries that several fields can share.
fn shared<'a>(alloc: Global, entries: Entries<'a>) -> Result<Rc<Entries<'a>>, AllocError>
    ensures { IfOk result (λ rc. rc.value ≡ entries.entry) }
{
    match Rc::new(alloc, entries) {
        Ok(shared) => Ok(shared),
        Err(_) => Err(AllocError),
    }
}

/// What is attached to the field of a name.
fn attachment<'a>(
    fields: &Named<'a, Field<'a>>,
    entries: &Rc<Entries<'a>>,
    name: &[u8],
) -> Result<Attached<'a>, AllocError>
    ensures { IfOk result (λ a. a ≡ attachment fields.now (entries_of entries.now.value) name.now) }
{
    let field = field_number(fields, name)?.unwrap_or(FieldId(0));
    let entries = entries.clone()?;
    Ok(Attached { field, entries })
}

/// Attaches the same entries to fields to which nothing is attached.
fn add<'a>(
    attached: &mut Attachments<'a>,
    fields: &Named<'a, Field<'a>>,
    entries: &Rc<Entries<'a>>,
    names: &[&[u8]],
) -> Result<(), AllocError>
    requires { are_open fields.now attached.old (map (λ n. n.now) names.now) ≡ true }
    ensures { OnOk result (attached.new ≡ attached.old
        ++ map (attachment fields.now (entries_of entries.now.value)) (map (λ n. n.now) names.now)) }
{
    'names: for index in 0..names.len() {
        let added = attachment(fields, entries, names[index])?;
        attached.add(added)?;
    }
    Ok(())
}

/// Attaches a list to fields (SLEIGH manual, "Attach Statements").
pub fn attach<'a>(
    alloc: Global,
    t: &mut Tables<'a>,
    kind: AttachKind,
    names: &[&[u8]],
    members: &[Member<'a>],
) -> Result<(), Fault>
    ensures { Gives (λ _. t.new) result
        (attach_step t.old kind (map (λ n. n.now) names.now) (map member_of members.now)) }
{
    if !are_open(alloc, t, names)? {
        return Err(Fault::Rule(13));
    }
    if !are_members(&t.registers, kind, members) {
        return Err(Fault::Rule(14));
    }
    if !is_length(&t.fields, names, members.len()) {
        return Err(Fault::Rule(15));
    }
    let entries = given_entries(alloc, &t.registers, kind, members)?;
    let entries = shared(alloc, entries)?;
    add(&mut t.attached, &t.fields, &entries, names)?;
    Ok(())
}
