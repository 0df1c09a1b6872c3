//! Definitions and members of attached lists.

ghost use Rattle.sl_ast.specs.Views.{bit_range_of, definition_of, field_of, member_of, names_of};
ghost use Rattle.sl_ast.specs.Views.{space_attribute_of};
ghost use Rattle.sl_store_format.specs.Definitions as reader;
ghost use Rattle.sl_store_format.specs.declared.forms.DefinitionForm.TheVariants as form;
ghost use Rattle.sl_store_bytes.specs.Lists.{option};
ghost use Rattle.sl_store_bytes.specs.Orders.{byte_orders, field_attributes};
ghost use Rattle.sl_store_bytes.specs.Reads.{Plain, Reads};
ghost use Rattle.sl_store_bytes.specs.Tables.{coded};

use crate::parts::{Part, list};
use sl_ast::definitions::{
    BitRange, ByteOrder, Definition, Field, FieldAttribute, Member, Names, SpaceAttribute,
};
use sl_store_bytes::{Bytes, Stop};
use sl_store_format::forms::{AttributeForm, DefinitionForm, MemberForm};
use sl_store_phrases::{member_word, name, natural, text};
use std::alloc::Global;

impl<'a> Part<'a> for SpaceAttribute<'a> {
    ghost use Rattle.sl_ast.specs.Trees as t;

    ghost Tree = { t.SpaceAttribute };

    ghost view = { space_attribute_of };

    ghost reader = { reader.space_attribute };

    #[tactic(auto, unfolding(sl_store_format::specs::Definitions::space_attribute))]
    fn read(_alloc: Global, bytes: &mut Bytes<'a>) -> Result<SpaceAttribute<'a>, Stop> {
        match bytes.coded::<AttributeForm>()? {
            AttributeForm::Type => {
                let name = name(bytes)?;
                Ok(SpaceAttribute::Type(name))
            }
            AttributeForm::Size => {
                let size = natural(bytes)?;
                Ok(SpaceAttribute::Size(size))
            }
            AttributeForm::WordSize => {
                let size = bytes.number(1, 1)?;
                Ok(SpaceAttribute::WordSize(size))
            }
            AttributeForm::Default => Ok(SpaceAttribute::Default),
        }
    }
}

/// A range of bits.
#[tactic(auto, unfolding(sl_store_format::specs::Definitions::bit_range))]
fn bit_range<'a>(bytes: &mut Bytes<'a>) -> Result<BitRange<'a>, Stop>
    ensures { Reads bit_range_of (reader.bit_range bytes.old) result bytes.new }
{
    let range = name(bytes)?;
    let register = name(bytes)?;
    let low = natural(bytes)?;
    let count = natural(bytes)?;
    Ok(BitRange {
        name: range,
        register,
        low,
        count,
    })
}

impl<'a> Part<'a> for BitRange<'a> {
    ghost use Rattle.sl_ast.specs.Trees as t;

    ghost Tree = { t.BitRange };

    ghost view = { bit_range_of };

    ghost reader = { reader.bit_range };

    fn read(_alloc: Global, bytes: &mut Bytes<'a>) -> Result<BitRange<'a>, Stop> {
        bit_range(bytes)
    }
}

impl<'a> Part<'a> for FieldAttribute {
    ghost use Rattle.sl_ast.specs.declared.definitions.FieldAttribute as attribute;

    ghost Tree = { attribute.FieldAttribute };

    ghost view = { Plain };

    ghost reader = { coded field_attributes };

    fn read(_alloc: Global, bytes: &mut Bytes<'a>) -> Result<FieldAttribute, Stop> {
        bytes.coded::<FieldAttribute>()
    }
}

impl<'a> Part<'a> for Field<'a> {
    ghost use Rattle.sl_ast.specs.Trees as t;

    ghost Tree = { t.Field };

    ghost view = { field_of };

    ghost reader = { reader.field_here };

    #[tactic(auto, unfolding(sl_store_format::specs::Definitions::field_here))]
    fn read(alloc: Global, bytes: &mut Bytes<'a>) -> Result<Field<'a>, Stop> {
        let name = name(bytes)?;
        let low = natural(bytes)?;
        let high = natural(bytes)?;
        let attributes: Vec<FieldAttribute> = list(alloc, bytes)?;
        Ok(Field {
            name,
            low,
            high,
            attributes,
        })
    }
}

/// One name, or a list of names.
#[tactic(auto, unfolding(sl_store_format::specs::Definitions::names_here, sl_store_bytes::specs::Lists::either))]
pub fn names_here<'a>(alloc: Global, bytes: &mut Bytes<'a>) -> Result<Names<'a>, Stop>
    ensures { Reads names_of (reader.names_here bytes.old) result bytes.new }
{
    if bytes.below(2)? == 0 {
        let name = name(bytes)?;
        Ok(Names::One(name))
    } else {
        let names: Vec<&'a [u8]> = list(alloc, bytes)?;
        Ok(Names::List(names))
    }
}

/// A byte order, which may lack.
#[tactic(auto, unfolding(sl_store_bytes::specs::Lists::option))]
fn order_option(bytes: &mut Bytes<'_>) -> Result<Option<ByteOrder>, Stop>
    ensures { Reads Plain (option (coded byte_orders) bytes.old) result bytes.new }
{
    if bytes.below(2)? == 0 {
        return Ok(None);
    }
    let order = bytes.coded::<ByteOrder>()?;
    Ok(Some(order))
}

/// A space, after its byte.
fn space_here<'a>(alloc: Global, bytes: &mut Bytes<'a>) -> Result<Definition<'a>, Stop>
    ensures { Reads definition_of (reader.definition_by form.Space bytes.old) result bytes.new }
{
    let name = name(bytes)?;
    let attributes: Vec<SpaceAttribute<'a>> = list(alloc, bytes)?;
    Ok(Definition::Space(name, attributes))
}

/// Bit ranges, after their byte.
fn bit_ranges_here<'a>(alloc: Global, bytes: &mut Bytes<'a>) -> Result<Definition<'a>, Stop>
    ensures { Reads definition_of (reader.definition_by form.BitRanges bytes.old) result bytes.new }
{
    let first = bit_range(bytes)?;
    let others: Vec<BitRange<'a>> = list(alloc, bytes)?;
    Ok(Definition::BitRanges(first, others))
}

/// A token, after its byte.
fn token_here<'a>(alloc: Global, bytes: &mut Bytes<'a>) -> Result<Definition<'a>, Stop>
    ensures { Reads definition_of (reader.definition_by form.Token bytes.old) result bytes.new }
{
    let name = name(bytes)?;
    let size = natural(bytes)?;
    let order = order_option(bytes)?;
    let fields: Vec<Field<'a>> = list(alloc, bytes)?;
    Ok(Definition::Token(name, size, order, fields))
}

/// A context, after its byte.
fn context_here<'a>(alloc: Global, bytes: &mut Bytes<'a>) -> Result<Definition<'a>, Stop>
    ensures { Reads definition_of (reader.definition_by form.Context bytes.old) result bytes.new }
{
    let name = name(bytes)?;
    let fields: Vec<Field<'a>> = list(alloc, bytes)?;
    Ok(Definition::Context(name, fields))
}

/// Registers, after their byte.
fn registers_here<'a>(alloc: Global, bytes: &mut Bytes<'a>) -> Result<Definition<'a>, Stop>
    ensures { Reads definition_of (reader.definition_by form.Registers bytes.old) result bytes.new }
{
    let space = name(bytes)?;
    let offset = natural(bytes)?;
    let size = natural(bytes)?;
    let names = names_here(alloc, bytes)?;
    Ok(Definition::Registers(space, offset, size, names))
}

/// What follows `define`.
#[tactic(auto, unfolding(sl_store_format::specs::Definitions::definition_here))]
pub fn definition_here<'a>(alloc: Global, bytes: &mut Bytes<'a>) -> Result<Definition<'a>, Stop>
    ensures { Reads definition_of (reader.definition_here bytes.old) result bytes.new }
{
    match bytes.coded::<DefinitionForm>()? {
        DefinitionForm::Endian => {
            let order = bytes.coded::<ByteOrder>()?;
            Ok(Definition::Endian(order))
        }
        DefinitionForm::Alignment => {
            let alignment = natural(bytes)?;
            Ok(Definition::Alignment(alignment))
        }
        DefinitionForm::Space => space_here(alloc, bytes),
        DefinitionForm::BitRanges => bit_ranges_here(alloc, bytes),
        DefinitionForm::PcodeOps => {
            let names = names_here(alloc, bytes)?;
            Ok(Definition::PcodeOps(names))
        }
        DefinitionForm::Token => token_here(alloc, bytes),
        DefinitionForm::Context => context_here(alloc, bytes),
        DefinitionForm::Registers => registers_here(alloc, bytes),
    }
}

/// An integer with or without a `-`.
#[tactic(auto, unfolding(sl_store_format::specs::Definitions::signed_here, sl_store_bytes::specs::Lists::either))]
fn signed_here<'a>(bytes: &mut Bytes<'a>) -> Result<Member<'a>, Stop>
    ensures { Reads member_of (reader.signed_here bytes.old) result bytes.new }
{
    if bytes.below(2)? == 0 {
        let value = natural(bytes)?;
        Ok(Member::Integer(value))
    } else {
        let value = natural(bytes)?;
        Ok(Member::Negative(value))
    }
}

/// A member of an attached list.
#[tactic(auto, unfolding(sl_store_format::specs::Definitions::member_here))]
pub fn member_here<'a>(bytes: &mut Bytes<'a>) -> Result<Member<'a>, Stop>
    ensures { Reads member_of (reader.member_here bytes.old) result bytes.new }
{
    match bytes.coded::<MemberForm>()? {
        MemberForm::Word => {
            let word = member_word(bytes)?;
            Ok(Member::Word(word))
        }
        MemberForm::Text => {
            let text = text(bytes)?;
            Ok(Member::Text(text))
        }
        MemberForm::Integer => signed_here(bytes),
    }
}

impl<'a> Part<'a> for Member<'a> {
    ghost use Rattle.sl_ast.specs.Trees as t;

    ghost Tree = { t.Member };

    ghost view = { member_of };

    ghost reader = { reader.member_here };

    fn read(_alloc: Global, bytes: &mut Bytes<'a>) -> Result<Member<'a>, Stop> {
        member_here(bytes)
    }
}
