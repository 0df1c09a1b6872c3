//! The bytes of definitions and of members of attached lists.

ghost use Rattle.std.specs.Prelude.{◌≡◌, ◌++◌, IfOk};
ghost use Rattle.sl_ast.specs.Symbols.{word_of};
ghost use Rattle.sl_ast.specs.Views.{bit_range_of, definition_of, field_of, member_of, names_of, space_attribute_of};
ghost use Rattle.sl_store_format.specs.Definitions.{write_attribute, write_definition, write_field, write_mark, write_member};
ghost use Rattle.sl_store_format.specs.Definitions.{write_names, write_order, write_range};
ghost use Rattle.sl_store_format.specs.Definitions.{write_word};
ghost use Rattle.sl_store_bytes.specs.Lists.{write_option};
ghost use Rattle.sl_store_bytes.specs.Reads.{Plain};

use crate::put::{Put, put_code};
use sl_ast::definitions::{
    BitRange, ByteOrder, Definition, Field, FieldAttribute, Member, Names, SpaceAttribute,
};
use sl_store_bytes::{put_bytes, put_number};
use sl_store_format::forms::{AttributeForm, DefinitionForm, MemberForm};
use std::alloc::AllocError;

/// Writes a byte order that may lack.
fn put_order_option(out: &mut Vec<u8>, order: &Option<ByteOrder>) -> Result<(), AllocError>
    ensures { IfOk result (λ _. out.new.items ≡ out.old.items ++ write_option write_order order.now) }
{
    match order {
        None => out.push(0)?,
        Some(order) => {
            out.push(1)?;
            put_code(out, *order)?;
        }
    }
    Ok(())
}

impl Put for FieldAttribute {
    ghost use Rattle.sl_ast.specs.declared.definitions.FieldAttribute as attribute;

    ghost Tree = { attribute.FieldAttribute };

    ghost view = { Plain };

    ghost write = { write_mark };

    fn put(&self, out: &mut Vec<u8>) -> Result<(), AllocError> {
        put_code(out, *self)
    }
}

impl<'a> Put for SpaceAttribute<'a> {
    ghost use Rattle.sl_ast.specs.Trees as t;

    ghost Tree = { t.SpaceAttribute };

    ghost view = { space_attribute_of };

    ghost write = { write_attribute };

    fn put(&self, out: &mut Vec<u8>) -> Result<(), AllocError> {
        match self {
            SpaceAttribute::Type(name) => {
                put_code(out, AttributeForm::Type)?;
                put_bytes(out, name)?;
            }
            SpaceAttribute::Size(size) => {
                put_code(out, AttributeForm::Size)?;
                put_number(out, *size)?;
            }
            SpaceAttribute::WordSize(size) => {
                put_code(out, AttributeForm::WordSize)?;
                put_number(out, *size)?;
            }
            SpaceAttribute::Default => put_code(out, AttributeForm::Default)?,
        }
        Ok(())
    }
}

impl<'a> Put for BitRange<'a> {
    ghost use Rattle.sl_ast.specs.Trees as t;

    ghost Tree = { t.BitRange };

    ghost view = { bit_range_of };

    ghost write = { write_range };

    fn put(&self, out: &mut Vec<u8>) -> Result<(), AllocError> {
        put_bytes(out, self.name)?;
        put_bytes(out, self.register)?;
        put_number(out, self.low)?;
        put_number(out, self.count)?;
        Ok(())
    }
}

impl<'a> Put for Field<'a> {
    ghost use Rattle.sl_ast.specs.Trees as t;

    ghost Tree = { t.Field };

    ghost view = { field_of };

    ghost write = { write_field };

    fn put(&self, out: &mut Vec<u8>) -> Result<(), AllocError> {
        put_bytes(out, self.name)?;
        put_number(out, self.low)?;
        put_number(out, self.high)?;
        self.attributes.put(out)?;
        Ok(())
    }
}

impl<'a> Put for Names<'a> {
    ghost use Rattle.sl_ast.specs.Trees as t;

    ghost Tree = { t.Names };

    ghost view = { names_of };

    ghost write = { write_names };

    fn put(&self, out: &mut Vec<u8>) -> Result<(), AllocError> {
        match self {
            Names::One(name) => {
                out.push(0)?;
                put_bytes(out, name)?;
            }
            Names::List(names) => {
                out.push(1)?;
                names.put(out)?;
            }
        }
        Ok(())
    }
}

impl<'a> Put for Definition<'a> {
    ghost use Rattle.sl_ast.specs.Trees as t;

    ghost Tree = { t.Definition };

    ghost view = { definition_of };

    ghost write = { write_definition };

    fn put(&self, out: &mut Vec<u8>) -> Result<(), AllocError> {
        match self {
            Definition::Endian(order) => {
                put_code(out, DefinitionForm::Endian)?;
                put_code(out, *order)?;
            }
            Definition::Alignment(bytes) => {
                put_code(out, DefinitionForm::Alignment)?;
                put_number(out, *bytes)?;
            }
            Definition::Space(name, attributes) => {
                put_code(out, DefinitionForm::Space)?;
                put_bytes(out, name)?;
                attributes.put(out)?;
            }
            Definition::BitRanges(first, others) => {
                put_code(out, DefinitionForm::BitRanges)?;
                first.put(out)?;
                others.put(out)?;
            }
            Definition::PcodeOps(names) => {
                put_code(out, DefinitionForm::PcodeOps)?;
                names.put(out)?;
            }
            Definition::Token(name, size, order, fields) => {
                put_code(out, DefinitionForm::Token)?;
                put_bytes(out, name)?;
                put_number(out, *size)?;
                put_order_option(out, order)?;
                fields.put(out)?;
            }
            Definition::Context(name, fields) => {
                put_code(out, DefinitionForm::Context)?;
                put_bytes(out, name)?;
                fields.put(out)?;
            }
            Definition::Registers(space, offset, size, names) => {
                put_code(out, DefinitionForm::Registers)?;
                put_bytes(out, space)?;
                put_number(out, *offset)?;
                put_number(out, *size)?;
                names.put(out)?;
            }
        }
        Ok(())
    }
}

/// Writes any word, by its own bytes.
#[tactic(auto, using(sl_store_format::proofs::KeywordLaws::word_bytes_of))]
pub fn put_word(out: &mut Vec<u8>, word: &[u8]) -> Result<(), AllocError>
    ensures { IfOk result (λ _. out.new.items ≡ out.old.items ++ write_word (word_of word.now)) }
{
    put_bytes(out, word)?;
    Ok(())
}

impl<'a> Put for Member<'a> {
    ghost use Rattle.sl_ast.specs.Trees as t;

    ghost Tree = { t.Member };

    ghost view = { member_of };

    ghost write = { write_member };

    fn put(&self, out: &mut Vec<u8>) -> Result<(), AllocError> {
        match self {
            Member::Word(word) => {
                put_code(out, MemberForm::Word)?;
                put_word(out, word)?;
            }
            Member::Text(text) => {
                put_code(out, MemberForm::Text)?;
                put_bytes(out, text)?;
            }
            Member::Integer(number) => {
                put_code(out, MemberForm::Integer)?;
                out.push(0)?;
                put_number(out, *number)?;
            }
            Member::Negative(number) => {
                put_code(out, MemberForm::Integer)?;
                out.push(1)?;
                put_number(out, *number)?;
            }
        }
        Ok(())
    }
}
