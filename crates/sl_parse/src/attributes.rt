//! Byte orders, and attributes of spaces and fields.

ghost use Rattle.std.specs.Prelude.{option_map};
ghost use Rattle.sl_ast.specs.Views.{space_attribute_of};
ghost use Rattle.sl_ast.specs.declared.symbols.Keyword.TheVariants as k;
ghost use Rattle.sl_ast.specs.declared.symbols.Mark.TheVariants as m;
ghost use Rattle.sl_parse_grammar.specs.Definitions as reader;
ghost use Rattle.sl_parse_grammar.specs.Reader.{first, is_keyword, optional};
ghost use Rattle.sl_parse_grammar.specs.Statements.{until};
ghost use Rattle.sl_parse_phrases.specs.Reads.{Plain, ReadsAll};

use crate::lists::{Part, Repeated};
use sl_ast::definitions::{ByteOrder, FieldAttribute, SpaceAttribute};
use sl_ast::symbols::{Feature, Keyword, Mark};
use sl_parse_phrases::stop::Stop;
use sl_parse_phrases::symbols::Symbols;
use sl_parse_terminals::Symbol;
use std::alloc::Global;

/// The word for a byte order.
fn order_word(symbols: &mut Symbols) -> Result<ByteOrder, Stop>
    ensures { ReadsAll Plain (reader.order_by (first symbols.old.rest) symbols.old) result symbols.new }
{
    match symbols.peek() {
        Some(Symbol::Quoted(Keyword::Big, _)) => {
            symbols.skip();
            Ok(ByteOrder::Big)
        }
        Some(Symbol::Quoted(Keyword::Little, _)) => {
            symbols.skip();
            Ok(ByteOrder::Little)
        }
        _ => Err(symbols.refuse()),
    }
}

/// `endian=` with a byte order.
#[tactic(auto, unfolding(sl_parse_grammar::specs::Definitions::order))]
pub fn order(symbols: &mut Symbols) -> Result<ByteOrder, Stop>
    ensures { ReadsAll Plain (reader.order symbols.old) result symbols.new }
{
    symbols.expect_keyword(Keyword::Endian)?;
    symbols.expect(Mark::Equals)?;
    let written = order_word(symbols)?;
    Ok(written)
}

/// `endian=` with a byte order, which may lack.
pub fn order_option(symbols: &mut Symbols) -> Result<Option<ByteOrder>, Stop>
    ensures { ReadsAll Plain (optional (is_keyword k.Endian) reader.order symbols.old) result symbols.new }
{
    if symbols.is_keyword(Keyword::Endian) {
        let written = order(symbols)?;
        Ok(Some(written))
    } else {
        Ok(None)
    }
}

/// `type=name`.
#[tactic(auto, unfolding(sl_parse_grammar::specs::Definitions::type_here))]
fn type_here<'a>(symbols: &mut Symbols<'_, 'a>) -> Result<SpaceAttribute<'a>, Stop>
    ensures { ReadsAll space_attribute_of (reader.type_here symbols.old) result symbols.new }
{
    symbols.expect_keyword(Keyword::Type)?;
    symbols.expect(Mark::Equals)?;
    let name = symbols.name()?;
    Ok(SpaceAttribute::Type(name))
}

/// `size=n`.
#[tactic(auto, unfolding(sl_parse_grammar::specs::Definitions::size_attribute))]
fn size_attribute<'a>(symbols: &mut Symbols<'_, 'a>) -> Result<SpaceAttribute<'a>, Stop>
    ensures { ReadsAll space_attribute_of (reader.size_attribute symbols.old) result symbols.new }
{
    symbols.expect_keyword(Keyword::Size)?;
    symbols.expect(Mark::Equals)?;
    let size = symbols.integer()?;
    Ok(SpaceAttribute::Size(size))
}

/// A word size, which is 1.
#[tactic(auto, unfolding(sl_parse_grammar::specs::Definitions::checked_size))]
fn word_size<'a>(symbols: &mut Symbols<'_, 'a>) -> Result<SpaceAttribute<'a>, Stop>
    ensures { ReadsAll space_attribute_of (reader.word_size_by (first symbols.old.rest) symbols.old) result symbols.new }
{
    match symbols.peek() {
        Some(Symbol::Number(size)) => {
            if size != 1 {
                return Err(symbols.unsupported_before(Feature::WordSize, 2));
            }
            symbols.skip();
            Ok(SpaceAttribute::WordSize(size))
        }
        _ => Err(symbols.refuse()),
    }
}

/// `wordsize=1`.
#[tactic(auto, unfolding(sl_parse_grammar::specs::Definitions::word_size_here))]
fn word_size_here<'a>(symbols: &mut Symbols<'_, 'a>) -> Result<SpaceAttribute<'a>, Stop>
    ensures { ReadsAll space_attribute_of (reader.word_size_here symbols.old) result symbols.new }
{
    symbols.expect_keyword(Keyword::WordSize)?;
    symbols.expect(Mark::Equals)?;
    let size = word_size(symbols)?;
    Ok(size)
}

impl<'a> Part<'a> for SpaceAttribute<'a> {
    ghost use Rattle.sl_ast.specs.Trees as t;

    ghost Tree = { t.SpaceAttribute };

    ghost view = { space_attribute_of };

    ghost reader = { reader.space_attribute };

    #[tactic(auto, unfolding(sl_parse_grammar::specs::Definitions::space_attribute))]
    fn read(_alloc: Global, symbols: &mut Symbols<'_, 'a>) -> Result<SpaceAttribute<'a>, Stop> {
        match symbols.peek() {
            Some(Symbol::Quoted(Keyword::Type, _)) => type_here(symbols),
            Some(Symbol::Quoted(Keyword::Size, _)) => size_attribute(symbols),
            Some(Symbol::Quoted(Keyword::WordSize, _)) => word_size_here(symbols),
            Some(Symbol::Quoted(Keyword::Default, _)) => {
                symbols.skip();
                Ok(SpaceAttribute::Default)
            }
            _ => Err(symbols.refuse()),
        }
    }
}

impl<'a> Repeated<'a> for SpaceAttribute<'a> {
    ghost goes = { until m.Semicolon };

    fn comes(symbols: &Symbols<'_, 'a>) -> bool {
        !symbols.is_mark(Mark::Semicolon)
    }
}

impl<'a> Part<'a> for FieldAttribute {
    ghost use Rattle.sl_ast.specs.declared.definitions.FieldAttribute as fa;

    ghost Tree = { fa.FieldAttribute };

    ghost view = { Plain };

    ghost reader = { reader.attribute };

    #[tactic(auto, unfolding(sl_parse_grammar::specs::Definitions::attribute))]
    fn read(_alloc: Global, symbols: &mut Symbols<'_, 'a>) -> Result<FieldAttribute, Stop> {
        let found = match symbols.peek() {
            Some(Symbol::Quoted(Keyword::Signed, _)) => FieldAttribute::Signed,
            Some(Symbol::Quoted(Keyword::Hex, _)) => FieldAttribute::Hex,
            Some(Symbol::Quoted(Keyword::Dec, _)) => FieldAttribute::Dec,
            Some(Symbol::Quoted(Keyword::NoFlow, _)) => FieldAttribute::NoFlow,
            _ => return Err(symbols.refuse()),
        };
        symbols.skip();
        Ok(found)
    }
}

impl<'a> Repeated<'a> for FieldAttribute {
    ghost goes = { reader.is_attribute };

    fn comes(symbols: &Symbols<'_, 'a>) -> bool {
        matches!(
            symbols.peek(),
            Some(Symbol::Quoted(
                Keyword::Signed | Keyword::Hex | Keyword::Dec | Keyword::NoFlow,
                _
            ))
        )
    }
}
