//! Definitions and attached lists.

ghost use Rattle.std.specs.Prelude.{option_map};
ghost use Rattle.sl_ast.specs.Views.{bit_range_of, bytes, definition_of, field_of, member_of, names_of, space_attribute_of};
ghost use Rattle.sl_ast.specs.declared.symbols.Keyword.TheVariants as k;
ghost use Rattle.sl_ast.specs.declared.symbols.Mark.TheVariants as m;
ghost use Rattle.sl_parse_grammar.specs.Definitions as reader;
ghost use Rattle.sl_parse_grammar.specs.Reader.{is_keyword, name_here, optional};
ghost use Rattle.sl_parse_grammar.specs.Statements.{until};
ghost use Rattle.sl_parse_phrases.specs.Reads.{Plain, Reads, ReadsAll};

use crate::attributes::{order, order_option};
use crate::lists::{Part, Repeated, many};
use sl_ast::definitions::{
    AttachKind, BitRange, Definition, Field, FieldAttribute, Member, Names, SpaceAttribute,
};
use sl_ast::symbols::{Keyword, Mark};
use sl_parse_phrases::stop::Stop;
use sl_parse_phrases::symbols::Symbols;
use sl_parse_terminals::Symbol;
use std::alloc::Global;

impl<'a> Part<'a> for &'a [u8] {
    ghost use Rattle.sl_ast.specs.Trees as t;

    ghost Tree = { t.Name };

    ghost view = { bytes };

    ghost reader = { name_here };

    fn read(_alloc: Global, symbols: &mut Symbols<'_, 'a>) -> Result<&'a [u8], Stop> {
        symbols.name()
    }
}

impl<'a> Repeated<'a> for &'a [u8] {
    ghost goes = { until m.CloseBracket };

    fn comes(symbols: &Symbols<'_, 'a>) -> bool {
        !symbols.is_mark(Mark::CloseBracket)
    }
}

impl<'a> Part<'a> for BitRange<'a> {
    ghost use Rattle.sl_ast.specs.Trees as t;

    ghost Tree = { t.BitRange };

    ghost view = { bit_range_of };

    ghost reader = { reader.bit_range };

    #[tactic(auto, unfolding(sl_parse_grammar::specs::Definitions::bit_range))]
    fn read(_alloc: Global, symbols: &mut Symbols<'_, 'a>) -> Result<BitRange<'a>, Stop> {
        let name = symbols.name()?;
        symbols.expect(Mark::Equals)?;
        let register = symbols.name()?;
        symbols.expect(Mark::OpenBracket)?;
        let low = symbols.integer()?;
        symbols.expect(Mark::Comma)?;
        let count = symbols.integer()?;
        symbols.expect(Mark::CloseBracket)?;
        Ok(BitRange {
            name,
            register,
            low,
            count,
        })
    }
}

impl<'a> Repeated<'a> for BitRange<'a> {
    ghost goes = { until m.Semicolon };

    fn comes(symbols: &Symbols<'_, 'a>) -> bool {
        !symbols.is_mark(Mark::Semicolon)
    }
}

impl<'a> Part<'a> for Field<'a> {
    ghost use Rattle.sl_ast.specs.Trees as t;

    ghost Tree = { t.Field };

    ghost view = { field_of };

    ghost reader = { reader.field };

    #[tactic(auto, unfolding(sl_parse_grammar::specs::Definitions::field))]
    fn read(alloc: Global, symbols: &mut Symbols<'_, 'a>) -> Result<Field<'a>, Stop> {
        let name = symbols.name()?;
        symbols.expect(Mark::Equals)?;
        symbols.expect(Mark::Open)?;
        let low = symbols.integer()?;
        symbols.expect(Mark::Comma)?;
        let high = symbols.integer()?;
        symbols.expect(Mark::Close)?;
        let attributes: Vec<FieldAttribute> = many(alloc, symbols)?;
        Ok(Field {
            name,
            low,
            high,
            attributes,
        })
    }
}

impl<'a> Repeated<'a> for Field<'a> {
    ghost goes = { until m.Semicolon };

    fn comes(symbols: &Symbols<'_, 'a>) -> bool {
        !symbols.is_mark(Mark::Semicolon)
    }
}

/// Names in brackets.
#[tactic(auto, unfolding(sl_parse_grammar::specs::Definitions::name_list))]
fn name_list<'a>(alloc: Global, symbols: &mut Symbols<'_, 'a>) -> Result<Names<'a>, Stop>
    ensures { Reads names_of (reader.name_list symbols.old) result symbols.new }
{
    symbols.expect(Mark::OpenBracket)?;
    let found: Vec<&'a [u8]> = many(alloc, symbols)?;
    symbols.expect(Mark::CloseBracket)?;
    Ok(Names::List(found))
}

/// A name, or names in brackets.
#[tactic(auto, unfolding(sl_parse_grammar::specs::Definitions::names))]
pub fn names<'a>(alloc: Global, symbols: &mut Symbols<'_, 'a>) -> Result<Names<'a>, Stop>
    ensures { Reads names_of (reader.names symbols.old) result symbols.new }
{
    match symbols.peek() {
        Some(Symbol::Mark(Mark::OpenBracket)) => name_list(alloc, symbols),
        _ => {
            let name = symbols.name()?;
            Ok(Names::One(name))
        }
    }
}

/// `alignment=n`.
#[tactic(auto, unfolding(sl_parse_grammar::specs::Definitions::alignment_here))]
fn alignment_here<'a>(symbols: &mut Symbols<'_, 'a>) -> Result<Definition<'a>, Stop>
    ensures { ReadsAll definition_of (reader.alignment_here symbols.old) result symbols.new }
{
    symbols.expect_keyword(Keyword::Alignment)?;
    symbols.expect(Mark::Equals)?;
    let size = symbols.integer()?;
    Ok(Definition::Alignment(size))
}

/// `space name attributes`.
#[tactic(auto, unfolding(sl_parse_grammar::specs::Definitions::space_here))]
fn space_here<'a>(alloc: Global, symbols: &mut Symbols<'_, 'a>) -> Result<Definition<'a>, Stop>
    ensures { Reads definition_of (reader.space_here symbols.old) result symbols.new }
{
    symbols.expect_keyword(Keyword::Space)?;
    let name = symbols.name()?;
    let attributes: Vec<SpaceAttribute<'a>> = many(alloc, symbols)?;
    Ok(Definition::Space(name, attributes))
}

/// `bitrange` with one bit range or more.
#[tactic(auto, unfolding(sl_parse_grammar::specs::Definitions::bit_ranges_here))]
fn bit_ranges_here<'a>(alloc: Global, symbols: &mut Symbols<'_, 'a>) -> Result<Definition<'a>, Stop>
    ensures { Reads definition_of (reader.bit_ranges_here symbols.old) result symbols.new }
{
    symbols.expect_keyword(Keyword::BitRange)?;
    let head = BitRange::read(alloc, symbols)?;
    let more: Vec<BitRange<'a>> = many(alloc, symbols)?;
    Ok(Definition::BitRanges(head, more))
}

/// `pcodeop names`.
#[tactic(auto, unfolding(sl_parse_grammar::specs::Definitions::pcode_ops_here))]
fn pcode_ops_here<'a>(alloc: Global, symbols: &mut Symbols<'_, 'a>) -> Result<Definition<'a>, Stop>
    ensures { Reads definition_of (reader.pcode_ops_here symbols.old) result symbols.new }
{
    symbols.expect_keyword(Keyword::PcodeOp)?;
    let found = names(alloc, symbols)?;
    Ok(Definition::PcodeOps(found))
}

/// `token name(size) endian=order fields`, the byte order being optional.
#[tactic(auto, unfolding(sl_parse_grammar::specs::Definitions::token_here))]
fn token_here<'a>(alloc: Global, symbols: &mut Symbols<'_, 'a>) -> Result<Definition<'a>, Stop>
    ensures { Reads definition_of (reader.token_here symbols.old) result symbols.new }
{
    symbols.expect_keyword(Keyword::Token)?;
    let name = symbols.name()?;
    symbols.expect(Mark::Open)?;
    let size = symbols.integer()?;
    symbols.expect(Mark::Close)?;
    let own = order_option(symbols)?;
    let fields: Vec<Field<'a>> = many(alloc, symbols)?;
    Ok(Definition::Token(name, size, own, fields))
}

/// `context name fields`.
#[tactic(auto, unfolding(sl_parse_grammar::specs::Definitions::context_here))]
fn context_here<'a>(alloc: Global, symbols: &mut Symbols<'_, 'a>) -> Result<Definition<'a>, Stop>
    ensures { Reads definition_of (reader.context_here symbols.old) result symbols.new }
{
    symbols.expect_keyword(Keyword::Context)?;
    let name = symbols.name()?;
    let fields: Vec<Field<'a>> = many(alloc, symbols)?;
    Ok(Definition::Context(name, fields))
}

/// `space offset=n size=n names`.
#[tactic(auto, unfolding(sl_parse_grammar::specs::Definitions::registers_here))]
fn registers_here<'a>(alloc: Global, symbols: &mut Symbols<'_, 'a>) -> Result<Definition<'a>, Stop>
    ensures { Reads definition_of (reader.registers_here symbols.old) result symbols.new }
{
    let space = symbols.name()?;
    symbols.expect_keyword(Keyword::Offset)?;
    symbols.expect(Mark::Equals)?;
    let offset = symbols.integer()?;
    symbols.expect_keyword(Keyword::Size)?;
    symbols.expect(Mark::Equals)?;
    let size = symbols.integer()?;
    let found = names(alloc, symbols)?;
    Ok(Definition::Registers(space, offset, size, found))
}

/// A definition, up to its semicolon.
#[tactic(auto, unfolding(sl_parse_grammar::specs::Definitions::definition))]
pub fn definition<'a>(alloc: Global, symbols: &mut Symbols<'_, 'a>) -> Result<Definition<'a>, Stop>
    ensures { Reads definition_of (reader.definition symbols.old) result symbols.new }
{
    match symbols.peek() {
        Some(Symbol::Quoted(Keyword::Endian, _)) => {
            let written = order(symbols)?;
            Ok(Definition::Endian(written))
        }
        Some(Symbol::Quoted(Keyword::Alignment, _)) => alignment_here(symbols),
        Some(Symbol::Quoted(Keyword::Space, _)) => space_here(alloc, symbols),
        Some(Symbol::Quoted(Keyword::BitRange, _)) => bit_ranges_here(alloc, symbols),
        Some(Symbol::Quoted(Keyword::PcodeOp, _)) => pcode_ops_here(alloc, symbols),
        Some(Symbol::Quoted(Keyword::Token, _)) => token_here(alloc, symbols),
        Some(Symbol::Quoted(Keyword::Context, _)) => context_here(alloc, symbols),
        _ => registers_here(alloc, symbols),
    }
}

/// What is attached.
#[tactic(auto, unfolding(sl_parse_grammar::specs::Definitions::attach_kind))]
pub fn attach_kind(symbols: &mut Symbols) -> Result<AttachKind, Stop>
    ensures { ReadsAll Plain (reader.attach_kind symbols.old) result symbols.new }
{
    let kind = match symbols.peek() {
        Some(Symbol::Quoted(Keyword::Variables, _)) => AttachKind::Variables,
        Some(Symbol::Quoted(Keyword::Names, _)) => AttachKind::Names,
        Some(Symbol::Quoted(Keyword::Values, _)) => AttachKind::Values,
        _ => return Err(symbols.refuse()),
    };
    symbols.skip();
    Ok(kind)
}

/// `-n`.
fn negative<'a>(symbols: &mut Symbols<'_, 'a>) -> Result<Member<'a>, Stop>
    ensures { ReadsAll member_of (reader.negative symbols.old) result symbols.new }
{
    symbols.skip();
    let value = symbols.integer()?;
    Ok(Member::Negative(value))
}

impl<'a> Part<'a> for Member<'a> {
    ghost use Rattle.sl_ast.specs.Trees as t;

    ghost Tree = { t.Member };

    ghost view = { member_of };

    ghost reader = { reader.member };

    #[tactic(auto, unfolding(sl_parse_grammar::specs::Definitions::member))]
    fn read(_alloc: Global, symbols: &mut Symbols<'_, 'a>) -> Result<Member<'a>, Stop> {
        let found = match symbols.peek_word() {
            Some(Symbol::Mark(Mark::Minus)) => return negative(symbols),
            Some(Symbol::Quoted(Keyword::InstNext2, _)) => return Err(symbols.refuse()),
            Some(Symbol::Number(value)) => Member::Integer(value),
            Some(Symbol::Text(text)) => Member::Text(text),
            Some(Symbol::Quoted(_, word)) => Member::Word(word),
            Some(Symbol::Name(word)) => Member::Word(word),
            _ => return Err(symbols.refuse()),
        };
        symbols.skip();
        Ok(found)
    }
}

impl<'a> Repeated<'a> for Member<'a> {
    ghost goes = { until m.CloseBracket };

    fn comes(symbols: &Symbols<'_, 'a>) -> bool {
        !symbols.is_mark(Mark::CloseBracket)
    }
}
