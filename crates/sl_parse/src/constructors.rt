//! Constructors.

ghost use Rattle.std.specs.Prelude.{◌≡◌, option_map};
ghost use Rattle.sl_ast.specs.Validity.{heaviest};
ghost use Rattle.sl_ast.specs.Views.{bytes, constructor_of, head_of, pattern_of, piece_of, section_of};
ghost use Rattle.sl_ast.specs.declared.symbols.Keyword.TheVariants as k;
ghost use Rattle.sl_parse_grammar.specs.Items as reader;
ghost use Rattle.sl_parse_grammar.specs.Patterns.{whole_pattern};
ghost use Rattle.sl_parse_grammar.specs.Reader.{first, is_keyword, name_here, optional};
ghost use Rattle.sl_parse_phrases.specs.Reads.{Reads, ReadsAll};

use crate::actions::actions_option;
use crate::lists::{Part, Repeated, many};
use crate::statements::body;
use sl_ast::constructors::{Constructor, Head, Section, Shown};
use sl_ast::patterns::Pattern;
use sl_ast::symbols::{Keyword, Mark};
use sl_parse_phrases::patterns::whole_pattern;
use sl_parse_phrases::stop::Stop;
use sl_parse_phrases::symbols::Symbols;
use sl_parse_terminals::Symbol;
use std::alloc::Global;

impl<'a> Part<'a> for Shown<'a> {
    ghost use Rattle.sl_ast.specs.Trees as t;

    ghost Tree = { t.Piece };

    ghost view = { piece_of };

    ghost reader = { reader.piece };

    #[tactic(auto, unfolding(sl_parse_grammar::specs::Items::piece))]
    fn read(_alloc: Global, symbols: &mut Symbols<'_, 'a>) -> Result<Shown<'a>, Stop> {
        let found = match symbols.peek_word() {
            Some(Symbol::Quoted(Keyword::Is, _)) => return Err(symbols.refuse()),
            Some(Symbol::Quoted(_, word)) => Shown::Word(word),
            Some(Symbol::Name(word)) => Shown::Word(word),
            Some(Symbol::Text(text)) => Shown::Text(text),
            Some(Symbol::Blank(text)) => Shown::Blank(text),
            Some(Symbol::Caret(text)) => Shown::Caret(text),
            Some(Symbol::Char(text)) => Shown::Char(text),
            _ => return Err(symbols.refuse()),
        };
        symbols.skip();
        Ok(found)
    }
}

impl<'a> Repeated<'a> for Shown<'a> {
    ghost goes = { reader.is_shown };

    fn comes(symbols: &Symbols<'_, 'a>) -> bool {
        !symbols.is_keyword(Keyword::Is)
    }
}

/// Whether a name comes next.
fn is_name(symbols: &Symbols) -> bool
    ensures { result ≡ reader.is_name (first symbols.now.rest) }
{
    matches!(symbols.peek(), Some(Symbol::Name(_)))
}

/// The name of a table, which may lack.
fn table_option<'a>(symbols: &mut Symbols<'_, 'a>) -> Result<Option<&'a [u8]>, Stop>
    ensures { ReadsAll (option_map bytes) (optional reader.is_name name_here symbols.old) result symbols.new }
{
    if is_name(symbols) {
        let name = symbols.name()?;
        Ok(Some(name))
    } else {
        Ok(None)
    }
}

/// What a constructor does.
#[tactic(auto, unfolding(sl_parse_grammar::specs::Items::section))]
fn section<'a>(alloc: Global, symbols: &mut Symbols<'_, 'a>) -> Result<Section<'a>, Stop>
    ensures { Reads section_of (reader.section heaviest symbols.old) result symbols.new }
{
    match symbols.peek() {
        Some(Symbol::Mark(Mark::OpenBrace)) => {
            let found = body(alloc, symbols)?;
            Ok(Section::Statements(found))
        }
        Some(Symbol::Quoted(Keyword::Unimpl, _)) => {
            symbols.skip();
            Ok(Section::Unimplemented)
        }
        _ => Err(symbols.refuse()),
    }
}

/// A constructor.
#[tactic(auto, unfolding(sl_parse_grammar::specs::Items::constructor_here))]
pub fn constructor_here<'a>(
    alloc: Global,
    symbols: &mut Symbols<'_, 'a>,
) -> Result<Constructor<'a>, Stop>
    ensures { Reads constructor_of (reader.constructor_here heaviest symbols.old) result symbols.new }
{
    let table = table_option(symbols)?;
    symbols.expect(Mark::Colon)?;
    let display: Vec<Shown<'a>> = many(alloc, symbols)?;
    symbols.expect_keyword(Keyword::Is)?;
    let pattern = whole_pattern(alloc, symbols)?;
    let actions = actions_option(alloc, symbols)?;
    let section = section(alloc, symbols)?;
    Ok(Constructor {
        table,
        display,
        pattern,
        actions,
        section,
    })
}

/// A block's pattern, which may lack.
fn pattern_option<'a>(
    alloc: Global,
    symbols: &mut Symbols<'_, 'a>,
) -> Result<Option<Pattern<'a>>, Stop>
    ensures { Reads (option_map pattern_of) (optional reader.is_pattern (whole_pattern heaviest) symbols.old) result symbols.new }
{
    if symbols.is_mark(Mark::OpenBracket) || symbols.is_mark(Mark::OpenBrace) {
        Ok(None)
    } else {
        let pattern = whole_pattern(alloc, symbols)?;
        Ok(Some(pattern))
    }
}

/// What a block gives to each constructor inside, with the block's opening brace.
#[tactic(auto, unfolding(sl_parse_grammar::specs::Items::head))]
pub fn head<'a>(alloc: Global, symbols: &mut Symbols<'_, 'a>) -> Result<Head<'a>, Stop>
    ensures { Reads head_of (reader.head heaviest symbols.old) result symbols.new }
{
    symbols.expect_keyword(Keyword::With)?;
    let table = table_option(symbols)?;
    symbols.expect(Mark::Colon)?;
    let pattern = pattern_option(alloc, symbols)?;
    let actions = actions_option(alloc, symbols)?;
    symbols.expect(Mark::OpenBrace)?;
    Ok(Head {
        table,
        pattern,
        actions,
    })
}
