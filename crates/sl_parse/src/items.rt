//! The items of a specification.

ghost use Rattle.std.specs.Prelude.{◌≡◌, IfOk};
ghost use Rattle.sl_ast.specs.Unfolding.{firsts};
ghost use Rattle.sl_ast.specs.Validity.{heaviest, deepest};
ghost use Rattle.sl_ast.specs.Views.{kind_of};
ghost use Rattle.sl_parse_grammar.specs.Items as reader;
ghost use Rattle.sl_parse_grammar.specs.Lists as lists;
ghost use Rattle.sl_parse_grammar.specs.Reader.{left};
ghost use Rattle.sl_parse.specs.Blocks.{IsFlat, KeepsItem};
ghost use Rattle.sl_parse.specs.Parsing.{indexes_seen, items_seen};
ghost use Rattle.sl_parse_phrases.specs.Reads.{Reads};

use crate::blocks::block_at;
use crate::constructors::constructor_here;
use crate::definitions::{attach_kind, definition, names};
use crate::lists::{Part, listed, many};
use crate::statements::body;
use sl_ast::constructors::Macro;
use sl_ast::definitions::Member;
use sl_ast::items::{Item, ItemKind};
use sl_ast::symbols::{Keyword, Mark};
use sl_parse_phrases::stop::Stop;
use sl_parse_phrases::symbols::Symbols;
use sl_parse_terminals::Symbol;
use std::alloc::Global;

/// How often blocks may stand inside one another.
const DEEPEST: usize = 16;

/// `define definition;`.
#[tactic(auto, unfolding(sl_parse_grammar::specs::Items::define_here))]
fn define_here<'a>(alloc: Global, symbols: &mut Symbols<'_, 'a>) -> Result<ItemKind<'a>, Stop>
    ensures reads { Reads kind_of (reader.define_here symbols.old) result symbols.new }
    ensures flat { IfOk result IsFlat }
{
    symbols.expect_keyword(Keyword::Define)?;
    let written = definition(alloc, symbols)?;
    symbols.expect(Mark::Semicolon)?;
    Ok(ItemKind::Define(written))
}

/// `attach kind names members;`.
#[tactic(auto, unfolding(sl_parse_grammar::specs::Items::attach_here))]
fn attach_here<'a>(alloc: Global, symbols: &mut Symbols<'_, 'a>) -> Result<ItemKind<'a>, Stop>
    ensures reads { Reads kind_of (reader.attach_here symbols.old) result symbols.new }
    ensures flat { IfOk result IsFlat }
{
    symbols.expect_keyword(Keyword::Attach)?;
    let kind = attach_kind(symbols)?;
    let fields = names(alloc, symbols)?;
    if symbols.is_mark(Mark::OpenBracket) {
        symbols.expect(Mark::OpenBracket)?;
        let members: Vec<Member<'a>> = many(alloc, symbols)?;
        symbols.expect(Mark::CloseBracket)?;
        symbols.expect(Mark::Semicolon)?;
        Ok(ItemKind::AttachList(kind, fields, members))
    } else {
        let member = Member::read(alloc, symbols)?;
        symbols.expect(Mark::Semicolon)?;
        Ok(ItemKind::AttachOne(kind, fields, member))
    }
}

/// `macro name(parameters) { statements }`.
#[tactic(auto, unfolding(sl_parse_grammar::specs::Items::macro_here))]
fn macro_here<'a>(alloc: Global, symbols: &mut Symbols<'_, 'a>) -> Result<ItemKind<'a>, Stop>
    ensures reads { Reads kind_of (reader.macro_here heaviest symbols.old) result symbols.new }
    ensures flat { IfOk result IsFlat }
{
    symbols.expect_keyword(Keyword::Macro)?;
    let name = symbols.name()?;
    symbols.expect(Mark::Open)?;
    let parameters: Vec<&'a [u8]> = listed(alloc, symbols)?;
    symbols.expect(Mark::Close)?;
    let body = body(alloc, symbols)?;
    Ok(ItemKind::Macro(Macro {
        name,
        parameters,
        body,
    }))
}

/// Any item, without its place. `total` is the number of all symbols.
#[tactic(auto, unfolding(sl_parse_grammar::specs::Items::item))]
fn item_kind<'a>(
    alloc: Global,
    symbols: &mut Symbols<'_, 'a>,
    total: usize,
) -> Result<ItemKind<'a>, Stop>
    ensures reads { Reads kind_of (reader.item heaviest deepest symbols.old) result symbols.new }
    ensures places { IfOk result (KeepsItem total symbols.old) }
{
    match symbols.peek() {
        Some(Symbol::Quoted(Keyword::Define, _)) => define_here(alloc, symbols),
        Some(Symbol::Quoted(Keyword::Attach, _)) => attach_here(alloc, symbols),
        Some(Symbol::Quoted(Keyword::Macro, _)) => macro_here(alloc, symbols),
        Some(Symbol::Quoted(Keyword::With, _)) => {
            let block = block_at(alloc, symbols, total, DEEPEST)?;
            Ok(ItemKind::With(block.head, block.inside))
        }
        _ => {
            let constructor = constructor_here(alloc, symbols)?;
            Ok(ItemKind::Constructor(constructor))
        }
    }
}

/// All items. `total` is the number of all symbols.
#[tactic(auto, unfolding(sl_parse_grammar::specs::Lists::many_from))]
pub fn items<'a>(
    alloc: Global,
    symbols: &mut Symbols<'_, 'a>,
    total: usize,
) -> Result<Vec<Item<'a>>, Stop>
    requires { total ≡ left symbols.old }
    ensures reads { Reads items_seen (lists.many reader.is_there (reader.item heaviest deepest) symbols.old) result symbols.new }
    ensures places { IfOk result (λ found. indexes_seen found ≡ firsts (items_seen found)) }
{
    let mut found = Vec::new(alloc);
    'parts: for _round in 0..symbols.rounds() {
        let Some(_next) = symbols.peek() else {
            return Ok(found);
        };
        let first = total.saturating_sub(symbols.left());
        let kind = item_kind(alloc, symbols, total)?;
        found.push(Item { first, kind })?;
    }
    Err(symbols.refuse())
}
