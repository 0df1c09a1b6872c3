//! Disassembly actions.

ghost use Rattle.std.specs.Prelude.{option_map};
ghost use Rattle.sl_ast.specs.Validity.{heaviest};
ghost use Rattle.sl_ast.specs.Views.{action_of};
ghost use Rattle.sl_ast.specs.declared.symbols.Mark.TheVariants as m;
ghost use Rattle.sl_parse_grammar.specs.Reader.{is_mark, optional};
ghost use Rattle.sl_parse_grammar.specs.Statements as reader;
ghost use Rattle.sl_parse_phrases.specs.Reads.{Reads, ReadsAll, seen_by};

use crate::lists::{Part, Repeated, many};
use crate::parts::operand;
use sl_ast::patterns::Action;
use sl_ast::symbols::{Keyword, Mark};
use sl_parse_phrases::expressions::whole;
use sl_parse_phrases::operators::Kind;
use sl_parse_phrases::stop::Stop;
use sl_parse_phrases::symbols::Symbols;
use sl_parse_terminals::Symbol;
use std::alloc::Global;

/// `globalset(address, field);`.
#[tactic(auto, unfolding(sl_parse_grammar::specs::Statements::global_set_here))]
fn global_set_here<'a>(symbols: &mut Symbols<'_, 'a>) -> Result<Action<'a>, Stop>
    ensures { ReadsAll action_of (reader.global_set_here symbols.old) result symbols.new }
{
    symbols.expect_keyword(Keyword::GlobalSet)?;
    symbols.expect(Mark::Open)?;
    let to = operand(symbols)?;
    symbols.expect(Mark::Comma)?;
    let field = symbols.name()?;
    symbols.expect(Mark::Close)?;
    symbols.expect(Mark::Semicolon)?;
    Ok(Action::GlobalSet(to, field))
}

/// `name = expression;`.
#[tactic(auto, unfolding(sl_parse_grammar::specs::Statements::set_here))]
fn set_here<'a>(alloc: Global, symbols: &mut Symbols<'_, 'a>) -> Result<Action<'a>, Stop>
    ensures { Reads action_of (reader.set_here heaviest symbols.old) result symbols.new }
{
    let name = symbols.name()?;
    symbols.expect(Mark::Equals)?;
    let value = whole(alloc, symbols, Kind::Action)?;
    symbols.expect(Mark::Semicolon)?;
    Ok(Action::Assign(name, value))
}

impl<'a> Part<'a> for Action<'a> {
    ghost use Rattle.sl_ast.specs.Trees as t;

    ghost Tree = { t.Action };

    ghost view = { action_of };

    ghost reader = { reader.action heaviest };

    #[tactic(auto, unfolding(sl_parse_grammar::specs::Statements::action))]
    fn read(alloc: Global, symbols: &mut Symbols<'_, 'a>) -> Result<Action<'a>, Stop> {
        match symbols.peek() {
            Some(Symbol::Quoted(Keyword::GlobalSet, _)) => global_set_here(symbols),
            _ => set_here(alloc, symbols),
        }
    }
}

impl<'a> Repeated<'a> for Action<'a> {
    ghost goes = { reader.until m.CloseBracket };

    fn comes(symbols: &Symbols<'_, 'a>) -> bool {
        !symbols.is_mark(Mark::CloseBracket)
    }
}

/// Actions in brackets.
#[tactic(auto, unfolding(sl_parse_grammar::specs::Statements::actions))]
fn actions<'a>(alloc: Global, symbols: &mut Symbols<'_, 'a>) -> Result<Vec<Action<'a>>, Stop>
    ensures { Reads (seen_by action_of) (reader.actions heaviest symbols.old) result symbols.new }
{
    symbols.expect(Mark::OpenBracket)?;
    let found = many(alloc, symbols)?;
    symbols.expect(Mark::CloseBracket)?;
    Ok(found)
}

/// Actions in brackets, which may lack.
pub fn actions_option<'a>(
    alloc: Global,
    symbols: &mut Symbols<'_, 'a>,
) -> Result<Option<Vec<Action<'a>>>, Stop>
    ensures { Reads (option_map (seen_by action_of)) (optional (is_mark m.OpenBracket) (reader.actions heaviest) symbols.old) result symbols.new }
{
    if symbols.is_mark(Mark::OpenBracket) {
        let found = actions(alloc, symbols)?;
        Ok(Some(found))
    } else {
        Ok(None)
    }
}
