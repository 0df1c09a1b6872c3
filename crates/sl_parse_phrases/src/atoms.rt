//! What stands behind an atom of an expression.

ghost use Rattle.sl_ast.specs.Views.{bytes, expression_of};
ghost use Rattle.std.specs.Prelude.{◌≡◌, ◌&&◌, option_map};
ghost use Rattle.sl_parse_grammar.specs.Expressions as reader;
ghost use Rattle.sl_parse_grammar.specs.Reader.{first, is_mark};
ghost use Rattle.sl_parse_phrases.specs.Reads.{Reads, ReadsAll};

use crate::shapes::{takes_bits, takes_drop, takes_size};
use crate::stop::Stop;
use crate::symbols::Symbols;
use sl_ast::expressions::{Expr, bits, dropped, sized};
use sl_ast::symbols::Mark;
use std::alloc::Global;

/// `:n` behind the expression.
#[tactic(auto, unfolding(sl_parse_grammar::specs::Expressions::size_behind))]
pub fn size_behind<'a>(
    alloc: Global,
    symbols: &mut Symbols<'_, 'a>,
    inner: Expr<'a>,
) -> Result<Expr<'a>, Stop>
    ensures { Reads expression_of (reader.size_behind (expression_of inner.entry) symbols.old) result symbols.new }
{
    symbols.skip();
    let size = symbols.size()?;
    let whole = sized(alloc, inner, size)?;
    Ok(whole)
}

/// `(n)` behind the expression.
#[tactic(auto, unfolding(sl_parse_grammar::specs::Expressions::drop_behind))]
pub fn drop_behind<'a>(
    alloc: Global,
    symbols: &mut Symbols<'_, 'a>,
    inner: Expr<'a>,
) -> Result<Expr<'a>, Stop>
    ensures { Reads expression_of (reader.drop_behind (expression_of inner.entry) symbols.old) result symbols.new }
{
    symbols.enter()?;
    let count = symbols.integer()?;
    symbols.expect(Mark::Close)?;
    let whole = dropped(alloc, inner, count)?;
    Ok(whole)
}

/// `[l,c]` behind the expression.
#[tactic(auto, unfolding(sl_parse_grammar::specs::Expressions::bits_behind))]
pub fn bits_behind<'a>(
    alloc: Global,
    symbols: &mut Symbols<'_, 'a>,
    inner: Expr<'a>,
) -> Result<Expr<'a>, Stop>
    ensures { Reads expression_of (reader.bits_behind (expression_of inner.entry) symbols.old) result symbols.new }
{
    symbols.enter()?;
    let low = symbols.integer()?;
    symbols.expect(Mark::Comma)?;
    let count = symbols.integer()?;
    symbols.expect(Mark::CloseBracket)?;
    let whole = bits(alloc, inner, low, count)?;
    Ok(whole)
}

/// `[space]` of a star form in an expression, which may lack.
#[tactic(auto, unfolding(sl_parse_grammar::specs::Expressions::space_in))]
pub fn space_in<'a>(symbols: &mut Symbols<'_, 'a>) -> Result<Option<&'a [u8]>, Stop>
    ensures { ReadsAll (option_map bytes) (reader.space_in symbols.old) result symbols.new }
{
    if symbols.is_mark(Mark::OpenBracket) {
        symbols.enter()?;
        let name = symbols.name()?;
        symbols.expect(Mark::CloseBracket)?;
        Ok(Some(name))
    } else {
        Ok(None)
    }
}

/// Whether the mark comes next, and the shape allows it.
fn is_mark_and(symbols: &Symbols, mark: Mark, allowed: bool) -> bool
    ensures { result ≡ (is_mark mark (first symbols.now.rest) && allowed) }
{
    symbols.is_mark(mark) && allowed
}

/// What stands behind an atom of a section, if it may follow that atom.
#[tactic(auto, unfolding(sl_parse_grammar::specs::Expressions::behind))]
pub fn behind<'a>(
    alloc: Global,
    symbols: &mut Symbols<'_, 'a>,
    inner: Expr<'a>,
) -> Result<Expr<'a>, Stop>
    ensures { Reads expression_of (reader.behind (expression_of inner.entry) symbols.old) result symbols.new }
{
    if is_mark_and(symbols, Mark::Colon, takes_size(&inner)) {
        size_behind(alloc, symbols, inner)
    } else if is_mark_and(symbols, Mark::Open, takes_drop(&inner)) {
        drop_behind(alloc, symbols, inner)
    } else if is_mark_and(symbols, Mark::OpenBracket, takes_bits(&inner)) {
        bits_behind(alloc, symbols, inner)
    } else {
        Ok(inner)
    }
}
