//! Lists of trees: one behind the other, or with commas between.

ghost use Rattle.std.specs.Prelude.{◌≡◌, Bool, Option};
ghost use Rattle.sl_ast.specs.Symbols.{Sym};
ghost use Rattle.sl_parse_grammar.specs.Lists as lists;
ghost use Rattle.sl_parse_grammar.specs.Reader.{Reader, first};
ghost use Rattle.sl_parse_phrases.specs.Reads.{Reads, seen_by};

use sl_ast::symbols::Mark;
use sl_parse_phrases::stop::Stop;
use sl_parse_phrases::symbols::Symbols;
use std::alloc::Global;

/// A tree that stands in lists.
pub trait Part<'a>: Drop {
    ghost Tree: { Type 0 };

    ghost view: { Self → Tree };

    ghost reader: { Reader Tree };

    /// Reads one.
    fn read(alloc: Global, symbols: &mut Symbols<'_, 'a>) -> Result<Self, Stop>
        ensures { Reads view (reader symbols.old) result symbols.new };
}

/// A tree of which one stands behind the other, as long as the symbol that comes next passes a test.
pub trait Repeated<'a>: Part<'a> {
    ghost goes: { Option Sym → Bool };

    /// Whether another one comes.
    fn comes(symbols: &Symbols<'_, 'a>) -> bool
        ensures { result ≡ goes (first symbols.now.rest) };
}

/// One behind the other, as long as another one comes.
#[tactic(auto, unfolding(sl_parse_grammar::specs::Lists::many_from))]
pub fn many<'a, P: Repeated<'a>>(
    alloc: Global,
    symbols: &mut Symbols<'_, 'a>,
) -> Result<Vec<P>, Stop>
    ensures { Reads (seen_by P.view) (lists.many P.goes P.reader symbols.old) result symbols.new }
{
    let mut found = Vec::new(alloc);
    'rounds: for _round in 0..=symbols.left() {
        if !P::comes(symbols) {
            return Ok(found);
        }
        found.push(P::read(alloc, symbols)?)?;
    }
    Err(symbols.refuse())
}

/// One or more, with commas between.
#[tactic(auto, unfolding(sl_parse_grammar::specs::Lists::separated_from))]
pub fn separated<'a, P: Part<'a>>(
    alloc: Global,
    symbols: &mut Symbols<'_, 'a>,
) -> Result<Vec<P>, Stop>
    ensures { Reads (seen_by P.view) (lists.separated P.reader symbols.old) result symbols.new }
{
    let mut found = Vec::new(alloc);
    'rounds: for _round in 0..=symbols.left() {
        found.push(P::read(alloc, symbols)?)?;
        if !symbols.is_mark(Mark::Comma) {
            return Ok(found);
        }
        symbols.skip();
    }
    Err(symbols.refuse())
}

/// A list with commas between, which may be empty, before a closing bracket.
#[tactic(auto, unfolding(sl_parse_grammar::specs::Lists::listed))]
pub fn listed<'a, P: Part<'a>>(alloc: Global, symbols: &mut Symbols<'_, 'a>) -> Result<Vec<P>, Stop>
    ensures { Reads (seen_by P.view) (lists.listed P.reader symbols.old) result symbols.new }
{
    if symbols.is_mark(Mark::Close) {
        return Ok(Vec::new(alloc));
    }
    let found = separated(alloc, symbols)?;
    Ok(found)
}
