//! `with` blocks.

ghost use Rattle.std.specs.Prelude.{IfOk};
ghost use Rattle.sl_ast.specs.Validity.{heaviest};
ghost use Rattle.sl_parse_grammar.specs.Items as reader;
ghost use Rattle.sl_parse_grammar.specs.Reader.{first};
ghost use Rattle.sl_parse.specs.Blocks.{KeepsBlock, KeepsInside, KeepsPart, block_of, constructor_or_block, chain_of, inside_of_vec};
ghost use Rattle.sl_parse_phrases.specs.Reads.{Reads};

use crate::constructors::{constructor_here, head};
use sl_ast::constructors::{Head, Inner};
use sl_ast::symbols::{Keyword, Mark};
use sl_parse_phrases::stop::Stop;
use sl_parse_phrases::symbols::Symbols;
use std::alloc::Global;

/// A block with what stands inside.
#[derive(Drop)]
pub struct Block<'a> {
    pub head: Head<'a>,
    pub inside: Vec<Inner<'a>>,
}

/// A block, with blocks inside one another at most `depth` times, itself counted. `total` is the number of all
/// symbols.
#[cycle(block)]
#[tactic(auto, unfolding(sl_parse_grammar::specs::Items::block_at))]
pub fn block_at<'a>(
    alloc: Global,
    symbols: &mut Symbols<'_, 'a>,
    total: usize,
    depth: usize,
) -> Result<Block<'a>, Stop>
    ensures reads { Reads block_of (reader.block_at heaviest depth symbols.old) result symbols.new }
    ensures places { IfOk result (KeepsBlock total symbols.old) }
{
    if depth == 0 {
        return Err(symbols.too_deep());
    }
    let head = head(alloc, symbols)?;
    let inside = inside(alloc, symbols, total, depth - 1)?;
    symbols.expect(Mark::CloseBrace)?;
    Ok(Block { head, inside })
}

/// What stands inside a block, up to its closing brace.
#[cycle(block)]
#[tactic(auto, unfolding(sl_parse_grammar::specs::Items::inside_from))]
fn inside<'a>(
    alloc: Global,
    symbols: &mut Symbols<'_, 'a>,
    total: usize,
    depth: usize,
) -> Result<Vec<Inner<'a>>, Stop>
    ensures reads { Reads inside_of_vec (reader.inside (reader.constructor_here heaviest) (reader.block_at heaviest depth) symbols.old) result symbols.new }
    ensures places { IfOk result (λ found. KeepsInside total symbols.old found.items) }
{
    let mut found = Vec::new(alloc);
    'parts: for _round in 0..symbols.rounds() {
        if symbols.is_mark(Mark::CloseBrace) {
            return Ok(found);
        }
        found.push(inner(alloc, symbols, total, depth)?)?;
    }
    Err(symbols.refuse())
}

/// A constructor or a block inside a block.
#[cycle(block)]
fn inner<'a>(
    alloc: Global,
    symbols: &mut Symbols<'_, 'a>,
    total: usize,
    depth: usize,
) -> Result<Inner<'a>, Stop>
    ensures reads { Reads chain_of (constructor_or_block (reader.constructor_here heaviest) (reader.block_at heaviest depth) (first symbols.old.rest) symbols.old) result symbols.new }
    ensures places { IfOk result (λ x. KeepsPart total symbols.old x symbols.new) }
{
    let place = total.saturating_sub(symbols.left());
    if symbols.is_keyword(Keyword::With) {
        let block = block_at(alloc, symbols, total, depth)?;
        Ok(Inner::With(place, block.head, block.inside))
    } else {
        let constructor = constructor_here(alloc, symbols)?;
        Ok(Inner::Constructor(place, constructor))
    }
}
