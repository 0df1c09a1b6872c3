//! Expressions, by rank.

ghost use Rattle.std.specs.Prelude.{suc};
ghost use Rattle.sl_ast.specs.Operators.{in_constraint, loosest, right_rank};
ghost use Rattle.sl_ast.specs.Trees.{binary};
ghost use Rattle.sl_ast.specs.Validity.{heaviest};
ghost use Rattle.sl_ast.specs.Views.{expression_of};
ghost use Rattle.sl_parse_grammar.specs.Climb.{grown};
ghost use Rattle.sl_parse_grammar.specs.Expressions as reader;
ghost use Rattle.sl_parse_grammar.specs.Expressions.{expression, turn};
ghost use Rattle.sl_parse_grammar.specs.Lists.{separated};
ghost use Rattle.sl_parse_phrases.specs.Kinds.{kind_of};
ghost use Rattle.sl_parse_phrases.specs.Reads.{Reads, vec_expressions};

use crate::atoms::{behind, space_in};
use crate::missing::feature_of;
use crate::operators::{Kind, is_section, right_rank};
use crate::shapes::turn;
use crate::stop::Stop;
use crate::symbols::{HEAVIEST, Symbols};
use sl_ast::expressions::{Expr, PrefixOp, binary, call, integer, named, paren, prefix, star};
use sl_ast::symbols::{Feature, Keyword, Mark};
use sl_parse_terminals::Symbol;
use std::alloc::Global;

/// The loosest rank of an expression.
const LOOSEST: u8 = 10;

/// An expression of the rank or tighter, with brackets, prefixes and right operands nested no deeper than
/// `depth`.
#[cycle(expression)]
#[tactic(auto, unfolding(sl_parse_grammar::specs::Expressions::expression))]
pub fn expression<'a>(
    alloc: Global,
    symbols: &mut Symbols<'_, 'a>,
    kind: Kind,
    depth: usize,
    most: u8,
) -> Result<Expr<'a>, Stop>
    ensures { Reads expression_of (expression (kind_of kind) depth most symbols.old) result symbols.new }
{
    if depth == 0 {
        return Err(symbols.too_deep());
    }
    let left = tight(alloc, symbols, kind, depth - 1)?;
    grown(alloc, symbols, kind, depth - 1, most, left)
}

/// The operators that follow, each with its right operand, from the left.
#[cycle(expression)]
#[tactic(auto, unfolding(sl_parse_grammar::specs::Climb::climb))]
fn grown<'a>(
    alloc: Global,
    symbols: &mut Symbols<'_, 'a>,
    kind: Kind,
    depth: usize,
    most: u8,
    start: Expr<'a>,
) -> Result<Expr<'a>, Stop>
    ensures { Reads expression_of (grown (turn (kind_of kind) most) right_rank binary (expression (kind_of kind) depth) (expression_of start.entry) symbols.old) result symbols.new }
{
    let mut left = start;
    'rounds: for _round in 0..=symbols.room() {
        let Some(op) = turn(symbols, kind, most, &left) else {
            return Ok(left);
        };
        symbols.enter()?;
        let right = expression(alloc, symbols, kind, depth, right_rank(op))?;
        left = binary(alloc, op, left, right)?;
    }
    Ok(left)
}

/// A prefix with its operand, a star form, or an atom with what stands behind it.
#[cycle(expression)]
#[tactic(auto, unfolding(sl_parse_grammar::specs::Expressions::tight))]
fn tight<'a>(
    alloc: Global,
    symbols: &mut Symbols<'_, 'a>,
    kind: Kind,
    depth: usize,
) -> Result<Expr<'a>, Stop>
    ensures { Reads expression_of (reader.tight (kind_of kind) (expression (kind_of kind) depth) symbols.old) result symbols.new }
{
    match symbols.peek() {
        Some(Symbol::Mark(Mark::Minus)) => prefixed(alloc, symbols, kind, depth, PrefixOp::Negate),
        Some(Symbol::Mark(Mark::Tilde)) => {
            prefixed(alloc, symbols, kind, depth, PrefixOp::Complement)
        }
        Some(Symbol::Mark(Mark::Exclamation)) => {
            if is_section(kind) {
                prefixed(alloc, symbols, kind, depth, PrefixOp::Not)
            } else {
                Err(symbols.refuse())
            }
        }
        Some(Symbol::Mark(Mark::Star)) => {
            if is_section(kind) {
                starred(alloc, symbols, kind, depth)
            } else {
                Err(symbols.refuse())
            }
        }
        Some(Symbol::Mark(Mark::Ampersand)) => Err(symbols.unsupported(Feature::AddressOf)),
        _ => postfix(alloc, symbols, kind, depth),
    }
}

/// A prefix with its operand.
#[cycle(expression)]
#[tactic(auto, unfolding(sl_parse_grammar::specs::Expressions::prefixed))]
fn prefixed<'a>(
    alloc: Global,
    symbols: &mut Symbols<'_, 'a>,
    kind: Kind,
    depth: usize,
    op: PrefixOp,
) -> Result<Expr<'a>, Stop>
    ensures { Reads expression_of (reader.prefixed (kind_of kind) (expression (kind_of kind) depth) op symbols.old) result symbols.new }
{
    symbols.enter()?;
    let inner = expression(alloc, symbols, kind, depth, 0)?;
    let whole = prefix(alloc, op, inner)?;
    Ok(whole)
}

/// `*[space]:n` with its pointer.
#[cycle(expression)]
#[tactic(auto, unfolding(sl_parse_grammar::specs::Expressions::starred))]
fn starred<'a>(
    alloc: Global,
    symbols: &mut Symbols<'_, 'a>,
    kind: Kind,
    depth: usize,
) -> Result<Expr<'a>, Stop>
    ensures { Reads expression_of (reader.starred (kind_of kind) (expression (kind_of kind) depth) symbols.old) result symbols.new }
{
    symbols.enter()?;
    let space = space_in(symbols)?;
    let size = symbols.size_option()?;
    let pointer = expression(alloc, symbols, kind, depth, 0)?;
    let whole = star(alloc, space, size, pointer)?;
    Ok(whole)
}

/// An atom with what stands behind it.
#[cycle(expression)]
#[tactic(auto, unfolding(sl_parse_grammar::specs::Expressions::postfix))]
fn postfix<'a>(
    alloc: Global,
    symbols: &mut Symbols<'_, 'a>,
    kind: Kind,
    depth: usize,
) -> Result<Expr<'a>, Stop>
    ensures { Reads expression_of (reader.postfix (kind_of kind) (expression (kind_of kind) depth) symbols.old) result symbols.new }
{
    let inner = atom(alloc, symbols, kind, depth)?;
    if is_section(kind) {
        behind(alloc, symbols, inner)
    } else {
        Ok(inner)
    }
}

/// An integer, a name, a call or an expression in brackets.
#[cycle(expression)]
#[tactic(auto, unfolding(sl_parse_grammar::specs::Expressions::atom))]
fn atom<'a>(
    alloc: Global,
    symbols: &mut Symbols<'_, 'a>,
    kind: Kind,
    depth: usize,
) -> Result<Expr<'a>, Stop>
    ensures { Reads expression_of (reader.atom (kind_of kind) (expression (kind_of kind) depth) symbols.old) result symbols.new }
{
    match symbols.peek() {
        Some(Symbol::Number(number)) => {
            symbols.skip();
            Ok(integer(number))
        }
        Some(Symbol::Name(name)) => match kind {
            Kind::Section => {
                symbols.skip();
                after_name(alloc, symbols, kind, depth, name)
            }
            Kind::Action => {
                symbols.skip();
                Ok(named(name))
            }
            Kind::Constraint => Err(symbols.unsupported(Feature::NameInConstraint)),
        },
        Some(Symbol::Quoted(Keyword::InstNext2, _)) => match kind {
            Kind::Constraint => Err(symbols.unsupported(Feature::NameInConstraint)),
            _ => Err(symbols.refuse()),
        },
        Some(Symbol::Mark(Mark::Open)) => bracketed(alloc, symbols, kind, depth),
        _ => Err(symbols.refuse()),
    }
}

/// An expression in brackets.
#[cycle(expression)]
#[tactic(auto, unfolding(sl_parse_grammar::specs::Expressions::bracketed))]
fn bracketed<'a>(
    alloc: Global,
    symbols: &mut Symbols<'_, 'a>,
    kind: Kind,
    depth: usize,
) -> Result<Expr<'a>, Stop>
    ensures { Reads expression_of (reader.bracketed (kind_of kind) (expression (kind_of kind) depth) symbols.old) result symbols.new }
{
    symbols.enter()?;
    let inner = expression(alloc, symbols, kind, depth, LOOSEST)?;
    symbols.expect(Mark::Close)?;
    let whole = paren(alloc, inner)?;
    Ok(whole)
}

/// The name, or a call of it where a bracket follows.
#[cycle(expression)]
#[tactic(auto, unfolding(sl_parse_grammar::specs::Expressions::after_name))]
fn after_name<'a>(
    alloc: Global,
    symbols: &mut Symbols<'_, 'a>,
    kind: Kind,
    depth: usize,
    name: &'a [u8],
) -> Result<Expr<'a>, Stop>
    ensures { Reads expression_of (reader.after_name (kind_of kind) (expression (kind_of kind) depth) name.now symbols.old) result symbols.new }
{
    if !symbols.is_mark(Mark::Open) {
        return Ok(named(name));
    }
    match feature_of(name) {
        Some(feature) => Err(symbols.unsupported_before(feature, 1)),
        None => called(alloc, symbols, kind, depth, name),
    }
}

/// The arguments of a call of the name.
#[cycle(expression)]
#[tactic(auto, unfolding(sl_parse_grammar::specs::Expressions::called))]
fn called<'a>(
    alloc: Global,
    symbols: &mut Symbols<'_, 'a>,
    kind: Kind,
    depth: usize,
    name: &'a [u8],
) -> Result<Expr<'a>, Stop>
    ensures { Reads expression_of (reader.called (kind_of kind) (expression (kind_of kind) depth) name.now symbols.old) result symbols.new }
{
    symbols.enter()?;
    let given = arguments(alloc, symbols, kind, depth)?;
    symbols.expect(Mark::Close)?;
    Ok(call(name, given))
}

/// One argument or more, with commas between.
#[cycle(expression)]
#[tactic(auto, unfolding(sl_parse_grammar::specs::Lists::separated_from))]
fn arguments<'a>(
    alloc: Global,
    symbols: &mut Symbols<'_, 'a>,
    kind: Kind,
    depth: usize,
) -> Result<Vec<Expr<'a>>, Stop>
    ensures { Reads vec_expressions (separated (expression (kind_of kind) depth loosest) symbols.old) result symbols.new }
{
    let mut found = Vec::new(alloc);
    'rounds: for _round in 0..=symbols.left() {
        found.push(expression(alloc, symbols, kind, depth, LOOSEST)?)?;
        if !symbols.is_mark(Mark::Comma) {
            return Ok(found);
        }
        symbols.skip();
    }
    Err(symbols.refuse())
}

/// An expression that stands in no other.
#[tactic(auto, unfolding(sl_parse_grammar::specs::Expressions::whole))]
pub fn whole<'a>(alloc: Global, symbols: &mut Symbols<'_, 'a>, kind: Kind) -> Result<Expr<'a>, Stop>
    ensures { Reads expression_of (reader.whole heaviest (kind_of kind) symbols.old) result symbols.new }
{
    let outer = symbols.room();
    symbols.set_room(HEAVIEST);
    let read = expression(alloc, symbols, kind, HEAVIEST + 1, LOOSEST)?;
    symbols.set_room(outer);
    Ok(read)
}

/// A constraint's expression, which has the room of its pattern.
pub fn constrained<'a>(alloc: Global, symbols: &mut Symbols<'_, 'a>) -> Result<Expr<'a>, Stop>
    ensures { Reads expression_of (expression in_constraint (suc heaviest) loosest symbols.old) result symbols.new }
{
    let read = expression(alloc, symbols, Kind::Constraint, HEAVIEST + 1, LOOSEST)?;
    Ok(read)
}
