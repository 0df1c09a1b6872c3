//! Bit patterns, by rank.

ghost use Rattle.std.specs.Prelude.{◌≡◌};
ghost use Rattle.sl_ast.specs.Operators as spec;
ghost use Rattle.sl_ast.specs.Operators.{pattern_right_rank};
ghost use Rattle.sl_ast.specs.Trees.{joined};
ghost use Rattle.sl_ast.specs.Validity.{heaviest};
ghost use Rattle.sl_ast.specs.Views.{pattern_of};
ghost use Rattle.sl_parse_grammar.specs.Climb.{grown};
ghost use Rattle.sl_parse_grammar.specs.Patterns as reader;
ghost use Rattle.sl_parse_grammar.specs.Patterns.{pattern, pattern_turn};
ghost use Rattle.sl_parse_grammar.specs.Reader.{first};
ghost use Rattle.sl_parse_phrases.specs.Reads.{Reads};

use crate::expressions::constrained;
use crate::stop::Stop;
use crate::symbols::{HEAVIEST, Symbols};
use sl_ast::patterns::{Pattern, PatternOp, Relation, bare, constraint, ellipsis, group, joined};
use sl_ast::symbols::{Feature, Mark};
use sl_parse_terminals::Symbol;
use std::alloc::Global;

/// The loosest rank of a pattern.
const LOOSEST: u8 = 3;

/// How the mark compares a field with an expression.
pub fn relation_of(mark: Mark) -> Option<Relation>
    ensures { result ≡ reader.relation_of mark }
{
    Some(match mark {
        Mark::Equals => Relation::Equal,
        Mark::NotEqual => Relation::NotEqual,
        Mark::Less => Relation::Less,
        Mark::LessEqual => Relation::LessEqual,
        Mark::Greater => Relation::Greater,
        Mark::GreaterEqual => Relation::GreaterEqual,
        _ => return None,
    })
}

/// How the mark joins two patterns.
pub fn joining_of(mark: Mark) -> Option<PatternOp>
    ensures { result ≡ reader.joining_of mark }
{
    match mark {
        Mark::Ampersand => Some(PatternOp::And),
        Mark::Semicolon => Some(PatternOp::Then),
        Mark::Bar => Some(PatternOp::Or),
        _ => None,
    }
}

/// The loosest rank of the operator's right pattern.
pub fn right_rank(op: PatternOp) -> u8
    ensures { result ≡ spec.pattern_right_rank op }
{
    match op {
        PatternOp::And => 0,
        PatternOp::Then => 1,
        PatternOp::Or => 2,
    }
}

/// The pattern's rank: 0, or one more than its operator's right pattern may have.
pub fn rank(p: &Pattern) -> u8
    ensures { result ≡ spec.pattern_rank (pattern_of p.now) }
{
    match p {
        Pattern::Name(_)
        | Pattern::Constraint(_, _, _)
        | Pattern::Paren(_)
        | Pattern::Ellipsis(_) => 0,
        Pattern::Joined(op, _, _) => right_rank(*op) + 1,
    }
}

/// The operator that comes next, if it may follow this pattern at this rank.
#[tactic(auto, unfolding(sl_parse_grammar::specs::Patterns::pattern_turn))]
pub fn turn(symbols: &Symbols, most: u8, left: &Pattern) -> Option<PatternOp>
    ensures { result ≡ pattern_turn most (pattern_of left.now) (first symbols.now.rest) }
{
    let Some(Symbol::Mark(mark)) = symbols.peek() else {
        return None;
    };
    let op = joining_of(mark)?;
    if right_rank(op) < most && rank(left) <= right_rank(op) + 1 {
        Some(op)
    } else {
        None
    }
}

/// The relation that comes next.
fn relation_here(symbols: &Symbols) -> Option<Relation>
    ensures { result ≡ reader.relation_in (first symbols.now.rest) }
{
    match symbols.peek() {
        Some(Symbol::Mark(mark)) => relation_of(mark),
        _ => None,
    }
}

/// A constraint of the field.
#[tactic(auto, unfolding(sl_parse_grammar::specs::Patterns::constrained))]
fn compared<'a>(
    alloc: Global,
    symbols: &mut Symbols<'_, 'a>,
    name: &'a [u8],
    relation: Relation,
) -> Result<Pattern<'a>, Stop>
    ensures { Reads pattern_of (reader.constrained heaviest name.now relation symbols.old) result symbols.new }
{
    symbols.enter()?;
    let value = constrained(alloc, symbols)?;
    Ok(constraint(name, relation, value))
}

/// What stands behind a name: nothing, or a relation with an expression.
#[tactic(auto, unfolding(sl_parse_grammar::specs::Patterns::after_field))]
fn after_field<'a>(
    alloc: Global,
    symbols: &mut Symbols<'_, 'a>,
    name: &'a [u8],
) -> Result<Pattern<'a>, Stop>
    ensures { Reads pattern_of (reader.after_field heaviest name.now symbols.old) result symbols.new }
{
    match relation_here(symbols) {
        Some(relation) => compared(alloc, symbols, name, relation),
        None => Ok(bare(name)),
    }
}

/// A pattern of the rank or tighter, with brackets and right patterns nested no deeper than `depth`.
#[cycle(pattern)]
#[tactic(auto, unfolding(sl_parse_grammar::specs::Patterns::pattern))]
pub fn pattern<'a>(
    alloc: Global,
    symbols: &mut Symbols<'_, 'a>,
    depth: usize,
    most: u8,
) -> Result<Pattern<'a>, Stop>
    ensures { Reads pattern_of (pattern heaviest depth most symbols.old) result symbols.new }
{
    if depth == 0 {
        return Err(symbols.too_deep());
    }
    let left = element(alloc, symbols, depth - 1)?;
    grown(alloc, symbols, depth - 1, most, left)
}

/// The operators that follow, each with its right pattern, from the left.
#[cycle(pattern)]
#[tactic(auto, unfolding(sl_parse_grammar::specs::Climb::climb))]
fn grown<'a>(
    alloc: Global,
    symbols: &mut Symbols<'_, 'a>,
    depth: usize,
    most: u8,
    start: Pattern<'a>,
) -> Result<Pattern<'a>, Stop>
    ensures { Reads pattern_of (grown (pattern_turn most) pattern_right_rank joined (pattern heaviest depth) (pattern_of start.entry) symbols.old) result symbols.new }
{
    let mut left = start;
    'rounds: for _round in 0..=symbols.room() {
        let Some(op) = turn(symbols, most, &left) else {
            return Ok(left);
        };
        symbols.enter()?;
        let right = pattern(alloc, symbols, depth, right_rank(op))?;
        left = joined(alloc, op, left, right)?;
    }
    Ok(left)
}

/// A part, with `...` behind it or not.
#[cycle(pattern)]
#[tactic(auto, unfolding(sl_parse_grammar::specs::Patterns::element))]
fn element<'a>(
    alloc: Global,
    symbols: &mut Symbols<'_, 'a>,
    depth: usize,
) -> Result<Pattern<'a>, Stop>
    ensures { Reads pattern_of (reader.element heaviest (pattern heaviest depth) symbols.old) result symbols.new }
{
    let inner = part(alloc, symbols, depth)?;
    if !symbols.is_mark(Mark::Ellipsis) {
        return Ok(inner);
    }
    symbols.enter()?;
    let whole = ellipsis(alloc, inner)?;
    Ok(whole)
}

/// A name alone, a constraint or a pattern in brackets.
#[cycle(pattern)]
#[tactic(auto, unfolding(sl_parse_grammar::specs::Patterns::part))]
fn part<'a>(alloc: Global, symbols: &mut Symbols<'_, 'a>, depth: usize) -> Result<Pattern<'a>, Stop>
    ensures { Reads pattern_of (reader.part heaviest (pattern heaviest depth) symbols.old) result symbols.new }
{
    match symbols.peek() {
        Some(Symbol::Name(name)) => {
            symbols.skip();
            after_field(alloc, symbols, name)
        }
        Some(Symbol::Mark(Mark::Open)) => grouped(alloc, symbols, depth),
        Some(Symbol::Mark(Mark::Ellipsis)) => Err(symbols.unsupported(Feature::LeadingEllipsis)),
        _ => Err(symbols.refuse()),
    }
}

/// A pattern in brackets.
#[cycle(pattern)]
#[tactic(auto, unfolding(sl_parse_grammar::specs::Patterns::grouped))]
fn grouped<'a>(
    alloc: Global,
    symbols: &mut Symbols<'_, 'a>,
    depth: usize,
) -> Result<Pattern<'a>, Stop>
    ensures { Reads pattern_of (reader.grouped (pattern heaviest depth) symbols.old) result symbols.new }
{
    symbols.enter()?;
    let inner = pattern(alloc, symbols, depth, LOOSEST)?;
    symbols.expect(Mark::Close)?;
    let whole = group(alloc, inner)?;
    Ok(whole)
}

/// A pattern that stands in no other.
#[tactic(auto, unfolding(sl_parse_grammar::specs::Patterns::whole_pattern))]
pub fn whole_pattern<'a>(alloc: Global, symbols: &mut Symbols<'_, 'a>) -> Result<Pattern<'a>, Stop>
    ensures { Reads pattern_of (reader.whole_pattern heaviest symbols.old) result symbols.new }
{
    let outer = symbols.room();
    symbols.set_room(HEAVIEST);
    let read = pattern(alloc, symbols, HEAVIEST + 1, LOOSEST)?;
    symbols.set_room(outer);
    Ok(read)
}
