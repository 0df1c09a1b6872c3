//! Bit patterns.

ghost use Rattle.std.specs.Prelude.{◌≡◌};
ghost use Rattle.sl_ast.specs.Views.{pattern_of};
ghost use Rattle.sl_store_format.specs.Forms.{pattern_forms};
ghost use Rattle.sl_store_format.specs.Patterns as reader;
ghost use Rattle.sl_store_bytes.specs.Reads.{Plain, Reads};
ghost use Rattle.sl_store_bytes.specs.Tables.{coded_if};
ghost use Rattle.sl_store_phrases.specs.Within.{pattern_form_of, ReadsPattern, SpendsPattern};

use crate::expressions::{self, HEAVIEST, expression};
use crate::operands::taken;
use crate::words::name;
use sl_ast::patterns::{Pattern, PatternOp, Relation, bare, constraint, ellipsis, group, joined};
use sl_parse_phrases::operators::Kind;
use sl_parse_phrases::patterns::right_rank;
use sl_store_bytes::{Bytes, Stop};
use sl_store_format::forms::PatternForm;
use std::alloc::Global;

/// The loosest rank of a pattern.
const LOOSEST: u8 = 3;

/// Whether the form may be in a pattern of the rank with that room.
fn fits(room: u64, rank: u8, form: PatternForm) -> bool
    ensures { result ≡ reader.pattern_fits room rank form }
{
    match form {
        PatternForm::Name => true,
        PatternForm::Constraint => room >= 1,
        PatternForm::Paren => room >= 1,
        PatternForm::Ellipsis => room >= 1,
        PatternForm::And => room >= 1 && rank >= 1,
        PatternForm::Then => room >= 1 && rank >= 2,
        PatternForm::Or => room >= 1 && rank >= 3,
    }
}

/// The form of a pattern of the rank.
#[tactic(auto, unfolding(sl_store_bytes::specs::Reader::choose))]
fn form_here(bytes: &mut Bytes<'_>, room: u64, rank: u8) -> Result<PatternForm, Stop>
    ensures { Reads Plain (coded_if (reader.pattern_fits room rank) pattern_forms bytes.old) result
        bytes.new }
{
    match bytes.peek::<PatternForm>() {
        Some(form) => taken(bytes, form, fits(room, rank, form)),
        None => Err(bytes.refuse()),
    }
}

/// Whether `...` may follow the form.
fn ellipsis_fits(room: u64, form: PatternForm) -> bool
    ensures { result ≡ reader.ellipsis_fits room form }
{
    match form {
        PatternForm::Name => true,
        PatternForm::Constraint | PatternForm::Paren => room >= 1,
        _ => false,
    }
}

/// The form of what `...` may follow.
#[tactic(auto, unfolding(sl_store_bytes::specs::Reader::choose))]
fn form_before_ellipsis(bytes: &mut Bytes<'_>, room: u64) -> Result<PatternForm, Stop>
    ensures { Reads Plain (coded_if (reader.ellipsis_fits room) pattern_forms bytes.old) result
        bytes.new }
{
    match bytes.peek::<PatternForm>() {
        Some(form) => taken(bytes, form, ellipsis_fits(room, form)),
        None => Err(bytes.refuse()),
    }
}

/// A pattern of the rank or tighter, with patterns inside one another fewer than `depth` times. It
/// takes what it needs of the room.
#[cycle(pattern)]
fn pattern<'a>(
    alloc: Global,
    bytes: &mut Bytes<'a>,
    depth: u64,
    room: &mut u64,
    rank: u8,
) -> Result<Pattern<'a>, Stop>
    ensures reads { Reads pattern_of (reader.pattern depth room.old rank bytes.old) result bytes.new }
    ensures spent { SpendsPattern room.old room.new result }
{
    if depth == 0 {
        return Err(bytes.refuse());
    }
    formed(alloc, bytes, depth - 1, room, rank)
}

/// A pattern of the rank or tighter, by its form.
#[cycle(pattern)]
fn formed<'a>(
    alloc: Global,
    bytes: &mut Bytes<'a>,
    depth: u64,
    room: &mut u64,
    rank: u8,
) -> Result<Pattern<'a>, Stop>
    ensures reads { ReadsPattern (pattern_form_of rank) depth room.old bytes.old result bytes.new }
    ensures spent { SpendsPattern room.old room.new result }
{
    match form_here(bytes, *room, rank)? {
        PatternForm::Ellipsis => with_ellipsis(alloc, bytes, depth, room),
        PatternForm::And => both_patterns(alloc, bytes, depth, room, PatternOp::And),
        PatternForm::Then => both_patterns(alloc, bytes, depth, room, PatternOp::Then),
        PatternForm::Or => both_patterns(alloc, bytes, depth, room, PatternOp::Or),
        PatternForm::Name => simple(alloc, bytes, depth, room, PatternForm::Name),
        PatternForm::Constraint => simple(alloc, bytes, depth, room, PatternForm::Constraint),
        PatternForm::Paren => simple(alloc, bytes, depth, room, PatternForm::Paren),
    }
}

/// A name alone, a constraint, or else a pattern in brackets.
#[cycle(pattern)]
fn simple<'a>(
    alloc: Global,
    bytes: &mut Bytes<'a>,
    depth: u64,
    room: &mut u64,
    form: PatternForm,
) -> Result<Pattern<'a>, Stop>
    ensures reads { ReadsPattern (λ d inner room. reader.simple_pattern d inner room form) depth
        room.old bytes.old result bytes.new }
    ensures spent { SpendsPattern room.old room.new result }
{
    match form {
        PatternForm::Name => {
            let name = name(bytes)?;
            Ok(bare(name))
        }
        PatternForm::Constraint => constrained(alloc, bytes, depth, room),
        _ => grouped(alloc, bytes, depth, room),
    }
}

/// A name with a relation and an expression, after the byte.
#[tactic(auto, unfolding(sl_store_format::specs::Patterns::constrained))]
fn constrained<'a>(
    alloc: Global,
    bytes: &mut Bytes<'a>,
    depth: u64,
    room: &mut u64,
) -> Result<Pattern<'a>, Stop>
    ensures reads { ReadsPattern reader.constrained depth room.old bytes.old result bytes.new }
    ensures spent { SpendsPattern room.old room.new result }
{
    let name = name(bytes)?;
    let relation = bytes.coded::<Relation>()?;
    *room = room.saturating_sub(1);
    let value = expression(
        alloc,
        bytes,
        Kind::Constraint,
        depth,
        room,
        expressions::LOOSEST,
    )?;
    Ok(constraint(name, relation, value))
}

/// A pattern in brackets, after its byte.
#[cycle(pattern)]
#[tactic(auto, unfolding(sl_store_format::specs::Patterns::grouped))]
fn grouped<'a>(
    alloc: Global,
    bytes: &mut Bytes<'a>,
    depth: u64,
    room: &mut u64,
) -> Result<Pattern<'a>, Stop>
    ensures reads { ReadsPattern reader.grouped depth room.old bytes.old result bytes.new }
    ensures spent { SpendsPattern room.old room.new result }
{
    *room = room.saturating_sub(1);
    let inner = pattern(alloc, bytes, depth, room, LOOSEST)?;
    let whole = group(alloc, inner)?;
    Ok(whole)
}

/// A pattern with `...`, after its byte.
#[cycle(pattern)]
#[tactic(auto, unfolding(sl_store_format::specs::Patterns::with_ellipsis, sl_store_format::specs::Patterns::before_ellipsis))]
fn with_ellipsis<'a>(
    alloc: Global,
    bytes: &mut Bytes<'a>,
    depth: u64,
    room: &mut u64,
) -> Result<Pattern<'a>, Stop>
    ensures reads { ReadsPattern reader.with_ellipsis depth room.old bytes.old result bytes.new }
    ensures spent { SpendsPattern room.old room.new result }
{
    *room = room.saturating_sub(1);
    let form = form_before_ellipsis(bytes, *room)?;
    let inner = simple(alloc, bytes, depth, room, form)?;
    let whole = ellipsis(alloc, inner)?;
    Ok(whole)
}

/// An operator with both patterns, after its byte.
#[cycle(pattern)]
#[tactic(auto, unfolding(sl_store_format::specs::Patterns::both_patterns))]
fn both_patterns<'a>(
    alloc: Global,
    bytes: &mut Bytes<'a>,
    depth: u64,
    room: &mut u64,
    op: PatternOp,
) -> Result<Pattern<'a>, Stop>
    ensures reads { ReadsPattern (λ d inner. reader.both_patterns d inner op) depth room.old
        bytes.old result bytes.new }
    ensures spent { SpendsPattern room.old room.new result }
{
    *room = room.saturating_sub(1);
    let left = pattern(alloc, bytes, depth, room, right_rank(op) + 1)?;
    let right = pattern(alloc, bytes, depth, room, right_rank(op))?;
    let whole = joined(alloc, op, left, right)?;
    Ok(whole)
}

/// A pattern that is in no other.
pub fn whole_pattern<'a>(alloc: Global, bytes: &mut Bytes<'a>) -> Result<Pattern<'a>, Stop>
    ensures { Reads pattern_of (reader.whole_pattern bytes.old) result bytes.new }
{
    let mut room = HEAVIEST;
    let found = pattern(alloc, bytes, HEAVIEST + 1, &mut room, LOOSEST)?;
    Ok(found)
}
