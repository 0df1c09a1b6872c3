//! How many cubes patterns may need.

ghost use Rattle.std.specs.Prelude.{◌≡◌, ◌≤◌, ◌∷◌, [], ℕ, IfOk, Some};
ghost use Rattle.sl_ast.specs.Views.{constructor_of, expression_of, head_of, pattern_of};
ghost use Rattle.sl_shape_patterns.specs.Counts.{HasPatternCount, IfCount, IsTold, joined_count};
ghost use Rattle.sl_shape_patterns.specs.Heads.{IsHeadCount};
ghost use Rattle.sl_shape_patterns.specs.Patterns.{constraint_of, told};
ghost use Rattle.sl_spec.specs.Numbers.{AreMadeFor, KeepsMade};
ghost use Rattle.sl_spec.specs.Unfolded.{heads_of, placed, under};

use crate::constraints::constraint_of;
use sl_ast::constructors::Constructor;
use sl_ast::expressions::Expr;
use sl_ast::patterns::{Pattern, PatternOp, Relation};
use sl_spec::{Around, ByBlock, Tables, Unfolded};
use std::alloc::{AllocError, Global};

/// A count as it is told.
fn told(count: usize) -> u32
    ensures { result ≡ told count }
{
    count.min(4294967295) as u32
}

fn constraint_count(
    alloc: Global,
    t: &Tables,
    name: &[u8],
    relation: Relation,
    value: &Expr,
) -> Result<u32, AllocError>
    ensures { IfOk result (IsTold
        (IfCount (constraint_of t.now name.now relation (expression_of value.now)))) }
{
    let Some(constraint) = constraint_of(t, name, relation, value) else {
        return Ok(1);
    };
    let count = constraint.count(alloc)?;
    Ok(told(count))
}

fn joined_count(op: PatternOp, left: u32, right: u32) -> u32
    ensures { (a b : ℕ) → 1 ≤ a → 1 ≤ b → left ≡ told a → right ≡ told b
        → result ≡ told (joined_count op a b) }
{
    match op {
        PatternOp::And => left.saturating_mul(right),
        PatternOp::Then => left.saturating_mul(right),
        PatternOp::Or => left.saturating_add(right),
    }
}

/// The count of a pattern.
pub fn pattern_count(alloc: Global, t: &Tables, of: &Pattern) -> Result<u32, AllocError>
    ensures { IfOk result (IsTold (HasPatternCount t.now (pattern_of of.now))) }
{
    match of {
        Pattern::Name(_) => Ok(1),
        Pattern::Constraint(name, relation, value) => {
            let count = constraint_count(alloc, t, name, *relation, value)?;
            Ok(count)
        }
        Pattern::Paren(inner) => {
            let count = pattern_count(alloc, t, inner)?;
            Ok(count)
        }
        Pattern::Ellipsis(inner) => {
            let count = pattern_count(alloc, t, inner)?;
            Ok(count)
        }
        Pattern::Joined(op, left, right) => {
            let first = pattern_count(alloc, t, left)?;
            let second = pattern_count(alloc, t, right)?;
            Ok(joined_count(*op, first, second))
        }
    }
}

/// The count of the pattern of a block, which is made where it isn't there yet.
fn count_of_block(
    alloc: Global,
    t: &Tables,
    block: &Around,
    pattern: &Pattern,
    counts: &mut ByBlock<u32>,
) -> Result<u32, AllocError>
    requires its { (head_of block.now.head.now).pattern ≡ Some (pattern_of pattern.now) }
    requires made { AreMadeFor (IsHeadCount t.now) (block.now ∷ []) counts.old }
    ensures count { IfOk result (IsTold (HasPatternCount t.now (pattern_of pattern.now))) }
    ensures kept { IfOk result (λ _.
        KeepsMade (IsHeadCount t.now) (block.now ∷ []) counts.old counts.new) }
{
    if let Some(count) = counts.get(block.number) {
        return Ok(*count);
    }
    let count = pattern_count(alloc, t, pattern)?;
    counts.put(block.number, count)?;
    Ok(count)
}

/// The count of a constructor in its blocks.
fn count_in_blocks(
    alloc: Global,
    t: &Tables,
    heads: &[Around],
    own: &Constructor,
    counts: &mut ByBlock<u32>,
) -> Result<u32, AllocError>
    requires { AreMadeFor (IsHeadCount t.now) heads.now counts.old }
    ensures count { IfOk result (IsTold (HasPatternCount t.now
        (under (heads_of heads.now) (constructor_of own.now)).pattern)) }
    ensures kept { IfOk result (λ _.
        KeepsMade (IsHeadCount t.now) heads.now counts.old counts.new) }
{
    let Some((first, rest)) = heads.split_first() else {
        let count = pattern_count(alloc, t, &own.pattern)?;
        return Ok(count);
    };
    let inside = count_in_blocks(alloc, t, rest, own, counts)?;
    let head = first.head;
    let Some(pattern) = &head.pattern else {
        return Ok(inside);
    };
    let around = count_of_block(alloc, t, first, pattern, counts)?;
    Ok(joined_count(PatternOp::And, around, inside))
}

/// How many cubes the pattern of a constructor may need, with the patterns of the blocks round it.
/// The number stops at 4,294,967,295. `counts` has those of the blocks' patterns that were made
/// already, and then of all blocks round this constructor.
pub fn constructor_count(
    alloc: Global,
    t: &Tables,
    of: &Unfolded,
    counts: &mut ByBlock<u32>,
) -> Result<u32, AllocError>
    requires { AreMadeFor (IsHeadCount t.now) of.now.heads.items counts.old }
    ensures count { IfOk result (IsTold (HasPatternCount t.now (placed of.now).1.pattern)) }
    ensures kept { IfOk result (λ _.
        KeepsMade (IsHeadCount t.now) of.now.heads.items counts.old counts.new) }
{
    let own = of.own;
    let count = count_in_blocks(alloc, t, of.heads.as_slice(), own, counts)?;
    Ok(count)
}
