//! The bytes of the patterns of blocks, reckoned once for all constructors inside a block.

ghost use Rattle.std.specs.Prelude.{◌≡◌, ◌∷◌, [], ℕ, get_or, min, IfOk, IfSome};
ghost use Rattle.sl_ast.specs.Trees.{Head as HeadTree};
ghost use Rattle.sl_ast.specs.Views.{head_of, pattern_of};
ghost use Rattle.sl_spec.specs.Numbers.{AreMade, AreToldOf, KeepsMade};
ghost use Rattle.sl_spec_tables.specs.BlockLengths.{IsJoined, IsLength, IsLengthOf, IsNumber};
ghost use Rattle.sl_spec_tables.specs.BlockLengths.{IsRaised};
ghost use Rattle.sl_spec_tables.specs.BlockLengths.{length_bytes};

use crate::lengths::{capped, constraint_bytes, joined_bytes, operand_bytes};
use sl_ast::constructors::Head;
use sl_ast::patterns::{Pattern, PatternOp};
use sl_spec::{Around, ByBlock, Operand, Tables, Unfolded};
use std::alloc::{AllocError, Global};

/// How many bytes a pattern has, as far as that is told without a constructor's operands. Of the
/// parts without names there are only numbers.
#[derive(Drop)]
pub enum Length<'a> {
    Bytes(usize),
    /// The bytes of the operand of this name.
    Name(&'a [u8]),
    /// So many bytes more, and at least so many.
    Raised(Box<Length<'a>>, usize, usize),
    Joined(PatternOp, Box<Length<'a>>, Box<Length<'a>>),
}

/// The number of bytes, if no operand is needed for it.
fn number_of(length: &Length) -> Option<usize>
    ensures { IfSome result (IsNumber length.now) }
{
    match length {
        Length::Bytes(bytes) => Some(*bytes),
        Length::Name(_) => None,
        Length::Raised(_, _, _) => None,
        Length::Joined(_, _, _) => None,
    }
}

/// `plus` bytes more, and at least `least`.
fn raised<'a>(
    alloc: Global,
    length: Length<'a>,
    plus: usize,
    least: usize,
) -> Result<Length<'a>, AllocError>
    ensures { IfOk result (IsRaised length.entry plus least) }
{
    match length {
        Length::Bytes(bytes) => {
            let more = capped(capped(bytes) + capped(plus));
            Ok(Length::Bytes(more.max(least)))
        }
        Length::Raised(inner, more, bound) => {
            let bound = capped(capped(bound) + capped(plus));
            let more = capped(capped(more) + capped(plus));
            Ok(Length::Raised(inner, more, bound.max(least)))
        }
        Length::Name(name) => {
            let inner = Box::new(alloc, Length::Name(name))?;
            Ok(Length::Raised(inner, plus, least))
        }
        Length::Joined(op, left, right) => {
            let inner = Box::new(alloc, Length::Joined(op, left, right))?;
            Ok(Length::Raised(inner, plus, least))
        }
    }
}

/// Joined with a pattern of so many bytes.
fn with_number<'a>(
    alloc: Global,
    op: PatternOp,
    length: Length<'a>,
    bytes: usize,
) -> Result<Length<'a>, AllocError>
    ensures { IfOk result (IsJoined op length.entry (Length.Bytes bytes)) }
{
    match op {
        PatternOp::And => raised(alloc, length, 0, bytes),
        PatternOp::Then => raised(alloc, length, bytes, 0),
        PatternOp::Or => raised(alloc, length, 0, bytes),
    }
}

/// Two patterns that are joined.
fn joined<'a>(
    alloc: Global,
    op: PatternOp,
    left: Length<'a>,
    right: Length<'a>,
) -> Result<Length<'a>, AllocError>
    ensures { IfOk result (IsJoined op left.entry right.entry) }
{
    if let Some(bytes) = number_of(&right) {
        return with_number(alloc, op, left, bytes);
    }
    if let Some(bytes) = number_of(&left) {
        return with_number(alloc, op, right, bytes);
    }
    let left = Box::new(alloc, left)?;
    Ok(Length::Joined(op, left, Box::new(alloc, right)?))
}

/// What is told of a pattern's bytes without operands.
fn length_of<'a>(alloc: Global, t: &Tables, pattern: &Pattern<'a>) -> Result<Length<'a>, AllocError>
    ensures { IfOk result (IsLength t.now (pattern_of pattern.now)) }
{
    match pattern {
        Pattern::Name(name) => Ok(Length::Name(name)),
        Pattern::Constraint(name, _, _) => Ok(Length::Bytes(constraint_bytes(t, name))),
        Pattern::Paren(inner) => length_of(alloc, t, inner),
        Pattern::Ellipsis(inner) => length_of(alloc, t, inner),
        Pattern::Joined(op, left, right) => {
            let left = length_of(alloc, t, left)?;
            let right = length_of(alloc, t, right)?;
            joined(alloc, *op, left, right)
        }
    }
}

/// What is told of the bytes of the pattern of a block's head without operands.
fn head_length<'a>(alloc: Global, t: &Tables, head: &Head<'a>) -> Result<Length<'a>, AllocError>
    ensures { IfOk result (IsLengthOf t.now (head_of head.now)) }
{
    match &head.pattern {
        Some(pattern) => length_of(alloc, t, pattern),
        None => Ok(Length::Bytes(0)),
    }
}

/// The bytes of a pattern, where those of tables are known.
pub fn length_bytes(t: &Tables, values: &[usize], operands: &[Operand], length: &Length) -> usize
    ensures { result ≡ min (length_bytes t.now (λ u. get_or values.now u 0) operands.now
        length.now) 1025 }
{
    match length {
        Length::Bytes(bytes) => capped(*bytes),
        Length::Name(name) => capped(operand_bytes(t, values, operands, name)),
        Length::Raised(inner, plus, least) => {
            let bytes = length_bytes(t, values, operands, inner);
            capped(capped(bytes + capped(*plus)).max(*least))
        }
        Length::Joined(op, left, right) => joined_bytes(
            *op,
            length_bytes(t, values, operands, left),
            length_bytes(t, values, operands, right),
        ),
    }
}

/// Adds what is told of a block, if it isn't there yet.
fn add_block<'a>(
    alloc: Global,
    t: &Tables,
    block: &Around<'_, 'a>,
    made: &mut ByBlock<Length<'a>>,
) -> Result<(), AllocError>
    ensures { IfOk result (λ _. KeepsMade (IsLengthOf t.now) (block.now ∷ []) made.old made.new) }
{
    match made.get(block.number) {
        Some(_) => Ok(()),
        None => {
            let length = head_length(alloc, t, block.head)?;
            made.put(block.number, length)
        }
    }
}

/// Adds what is told of blocks.
fn add_blocks<'a>(
    alloc: Global,
    t: &Tables,
    blocks: &[Around<'_, 'a>],
    made: &mut ByBlock<Length<'a>>,
) -> Result<(), AllocError>
    ensures { IfOk result (λ _. KeepsMade (IsLengthOf t.now) blocks.now made.old made.new) }
{
    'all: for index in 0..blocks.len() {
        let block = blocks[index];
        add_block(alloc, t, &block, made)?;
    }
    Ok(())
}

/// What is told of the blocks round constructors, by their numbers.
pub fn block_lengths<'a>(
    alloc: Global,
    t: &Tables,
    constructors: &[Unfolded<'_, 'a>],
) -> Result<ByBlock<Length<'a>>, AllocError>
    ensures { IfOk result (λ made. (head_at : ℕ → HeadTree) → AreToldOf head_at constructors.now
        → AreMade (IsLengthOf t.now) head_at made) }
{
    let mut made = ByBlock::new(alloc);
    'all: for index in 0..constructors.len() {
        let constructor = &constructors[index];
        add_blocks(alloc, t, constructor.heads.as_slice(), &mut made)?;
    }
    Ok(made)
}
