//! Codes of a field cut into as few blocks as can be: sets of 2^size codes that begin at a multiple
//! of 2^size.
#![tactic(auto)]

ghost use Rattle.std.specs.Prelude.{◌≡◌, ◌↔◌, ◌+◌, ◌*◌, ◌≤◌, ◌^◌, IsTrue, IfOk};
ghost use Rattle.sl_shape_blocks.specs.Blocks.{Satisfies, IsFull, IsEmpty, AllSatisfy, NoneSatisfy};
ghost use Rattle.sl_shape_blocks.specs.Blocks.{block, AddsShortest, IsShortest};

mod compare;

pub use compare::{Relation, codes_of};
use std::alloc::{AllocError, Global};

/// The codes from `low` to `high`, both included, or all others.
#[derive(Clone, Copy, Debug, PartialEq, Eq)]
pub struct Codes {
    pub low: u64,
    pub high: u64,
    pub inside: bool,
}

/// The 2^`size` codes from `index` * 2^`size` on.
#[derive(Clone, Copy, Debug, PartialEq, Eq)]
pub struct Block {
    pub index: u64,
    pub size: u32,
}

/// The number of codes of a block.
fn width(size: u32) -> u128
    requires { size ≤ 64 }
    ensures { result ≡ 2 ^ size }
{
    1 << size
}

/// Whether all codes of the block are from `low` to `high`.
fn is_full(low: u128, high: u128, index: u128, size: u32) -> bool
    requires size { size ≤ 64 }
    requires index { index * 2 ^ size + 2 ^ size ≤ 2 ^ 64 }
    ensures { IsTrue result ↔ IsFull low high index size }
{
    let codes = width(size);
    let first = index * codes;
    let last = first + (codes - 1);
    if first < low {
        return false;
    }
    if high < last {
        return false;
    }
    true
}

/// Whether no code of the block is from `low` to `high`.
fn is_empty(low: u128, high: u128, index: u128, size: u32) -> bool
    requires size { size ≤ 64 }
    requires index { index * 2 ^ size + 2 ^ size ≤ 2 ^ 64 }
    ensures { IsTrue result ↔ IsEmpty low high index size }
{
    let codes = width(size);
    let first = index * codes;
    let last = first + (codes - 1);
    if high < low {
        return true;
    }
    if last < low {
        return true;
    }
    if high < first {
        return true;
    }
    false
}

/// Whether all codes of the block are among the codes.
fn all_in(codes: &Codes, index: u128, size: u32) -> bool
    requires size { size ≤ 64 }
    requires index { index * 2 ^ size + 2 ^ size ≤ 2 ^ 64 }
    ensures { IsTrue result ↔ AllSatisfy (Satisfies codes.now) (block index size) }
{
    let low = codes.low.into();
    let high = codes.high.into();
    if codes.inside {
        return is_full(low, high, index, size);
    }
    is_empty(low, high, index, size)
}

/// Whether no code of the block is among the codes.
fn none_in(codes: &Codes, index: u128, size: u32) -> bool
    requires size { size ≤ 64 }
    requires index { index * 2 ^ size + 2 ^ size ≤ 2 ^ 64 }
    ensures { IsTrue result → NoneSatisfy (Satisfies codes.now) (block index size) }
{
    let low = codes.low.into();
    let high = codes.high.into();
    if codes.inside {
        return is_empty(low, high, index, size);
    }
    is_full(low, high, index, size)
}

/// Puts blocks behind the others: as few as the codes of the block can be cut into.
fn put(codes: &Codes, index: u128, size: u32, blocks: &mut Vec<Block>) -> Result<(), AllocError>
    requires size { size ≤ 64 }
    requires index { index * 2 ^ size + 2 ^ size ≤ 2 ^ 64 }
    ensures { IfOk result (λ done. AddsShortest (Satisfies codes.now) (block index size)
        blocks.old.items blocks.new.items) }
{
    if all_in(codes, index, size) {
        blocks.push(Block {
            index: index as u64,
            size,
        })?;
        return Ok(());
    }
    if size == 0 {
        return Ok(());
    }
    if none_in(codes, index, size) {
        return Ok(());
    }
    put(codes, index * 2, size - 1, blocks)?;
    put(codes, index * 2 + 1, size - 1, blocks)?;
    Ok(())
}

/// The codes of a field of `size` bits as blocks, in order, none of which share a code, and as few as
/// can be: at most two for each bit. The only error is want of memory.
pub fn blocks_of(alloc: Global, codes: &Codes, size: u32) -> Result<Vec<Block>, AllocError>
    requires { size ≤ 64 }
    ensures { IfOk result (λ blocks. IsShortest (Satisfies codes.now) (block 0 size) blocks.items) }
{
    let mut blocks = Vec::new(alloc);
    put(codes, 0, size, &mut blocks)?;
    Ok(blocks)
}
