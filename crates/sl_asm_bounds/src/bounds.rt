//! What is known of nodes.

ghost use Rattle.std.specs.Prelude.{◌≡◌, ◌≤◌, ℕ, List, IfOk, length};
ghost use Rattle.sl_asm_fit.specs.Regions.{IsOf};
ghost use Rattle.sl_asm_bounds.specs.Bounds.{AreAsLong, Fits, Holds, IsWithin};

use crate::hulls::hull;
use sl_asm_fit::Cell;
use std::alloc::{AllocError, Global};

/// As a greatest length it says that none is known.
pub const UNBOUNDED: u32 = 4_294_967_295;

/// What is known of the lists in which a node stands: a region that has them, the least and the
/// greatest length of the node, and the context that it leaves.
#[derive(Drop)]
pub struct Bounds {
    pub region: Vec<Cell>,
    pub least: u32,
    pub most: u32,
    pub after: Option<u64>,
}

/// What both know of a context.
fn same(a: Option<u64>, b: Option<u64>) -> Option<u64>
    ensures first { (x : ℕ) → Fits a x → Fits result x }
    ensures second { (x : ℕ) → Fits b x → Fits result x }
{
    let (Some(one), Some(other)) = (a, b) else {
        return None;
    };
    if one == other { Some(one) } else { None }
}

/// The cells once more. The only error is want of memory.
pub fn copied(alloc: Global, cells: &[Cell]) -> Result<Vec<Cell>, AllocError>
    ensures { IfOk result (λ copy. copy.items ≡ cells.now) }
{
    cells.iter().copied().collect(alloc)
}

/// What is known where nothing is but the region. The only error is want of memory.
pub fn unknown(alloc: Global, region: &[Cell]) -> Result<Bounds, AllocError>
    ensures within { IfOk result (λ b. (xs : List ℕ) (long after : ℕ) → IsOf region.now xs
        → IsWithin b xs long after) }
    ensures long { IfOk result (λ b. length b.region.items ≡ length region.now) }
{
    let region = copied(alloc, region)?;
    Ok(Bounds {
        region,
        least: 0,
        most: UNBOUNDED,
        after: None,
    })
}

/// What is known of a node in a list of this length that is one of both.
fn joined(alloc: Global, count: usize, a: &Bounds, b: &Bounds) -> Result<Bounds, AllocError>
    ensures first { IfOk result (λ out. (xs : List ℕ) (long after : ℕ) → length xs ≡ count
        → IsWithin a.now xs long after → IsWithin out xs long after) }
    ensures second { IfOk result (λ out. (xs : List ℕ) (long after : ℕ) → length xs ≡ count
        → IsWithin b.now xs long after → IsWithin out xs long after) }
    ensures long { IfOk result (λ out. length out.region.items ≡ count) }
{
    let region = hull(alloc, count, &a.region, &b.region)?;
    Ok(Bounds {
        region,
        least: a.least.min(b.least),
        most: a.most.max(b.most),
        after: same(a.after, b.after),
    })
}

/// The same, where there may be none of either. The only error is want of memory.
pub fn either(
    alloc: Global,
    count: usize,
    a: Option<Bounds>,
    b: Option<Bounds>,
) -> Result<Option<Bounds>, AllocError>
    ensures first { IfOk result (λ out. (xs : List ℕ) (long after : ℕ) → length xs ≡ count
        → Holds a xs long after → Holds out xs long after) }
    ensures second { IfOk result (λ out. (xs : List ℕ) (long after : ℕ) → length xs ≡ count
        → Holds b xs long after → Holds out xs long after) }
    ensures long { IfOk result (λ out. AreAsLong count a → AreAsLong count b
        → AreAsLong count out) }
{
    match (a, b) {
        (Some(one), Some(other)) => {
            let both = joined(alloc, count, &one, &other)?;
            Ok(Some(both))
        }
        (Some(one), None) => Ok(Some(one)),
        (None, other) => Ok(other),
    }
}
