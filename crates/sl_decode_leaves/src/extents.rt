//! Numbers of bytes by the lengths of operands.

ghost use Rattle.std.specs.Prelude.{◌≡◌, ◌+◌, ◌-◌, ◌^◌, ℕ, List, IfOk, IsTrue, max, min};
ghost use Rattle.sl_decode_leaves.specs.Extents.{extent};

use std::alloc::{AllocError, Global};
use std::rc::Rc;

/// A number of bytes, by the lengths of the table operands of a node. An operand that has no length
/// yet counts as 0. Its parts are shared, so that no copy costs more than one node.
#[derive(Drop)]
pub enum Extent {
    Fixed(u64),
    /// The length of the operand of this number among the table operands.
    Operand(usize),
    Sum(Rc<Extent>, Rc<Extent>),
    Greater(Rc<Extent>, Rc<Extent>),
}

/// What it comes to, whatever it is; 2^64 - 1 stands for all that is more.
fn reckoned(e: &Extent, lengths: &[u32]) -> u64
    ensures { result ≡ min (extent e.now lengths.now) (2 ^ 64 - 1) }
{
    match e {
        Extent::Fixed(n) => *n,
        Extent::Operand(index) => u64::from(lengths.get(*index).copied().unwrap_or(0)),
        Extent::Sum(a, b) => reckoned(a, lengths).saturating_add(reckoned(b, lengths)),
        Extent::Greater(a, b) => reckoned(a, lengths).max(reckoned(b, lengths)),
    }
}

/// What it comes to; 2^64 - 1 stands for all that is more. Most are fixed, and known at once.
#[inline(always)]
pub fn extent_of(e: &Extent, lengths: &[u32]) -> u64
    ensures { result ≡ min (extent e.now lengths.now) (2 ^ 64 - 1) }
{
    match e {
        Extent::Fixed(n) => *n,
        _ => reckoned(e, lengths),
    }
}

/// A copy of `e`.
pub fn again(e: &Extent) -> Result<Extent, AllocError>
    ensures { IfOk result (λ r. (lengths : List ℕ) → extent r lengths ≡ extent e.now lengths) }
{
    match e {
        Extent::Fixed(n) => Ok(Extent::Fixed(*n)),
        Extent::Operand(index) => Ok(Extent::Operand(*index)),
        Extent::Sum(a, b) => {
            let left = a.clone()?;
            Ok(Extent::Sum(left, b.clone()?))
        }
        Extent::Greater(a, b) => {
            let left = a.clone()?;
            Ok(Extent::Greater(left, b.clone()?))
        }
    }
}

/// How many parts of two numbers are compared at most, so that it never costs much more to compare
/// them than to make them anew.
const COMPARED: u32 = 64;

/// Whether both have the same parts; false once `room`, how many may still be compared, is 0.
fn has_same_parts(a: &Extent, b: &Extent, room: &mut u32) -> bool
    ensures { IsTrue result → (lengths : List ℕ) → extent a.now lengths ≡ extent b.now lengths }
{
    if *room == 0 {
        return false;
    }
    *room -= 1;
    match (a, b) {
        (Extent::Fixed(n), Extent::Fixed(m)) => *n == *m,
        (Extent::Operand(n), Extent::Operand(m)) => *n == *m,
        (Extent::Sum(a, x), Extent::Sum(b, y)) => {
            has_same_parts(a, b, room) && has_same_parts(x, y, room)
        }
        (Extent::Greater(a, x), Extent::Greater(b, y)) => {
            has_same_parts(a, b, room) && has_same_parts(x, y, room)
        }
        _ => false,
    }
}

/// Whether both are made of the same parts, so that they come to the same whatever the lengths are.
/// It says of two that have many parts that they aren't.
pub fn is_same(a: &Extent, b: &Extent) -> bool
    ensures { IsTrue result → (lengths : List ℕ) → extent a.now lengths ≡ extent b.now lengths }
{
    let mut room = COMPARED;
    has_same_parts(a, b, &mut room)
}

/// Whether it is no byte, whatever the lengths are.
fn is_nothing(e: &Extent) -> bool
    ensures { IsTrue result → (lengths : List ℕ) → extent e.now lengths ≡ 0 }
{
    match e {
        Extent::Fixed(n) => *n == 0,
        _ => false,
    }
}

/// Both, one behind the other.
pub fn sum(alloc: Global, a: Extent, b: Extent) -> Result<Extent, AllocError>
    ensures { IfOk result (λ r. (lengths : List ℕ)
        → extent r lengths ≡ extent a lengths + extent b lengths) }
{
    if let (Extent::Fixed(n), Extent::Fixed(m)) = (&a, &b) {
        if let Some(total) = n.checked_add(*m) {
            return Ok(Extent::Fixed(total));
        }
    }
    if is_nothing(&a) {
        return Ok(b);
    }
    if is_nothing(&b) {
        return Ok(a);
    }
    let left = Rc::new(alloc, a)?;
    Ok(Extent::Sum(left, Rc::new(alloc, b)?))
}

/// The greater of both.
pub fn greater(alloc: Global, a: Extent, b: Extent) -> Result<Extent, AllocError>
    ensures { IfOk result (λ r. (lengths : List ℕ)
        → extent r lengths ≡ max (extent a lengths) (extent b lengths)) }
{
    if let (Extent::Fixed(n), Extent::Fixed(m)) = (&a, &b) {
        return Ok(Extent::Fixed((*n).max(*m)));
    }
    if is_nothing(&a) {
        return Ok(b);
    }
    if is_nothing(&b) {
        return Ok(a);
    }
    let left = Rc::new(alloc, a)?;
    Ok(Extent::Greater(left, Rc::new(alloc, b)?))
}
