//! The runs of the addresses that have commits, in a tree.

ghost use Rattle.std.specs.Prelude.{◌≡◌, ◌<◌, ◌≤◌, IsTrue, IsFalse, OnOk, OnErr};
ghost use Rattle.sl_decode_contexts.specs.AtAddress.{put};
ghost use Rattle.sl_decode_contexts.specs.Trees.{first_of, last_of, fixed_of, flow_of, seen};
ghost use Rattle.sl_decode_contexts.specs.Trees.{sum_of};
ghost use Rattle.sl_decode_contexts.specs.declared.tree.Tree.TheViews.{Fork};
ghost use Rattle.sl_decode_contexts.specs.Trees.{IsApart, IsRunOf, IsCommitted};

use crate::bits::put_bits;
use crate::commits::Commit;
use crate::runs::Run;
use std::alloc::{AllocError, Global};
use std::mem;

/// What the runs of a fork have together.
#[derive(Clone, Copy, Debug)]
pub struct Sum {
    /// The least address that has a run.
    pub first: u64,
    /// The address from which on runs are on the right side.
    pub split: u64,
    /// The greatest address that has a run.
    pub last: u64,
    /// The bits that their flowing commits give.
    pub fixed: u64,
    /// The values of these bits behind the last run; the others mean nothing.
    pub flow: u64,
}

/// Runs in the order of their addresses. Each side of a fork has the addresses that agree in all
/// bits above one, so no run is below more than 64 forks.
#[derive(Drop)]
pub enum Tree {
    Leaf(Run),
    Fork(Box<Tree>, Sum, Box<Tree>),
}

/// The address above `below`, and at most `above`, that ends in the most zeros.
fn parting(below: u64, above: u64) -> u64
    requires { below < above }
    ensures past { below < result }
    ensures within { result ≤ above }
{
    let mut split = above;
    'bits: for _ in 0..64 {
        let rounder = split & (split - 1);
        if rounder <= below {
            return split;
        }
        split = rounder;
    }
    split
}

/// Whether the address agrees with all that meet at `split` in the bits above the lowest one of
/// `split`.
fn is_near(address: u64, split: u64) -> bool {
    (address ^ split) / 2 < split & split.wrapping_neg()
}

impl Tree {
    fn first(&self) -> u64
        ensures { result ≡ first_of self.now }
    {
        match self {
            Tree::Leaf(run) => run.address,
            Tree::Fork(_, sum, _) => sum.first,
        }
    }

    fn last(&self) -> u64
        ensures { result ≡ last_of self.now }
    {
        match self {
            Tree::Leaf(run) => run.address,
            Tree::Fork(_, sum, _) => sum.last,
        }
    }

    /// The bits that the flowing commits of its runs give.
    fn fixed(&self) -> u64
        ensures { result ≡ fixed_of self.now }
    {
        match self {
            Tree::Leaf(run) => run.fixed,
            Tree::Fork(_, sum, _) => sum.fixed,
        }
    }

    fn flow(&self) -> u64
        ensures { result ≡ flow_of self.now }
    {
        match self {
            Tree::Leaf(run) => run.flow,
            Tree::Fork(_, sum, _) => sum.flow,
        }
    }

    /// The context that flows on from its last run, where `before` flows up to its first.
    fn onward(&self, before: u64) -> u64
        ensures { result ≡ put before (fixed_of self.now) (flow_of self.now) }
    {
        put_bits(before, self.fixed(), self.flow())
    }

    /// The context at the address, where `before` flows up to the first run.
    pub fn seen(&self, before: u64, address: u64) -> u64
        ensures { result ≡ seen before self.now address }
    {
        if address < self.first() {
            return before;
        }
        if self.last() < address {
            return self.onward(before);
        }
        match self {
            Tree::Leaf(run) => run.here(before),
            Tree::Fork(left, sum, right) => {
                if address < sum.split {
                    left.seen(before, address)
                } else {
                    right.seen(left.onward(before), address)
                }
            }
        }
    }

    /// Whether a run of the address belongs beside all of the tree.
    fn is_apart(&self, address: u64) -> bool
        ensures apart { IsTrue result → IsApart self.now address }
        ensures joined { IsFalse result → IsRunOf self.now address }
    {
        match self {
            Tree::Leaf(run) => run.address != address,
            Tree::Fork(_, sum, _) => {
                (address < sum.first || sum.last < address) && !is_near(address, sum.split)
            }
        }
    }

    /// Makes one more commit. The only error is want of memory.
    pub fn commit(&mut self, alloc: Global, c: &Commit) -> Result<(), AllocError>
        ensures committed { OnOk result (IsCommitted c.now self.old self.new) }
        ensures unchanged { OnErr result (self.new ≡ self.old) }
    {
        if self.is_apart(c.address) {
            return self.commit_beside(alloc, c);
        }
        match self {
            Tree::Leaf(run) => {
                *run = run.given(c);
            }
            Tree::Fork(left, sum, right) => {
                if c.address < sum.split {
                    left.commit(alloc, c)?;
                } else {
                    right.commit(alloc, c)?;
                }
                *sum = sum_of(left, sum.split, right);
            }
        }
        Ok(())
    }

    /// Makes one more commit, at an address beside all of the tree.
    fn commit_beside(&mut self, alloc: Global, c: &Commit) -> Result<(), AllocError>
        requires { IsApart self.old c.now.address }
        ensures committed { OnOk result (IsCommitted c.now self.old self.new) }
        ensures unchanged { OnErr result (self.new ≡ self.old) }
    {
        let run = Run::fresh(c.address).given(c);
        let fresh = Box::new(alloc, Tree::Leaf(run))?;
        let mut others = Box::new(alloc, Tree::Leaf(run))?;
        mem::swap(&mut *others, self);
        *self = if c.address < others.first() {
            let split = parting(c.address, others.first());
            fork(fresh, split, others)
        } else {
            let split = parting(others.last(), c.address);
            fork(others, split, fresh)
        };
        Ok(())
    }
}

/// What a fork of these sides has together.
fn sum_of(left: &Tree, split: u64, right: &Tree) -> Sum
    ensures { result ≡ sum_of left.now split right.now }
{
    Sum {
        first: left.first(),
        split,
        last: right.last(),
        fixed: left.fixed() | right.fixed(),
        flow: right.onward(left.flow()),
    }
}

fn fork(left: Box<Tree>, split: u64, right: Box<Tree>) -> Tree
    ensures { result ≡ Fork left (sum_of left.value split right.value) right }
{
    let sum = sum_of(&left, split, &right);
    Tree::Fork(left, sum, right)
}
