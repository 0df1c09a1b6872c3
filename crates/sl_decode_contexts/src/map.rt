//! The context at each address.

ghost use Rattle.std.specs.Prelude.{◌≡◌, ℕ, OnOk, OnErr, List, [], ◌∷◌, ◌++◌};
ghost use Rattle.sl_decode_contexts.specs.Commits.{IsContextAt};
ghost use Rattle.sl_decode_contexts.specs.Runs.{Stands};
ghost use Rattle.sl_decode_contexts.specs.declared.commits.Commit.{Commit as CommitOf};

use crate::commits::Commit;
use crate::runs::Run;
use crate::tree::Tree;
use std::alloc::{AllocError, Global};
use std::marker::Model;

/// The context at each address, after a list of commits. It keeps one run for each address that has
/// one, in a tree: a look-up and a commit go down to one run, by at most 64 forks, and a look-up
/// below or above all of them takes a constant time.
#[derive(Drop)]
pub struct ContextMap {
    alloc: Global,
    start: u64,
    runs: Option<Tree>,
}

impl Model for ContextMap {
    ghost use Rattle.std.specs.Coded.{codes};
    ghost use Rattle.sl_decode_contexts.specs.Kept.{Kept};
    ghost use Rattle.sl_decode_contexts.specs.contracts.tree.Tree as tree;

    ghost Value = { Kept };

    ghost coded = { Prim.hlevel (codes, tree.the_row.coded) };

    ghost view = { λ m. record { start = m.start; runs = m.runs } };
}

impl ContextMap {
    /// The contexts before any commit: `start` at each address. It takes no memory yet.
    pub fn new(alloc: Global, start: u64) -> ContextMap
        ensures { Stands result start [] }
    {
        ContextMap {
            alloc,
            start,
            runs: None,
        }
    }

    /// The context at the address.
    pub fn at(&self, address: u64) -> u64
        ensures { (start : ℕ) (commits : List CommitOf) → Stands self.now start commits
            → IsContextAt start commits address result }
    {
        match &self.runs {
            Some(tree) => tree.seen(self.start, address),
            None => self.start,
        }
    }

    /// Makes one more commit. The only error is want of memory.
    pub fn commit(&mut self, c: &Commit) -> Result<(), AllocError>
        ensures stands { OnOk result ((start : ℕ) (commits : List CommitOf)
            → Stands self.old start commits → Stands self.new start (commits ++ c.now ∷ [])) }
        ensures unchanged { OnErr result (self.new ≡ self.old) }
    {
        match &mut self.runs {
            Some(tree) => tree.commit(self.alloc, c),
            None => {
                self.runs = Some(Tree::Leaf(Run::fresh(c.address).given(c)));
                Ok(())
            }
        }
    }
}
