//! Several commits, one after another.

ghost use Rattle.std.specs.Prelude.{◌++◌, ℕ, List, OnErr, OnOk, take};
ghost use Rattle.sl_decode_contexts.specs.Runs.{Stands};
ghost use Rattle.sl_decode_contexts.specs.declared.commits.Commit.{Commit as CommitOf};

use crate::commits::Commit;
use crate::map::ContextMap;
use std::alloc::AllocError;

impl ContextMap {
    /// Makes more commits, in their order. The only error is want of memory; then some first ones of
    /// them are made.
    pub fn commit_all(&mut self, commits: &[Commit]) -> Result<(), AllocError>
        ensures all { OnOk result ((start : ℕ) (cs : List CommitOf)
            → Stands self.old start cs → Stands self.new start (cs ++ commits.now)) }
        ensures first { OnErr result ((start : ℕ) (cs : List CommitOf)
            → Stands self.old start cs → (k : ℕ) × Stands self.new start (cs ++ take k commits.now)) }
    {
        'commits: for commit in commits {
            match self.commit(commit) {
                Ok(()) => {}
                Err(error) => return Err(error),
            }
        }
        Ok(())
    }
}
