//! What is known of a node's operands.

ghost use Rattle.std.specs.Prelude.{◌≡◌, ◌++◌, ◌∷◌, [], ℕ, List, IfOk, OnOk};
ghost use Rattle.sl_asm_bounds.specs.Bounds.{Fits, IsWithin};
ghost use Rattle.sl_asm_fit.specs.Regions.{IsOf};
ghost use Rattle.sl_asm_narrow.specs.Nodes.{IsWithinAll};

use sl_asm_bounds::{Bounds, Lengths, copied};
use sl_asm_fit::Cell;
use std::alloc::{AllocError, Global};

/// What is known of some first operands of a node: a region of the lists in which they are, their
/// lengths, and the context that they leave.
#[derive(Drop)]
pub struct Operands {
    pub region: Vec<Cell>,
    pub lengths: Lengths,
    pub context: Option<u64>,
}

impl Operands {
    /// Of none of them.
    pub fn none(alloc: Global, region: &[Cell], context: Option<u64>) -> Result<Self, AllocError>
        ensures within { IfOk result (λ o. (bytes : List ℕ) (before : ℕ) → IsOf region.now bytes
            → Fits context before → IsWithinAll o bytes [] before) }
        ensures region { IfOk result (λ o. o.region.items ≡ region.now) }
    {
        let region = copied(alloc, region)?;
        Ok(Operands {
            region,
            lengths: Lengths {
                leasts: Vec::new(alloc),
                mosts: Vec::new(alloc),
            },
            context,
        })
    }

    /// Of one more.
    pub fn add(&mut self, next: Bounds) -> Result<(), AllocError>
        ensures within { OnOk result ((bytes lengths : List ℕ) (before long after : ℕ)
            → IsWithinAll self.old bytes lengths before → IsWithin next bytes long after
            → IsWithinAll self.new bytes (lengths ++ long ∷ []) after) }
        ensures region { OnOk result (self.new.region.items ≡ next.region.items) }
    {
        self.lengths.leasts.push(next.least)?;
        self.lengths.mosts.push(next.most)?;
        self.region = next.region;
        self.context = next.after;
        Ok(())
    }
}
