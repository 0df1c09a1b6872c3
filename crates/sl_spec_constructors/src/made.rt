//! What is made once for each block.

ghost use Rattle.sl_spec_constructors.specs.Made.{IsMadeAnyway};

use crate::facts::PatternFacts;
use sl_spec::ByBlock;
use sl_spec_actions::JudgedBlocks;
use std::alloc::Global;

/// What was made of blocks, once for all constructors inside: what rules 17 to 20 say of their
/// patterns, and what is known of their actions by rules 21 to 25.
#[derive(Drop)]
pub struct MadeOfBlocks<'a> {
    pub(crate) facts: ByBlock<PatternFacts<'a>>,
    pub(crate) actions: JudgedBlocks<'a>,
}

impl<'a> MadeOfBlocks<'a> {
    /// Nothing was made yet.
    pub fn new(alloc: Global) -> Self
        ensures { IsMadeAnyway result }
    {
        MadeOfBlocks {
            facts: ByBlock::new(alloc),
            actions: JudgedBlocks::new(alloc),
        }
    }
}
