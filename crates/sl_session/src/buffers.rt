//! What an answer is written into.

ghost use Rattle.std.specs.Prelude.{◌≡◌, [], OnOk};

use sl_decode::Walk;
use sl_decode_contexts::Commit;
use std::alloc::{AllocError, Global};

/// What an answer is written into. It is used again from address to address.
#[derive(Drop)]
pub struct Buffers {
    /// The tree of the last instruction that was decoded.
    pub walk: Walk,
    /// The text of the last answer: an instruction, or the mark of why there is none.
    pub text: Vec<u8>,
    /// The commits of the last answer, in their order.
    pub commits: Vec<Commit>,
}

impl Buffers {
    /// Buffers that hold nothing. They take no memory yet.
    pub fn new(alloc: Global) -> Self {
        Buffers {
            walk: Walk::new(alloc),
            text: Vec::new(alloc),
            commits: Vec::new(alloc),
        }
    }

    /// Puts a mark in the place of the text, and no commits.
    pub(crate) fn put_mark(&mut self, mark: &[u8]) -> Result<(), AllocError>
        ensures text { OnOk result (self.new.text.items ≡ mark.now) }
        ensures commits { OnOk result (self.new.commits.items ≡ []) }
    {
        self.commits.clear();
        self.text.clear();
        self.text.extend_from_slice(mark)
    }
}
