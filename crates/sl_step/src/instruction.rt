//! Instructions that were read.

ghost use Rattle.std.specs.Prelude.{◌≡◌, ◌<◌, IfOk, IsTrue, length, take};
ghost use Rattle.sl_step.specs.Windows.{window_in};
ghost use Rattle.sl_word.specs.Bytes.{address_sizes};

use crate::window::few_at;
use sl_decode_contexts::Commit;
use sl_pcode::OpList;
use sl_word::{SpaceId, State};
use std::alloc::{AllocError, Global};

// What an operation takes in a list with as much room left as it has taken, and so a commit; and what
// an instruction takes besides.
const OPERATION: usize = 256;

const COMMIT: usize = 128;

const OTHERS: usize = 1024;

/// An instruction: what it was read from, and what it is.
#[derive(Debug, Drop)]
pub struct Instruction {
    /// The first bytes from its address on, as far as its decode looked, or all that it was told.
    pub bytes: Vec<u8>,
    pub address: u64,
    /// The context at its address.
    pub context: u64,
    /// Its commits, in their order.
    pub commits: Vec<Commit>,
    /// The address behind it.
    pub after: u64,
    /// Its list.
    pub ops: OpList,
}

/// The list of an instruction, and the address behind it.
#[derive(Drop)]
pub(crate) struct Listed {
    pub ops: OpList,
    pub after: u64,
}

impl Instruction {
    /// An instruction with this list, with copies of its bytes and its commits. The only error is
    /// want of memory.
    pub(crate) fn new(
        alloc: Global,
        bytes: &[u8],
        address: u64,
        context: u64,
        commits: &[Commit],
        listed: Listed,
    ) -> Result<Instruction, AllocError>
        ensures bytes { IfOk result (λ x. x.bytes.items ≡ bytes.now) }
        ensures address { IfOk result (λ x. x.address ≡ address) }
        ensures context { IfOk result (λ x. x.context ≡ context) }
        ensures commits { IfOk result (λ x. x.commits.items ≡ commits.now) }
        ensures after { IfOk result (λ x. x.after ≡ listed.after) }
        ensures ops { IfOk result (λ x. x.ops ≡ listed.ops) }
    {
        let mut own = Vec::new(alloc);
        own.extend_from_slice(bytes)?;
        let mut made = Vec::new(alloc);
        made.extend_from_slice(commits)?;
        Ok(Instruction {
            bytes: own,
            address,
            context,
            commits: made,
            after: listed.after,
            ops: listed.ops,
        })
    }

    /// Whether it was read at this address and from this context, from bytes that these begin with.
    pub(crate) fn is_of(&self, bytes: &[u8], address: u64, context: u64) -> bool
        ensures bytes { IsTrue result
            → take (length self.now.bytes.items) bytes.now ≡ self.now.bytes.items }
        ensures address { IsTrue result → self.now.address ≡ address }
        ensures context { IsTrue result → self.now.context ≡ context }
    {
        self.address == address
            && self.context == context
            && bytes.starts_with(self.bytes.as_slice())
    }

    /// Whether it was read at this address and from this context, from bytes that a state has there. No
    /// where they are more than a few.
    pub(crate) fn is_in(&self, state: &State, space: SpaceId, address: u64, context: u64) -> bool
        requires { space.0 < length (address_sizes state.now) }
        ensures bytes { IsTrue result → take (length self.now.bytes.items)
            (window_in state.now space.0 address) ≡ self.now.bytes.items }
        ensures address { IsTrue result → self.now.address ≡ address }
        ensures context { IsTrue result → self.now.context ≡ context }
    {
        let few = few_at(state, space, address);
        self.is_of(&few, address, context)
    }

    /// How many bytes of memory it takes at most, but for inputs of an operation past the third.
    pub(crate) fn weight(&self) -> usize {
        let list = self.ops.ops().len().saturating_mul(OPERATION);
        let rest = self.commits.len().saturating_mul(COMMIT);
        list.saturating_add(rest).saturating_add(OTHERS)
    }
}
