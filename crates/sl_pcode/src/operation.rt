//! One operation.

ghost use Rattle.std.specs.Prelude.{◌≡◌, ◌≤◌, ◌↔◌, length, IsTrue, IfOk};
ghost use Rattle.sl_word.specs.Sizes.{byte_counts};
ghost use Rattle.sl_pcode.specs.WellFormed.{IsWellFormedOp, ReadsInRange, StaysInside, WritesInRange};

use crate::{Code, Place2, Varnode};
use sl_word::AddressSize;
use smallvec::SmallVec;
use std::alloc::{AllocError, Global};

/// One operation: what it does, the varnode that its value goes to, and those that it reads, in order.
///
/// Any operation may be made; which are well formed is asked of a whole list.
#[derive(Debug, PartialEq, Eq, Drop)]
pub struct Op {
    pub code: Code,
    pub out: Option<Varnode>,
    pub inputs: SmallVec<Varnode, 3>,
}

impl Op {
    /// An operation with at most three inputs, which stand inline: it takes no memory.
    pub fn make(alloc: Global, code: Code, out: Option<Varnode>, inputs: &[Varnode]) -> Op
        requires { length inputs.now ≤ 3 }
        ensures code { result.code ≡ code }
        ensures out { result.out ≡ out }
        ensures inputs { result.inputs.items ≡ inputs.now }
    {
        let inputs = SmallVec::from_slice(alloc, inputs).unwrap();
        Op { code, out, inputs }
    }

    /// An operation with any number of inputs.
    pub fn make_long(
        alloc: Global,
        code: Code,
        out: Option<Varnode>,
        inputs: &[Varnode],
    ) -> Result<Op, AllocError>
        ensures code { IfOk result (λ op. op.code ≡ code) }
        ensures out { IfOk result (λ op. op.out ≡ out) }
        ensures inputs { IfOk result (λ op. op.inputs.items ≡ inputs.now) }
    {
        let inputs = SmallVec::from_slice(alloc, inputs)?;
        Ok(Op { code, out, inputs })
    }

    pub(crate) fn is_well_formed(&self, sizes: &[AddressSize]) -> bool
        ensures { IsTrue result ↔ IsWellFormedOp (byte_counts sizes.now) self.now }
    {
        let Some(effect) = self.effect() else {
            return false;
        };
        effect.is_formed(sizes) && self.writes_in_range(sizes) && self.reads_in_range(sizes)
    }

    // Whether a jump to a place of the list, from the place `at` of `count` operations, stays inside.
    pub(crate) fn stays_inside(&self, at: usize, count: usize) -> bool
        ensures { IsTrue result ↔ StaysInside at count self.now }
    {
        match self.effect() {
            Some(effect) => effect.stays_within(at, count),
            None => true,
        }
    }

    fn writes_in_range(&self, sizes: &[AddressSize]) -> bool
        ensures { IsTrue result ↔ WritesInRange (byte_counts sizes.now) self.now.out }
    {
        match self.out {
            Some(out) => out.place != Place2::Const && out.is_in_range(sizes),
            None => true,
        }
    }

    fn reads_in_range(&self, sizes: &[AddressSize]) -> bool
        ensures { IsTrue result ↔ ReadsInRange (byte_counts sizes.now) self.now.inputs.items }
    {
        self.inputs.iter().all(|input| input.is_in_range(sizes))
    }
}
