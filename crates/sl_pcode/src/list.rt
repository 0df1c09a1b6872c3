//! Lists of operations.

ghost use Rattle.std.specs.Prelude.{◌≡◌, ◌↔◌, length, IsTrue, IsSome, IfSome};
ghost use Rattle.std.specs.List.{All};
ghost use Rattle.sl_word.specs.Sizes.{byte_counts};
ghost use Rattle.sl_pcode.specs.Operations.{operations};
ghost use Rattle.sl_pcode.specs.WellFormed.{IsWellFormed, IsWellFormedOp, StayInsideTo};

use crate::Op;
use sl_word::AddressSize;

/// A list of operations that was found well formed.
#[derive(Debug, Drop)]
pub struct OpList {
    ops: Vec<Op>,
}

#[tactic(auto, unfolding(crate::specs::Operations::operations))]
impl OpList {
    /// The list, where it is well formed. `sizes` has the size of addresses for each address space, in
    /// order.
    ///
    /// None where an operation has operands or sizes that its code doesn't take, or writes a constant;
    /// has a varnode that is out of range: a constant that its size has no room for, temporary bytes
    /// past 2^32, a space that isn't there, or an offset past its end; names a space that isn't there,
    /// or a user operation of 2^32 or more; or jumps to a place outside the list. The end of the list
    /// may be jumped to.
    pub fn from_ops(ops: Vec<Op>, sizes: &[AddressSize]) -> Option<OpList>
        ensures valid { IsSome result ↔ IsWellFormed (byte_counts sizes.now) ops.items }
        ensures value { IfSome result (λ list. operations list ≡ ops.items) }
    {
        if !is_well_formed(&ops, sizes) {
            return None;
        }
        Some(OpList { ops })
    }

    /// The operations, in order.
    pub fn ops(&self) -> &[Op]
        ensures { result.now ≡ operations self.now }
    {
        &self.ops
    }
}

fn is_well_formed(ops: &[Op], sizes: &[AddressSize]) -> bool
    ensures { IsTrue result ↔ IsWellFormed (byte_counts sizes.now) ops.now }
{
    are_well_formed(ops, sizes) && stay_inside(ops)
}

fn are_well_formed(ops: &[Op], sizes: &[AddressSize]) -> bool
    ensures { IsTrue result ↔ All (IsWellFormedOp (byte_counts sizes.now)) ops.now }
{
    ops.iter().all(|op| op.is_well_formed(sizes))
}

// Whether each jump to a place of the list leads to one, or to the list's end.
fn stay_inside(ops: &[Op]) -> bool
    ensures { IsTrue result ↔ StayInsideTo (length ops.now) ops.now }
{
    for (at, op) in ops.iter().enumerate() {
        if !op.stays_inside(at, ops.len()) {
            return false;
        }
    }
    true
}
