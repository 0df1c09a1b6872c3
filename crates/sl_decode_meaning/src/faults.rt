//! Why bytes don't decode.

use sl_spec::{CtorId, FieldId, TableId};

/// The first moment of a decode that can't be met.
#[derive(Clone, Copy, Debug, PartialEq, Eq)]
pub enum Fault {
    /// No constructor of the table matches at the place, in bytes from the instruction's start.
    NoConstructor { table: TableId, at: u32 },
    /// The list that is attached to the field has no entry for the value of its bits.
    NoEntry { field: FieldId, value: u64 },
    /// A divisor in an action of the constructor is 0.
    ActionDivide { constructor: CtorId },
}
