//! What names stand for.

use sl_spec::{FieldId, TableId};

/// What a name stands for in the pattern and the actions of a constructor.
#[derive(Clone, Copy, Debug, PartialEq, Eq)]
pub enum Kind {
    /// A field of a token or of the context.
    Field(FieldId),
    /// A table operand.
    Table(TableId),
    /// A name that the actions set, by its number among those of the constructor.
    Action(u32),
    /// `inst_start`
    Start,
    /// `inst_next`
    Next,
    /// `epsilon`
    Nothing,
}
