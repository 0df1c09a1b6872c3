//! What templates consist of.

use crate::slot::Slot;
use sl_pcode::Code;
use sl_section_flat::{Label, Span};
use sl_word::{Op1, Op2, Size, SpaceId, UserId};

/// The lowest bits of a value, which are put into a span of another.
#[derive(Clone, Copy, Debug)]
pub struct NewBits {
    pub value: Slot,
    /// The text says that the value has no bits but those.
    pub below: bool,
    pub span: Span,
}

/// A value of `size` bytes, `old`, in which bits are replaced.
#[derive(Clone, Copy, Debug)]
pub struct Insert {
    pub size: Size,
    pub old: Slot,
    pub new: NewBits,
}

/// One operation, or what hangs on what an operand stands for.
#[derive(Drop)]
pub enum Piece {
    /// A value is made ready to be read.
    Read(Slot),
    /// The first is put into the second.
    Into(Slot, Slot),
    Unary(Op1, Slot, Slot),
    Binary(Op2, Slot, Slot, Slot),
    Load(Slot, SpaceId, Slot),
    /// The space, the pointer and the value.
    Store(SpaceId, Slot, Slot),
    /// A user operation with its arguments.
    User(UserId, Vec<Slot>),
    /// A jump, a call or a return.
    Exit(Code, Slot),
    /// A jump to the first where the second isn't 0.
    ExitIf(Slot, Slot),
    /// A value is put where the operand of this number stands.
    Put(u32, Slot),
    /// What was put into the first temporary value is put where the operand stands, if that is
    /// memory.
    Stored(u32, Size),
    /// Bits are put into what the operand of this number stands for.
    PutBits(u32, NewBits),
    /// Bits of the first are put into the second; the temporary value of this number is free.
    Extract(u32, Slot, Span, Slot),
    /// A value with other bits is put into a varnode; the temporary value of this number and the
    /// next one are free.
    Insert(u32, Insert, Slot),
}

/// What stands behind the pieces of a statement.
#[derive(Clone, Copy)]
pub enum Tail<'a> {
    Nothing,
    /// The list of the operand of this number.
    Build(u32),
    Label(Label<'a>),
    Branch(Label<'a>),
    /// A jump where the value isn't 0.
    BranchIf(Label<'a>, Slot),
}

/// The template of a statement.
#[derive(Drop)]
pub struct Part<'a> {
    pub pieces: Vec<Piece>,
    pub tail: Tail<'a>,
}
