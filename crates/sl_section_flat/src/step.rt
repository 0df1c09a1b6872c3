//! Statements.

use crate::symbol::{Span, Symbol};
use crate::term::Term;
use sl_word::{Size, SpaceId, UserId};

/// A label: 0 and a name of the section itself, or the number of a macro's call, from 1 on, and a
/// name of the macro.
#[derive(Clone, Copy, Debug)]
pub struct Label<'a> {
    pub call: u32,
    pub name: &'a [u8],
}

/// A target that is written out: a label of the section, or the place out of the instruction for
/// which a number or an operand stands.
#[derive(Clone, Copy, Debug)]
pub enum Direct<'a> {
    Label(Label<'a>),
    Place(Symbol),
}

/// What a section exports. The last number is its size variable.
#[derive(Drop)]
pub enum Export {
    /// What a name stands for.
    Name(Symbol, u32),
    /// `*[const]:n`, a number at a size.
    Constant(Size, Term, u32),
    /// Memory of this size at a pointer that is read at each use, in the default space where none
    /// is written.
    Memory(Option<SpaceId>, Size, Term, u32),
}

/// A statement of a section. The p-code operations are those of the P-Code Reference Manual.
#[derive(Drop)]
pub enum Step<'a> {
    /// A local, by its size variable, with its size where that is written.
    Declare(u32, Option<Size>),
    Set(Symbol, Term),
    SetBits(Symbol, Span, Term),
    /// The space and the size, each where it is written, the pointer, the size variable of what is
    /// stored, and the value, which is reckoned before the pointer.
    Store(Option<SpaceId>, Option<Size>, Term, u32, Term),
    /// A user operation with its arguments.
    User(UserId, Vec<Term>),
    /// The section of the operand of this number, a table.
    Build(u32),
    Label(Label<'a>),
    /// `goto` to a target that is written out (BRANCH).
    Branch(Direct<'a>),
    /// `if` (CBRANCH).
    BranchIf(Term, Direct<'a>),
    /// `goto [e]` (BRANCHIND).
    BranchTo(Term),
    /// `call` to a number or an operand (CALL).
    Call(Symbol),
    /// `call [e]` (CALLIND).
    CallTo(Term),
    /// `return [e]` (RETURN).
    Return(Term),
    Export(Export),
}
