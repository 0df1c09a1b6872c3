//! The codes of operations, and the kinds of operands that they take.

ghost use Rattle.std.specs.Prelude.{◌≡◌};
ghost use Rattle.sl_pcode.specs.Codes.{kind_of, name_of};

use sl_word::{Op1, Op2};

/// What an operation does, by the names of the P-Code Reference Manual.
#[derive(Clone, Copy, Debug, PartialEq, Eq)]
pub enum Code {
    /// COPY: the input.
    Copy,
    /// INT_ADD: `+`.
    IntAdd,
    /// INT_SUB: `-`.
    IntSub,
    /// INT_MULT: `*`.
    IntMult,
    /// INT_DIV: `/`.
    IntDiv,
    /// INT_REM: `%`.
    IntRem,
    /// INT_SDIV: `s/`.
    IntSdiv,
    /// INT_SREM: `s%`.
    IntSrem,
    /// INT_LEFT: `<<`.
    IntLeft,
    /// INT_RIGHT: `>>`.
    IntRight,
    /// INT_SRIGHT: `s>>`.
    IntSright,
    /// INT_AND: `&`.
    IntAnd,
    /// INT_OR: `|`.
    IntOr,
    /// INT_XOR: `^`.
    IntXor,
    /// INT_NEGATE: `~`.
    IntNegate,
    /// INT_2COMP: prefix `-`.
    Int2Comp,
    /// INT_EQUAL: `==`.
    IntEqual,
    /// INT_NOTEQUAL: `!=`.
    IntNotEqual,
    /// INT_LESS: `<`.
    IntLess,
    /// INT_LESSEQUAL: `<=`.
    IntLessEqual,
    /// INT_SLESS: `s<`.
    IntSless,
    /// INT_SLESSEQUAL: `s<=`.
    IntSlessEqual,
    /// INT_CARRY: `carry`.
    IntCarry,
    /// INT_SCARRY: `scarry`.
    IntScarry,
    /// INT_SBORROW: `sborrow`.
    IntSborrow,
    /// BOOL_NEGATE: `!`.
    BoolNegate,
    /// BOOL_AND: `&&`.
    BoolAnd,
    /// BOOL_OR: `||`.
    BoolOr,
    /// BOOL_XOR: `^^`.
    BoolXor,
    /// INT_ZEXT: `zext`.
    IntZext,
    /// INT_SEXT: `sext`.
    IntSext,
    /// SUBPIECE: the bytes of the first input from one on, which the second says.
    Subpiece,
    /// POPCOUNT: `popcount`.
    PopCount,
    /// LZCOUNT: `lzcount`.
    LzCount,
    /// LOAD: the bytes at a pointer of a space, by its number.
    Load,
    /// STORE: puts a value at a pointer of a space, by its number.
    Store,
    /// BRANCH: goes to an address, or to a place of the list.
    Branch,
    /// CBRANCH: the same, where a byte is not 0.
    CBranch,
    /// BRANCHIND: goes to the address that the input has.
    BranchInd,
    /// CALL: goes to an address.
    Call,
    /// CALLIND: goes to the address that the input has.
    CallInd,
    /// RETURN: goes to the address that the input has.
    Return,
    /// CALLOTHER: a user operation, by its number, with arguments.
    CallOther,
}

/// What operands a code takes, and what it does with them.
#[derive(Clone, Copy, Debug, PartialEq, Eq)]
pub enum Kind {
    /// An output that is made of one input.
    Unary(Op1),
    /// An output that is made of two inputs.
    Binary(Op2),
    /// An output, the number of a space and a pointer.
    Load,
    /// The number of a space, a pointer and a value.
    Store,
    /// A target.
    Branch,
    /// A target and a condition.
    CBranch,
    /// A target that is an address.
    Call,
    /// A pointer.
    Indirect,
    /// The number of a user operation, and its arguments.
    UserOp,
}

impl Code {
    /// What operands the code takes, and what it does with them.
    pub fn kind(self) -> Kind
        ensures { result ≡ kind_of self }
    {
        match self {
            Code::Copy => Kind::Unary(Op1::Copy),
            Code::IntAdd => Kind::Binary(Op2::IntAdd),
            Code::IntSub => Kind::Binary(Op2::IntSub),
            Code::IntMult => Kind::Binary(Op2::IntMult),
            Code::IntDiv => Kind::Binary(Op2::IntDiv),
            Code::IntRem => Kind::Binary(Op2::IntRem),
            Code::IntSdiv => Kind::Binary(Op2::IntSdiv),
            Code::IntSrem => Kind::Binary(Op2::IntSrem),
            Code::IntLeft => Kind::Binary(Op2::IntLeft),
            Code::IntRight => Kind::Binary(Op2::IntRight),
            Code::IntSright => Kind::Binary(Op2::IntSright),
            Code::IntAnd => Kind::Binary(Op2::IntAnd),
            Code::IntOr => Kind::Binary(Op2::IntOr),
            Code::IntXor => Kind::Binary(Op2::IntXor),
            Code::IntNegate => Kind::Unary(Op1::IntNegate),
            Code::Int2Comp => Kind::Unary(Op1::Int2Comp),
            Code::IntEqual => Kind::Binary(Op2::IntEqual),
            Code::IntNotEqual => Kind::Binary(Op2::IntNotEqual),
            Code::IntLess => Kind::Binary(Op2::IntLess),
            Code::IntLessEqual => Kind::Binary(Op2::IntLessEqual),
            Code::IntSless => Kind::Binary(Op2::IntSless),
            Code::IntSlessEqual => Kind::Binary(Op2::IntSlessEqual),
            Code::IntCarry => Kind::Binary(Op2::IntCarry),
            Code::IntScarry => Kind::Binary(Op2::IntScarry),
            Code::IntSborrow => Kind::Binary(Op2::IntSborrow),
            Code::BoolNegate => Kind::Unary(Op1::BoolNegate),
            Code::BoolAnd => Kind::Binary(Op2::BoolAnd),
            Code::BoolOr => Kind::Binary(Op2::BoolOr),
            Code::BoolXor => Kind::Binary(Op2::BoolXor),
            Code::IntZext => Kind::Unary(Op1::IntZext),
            Code::IntSext => Kind::Unary(Op1::IntSext),
            Code::Subpiece => Kind::Binary(Op2::Subpiece),
            Code::PopCount => Kind::Unary(Op1::PopCount),
            Code::LzCount => Kind::Unary(Op1::LzCount),
            Code::Load => Kind::Load,
            Code::Store => Kind::Store,
            Code::Branch => Kind::Branch,
            Code::CBranch => Kind::CBranch,
            Code::BranchInd => Kind::Indirect,
            Code::Call => Kind::Call,
            Code::CallInd => Kind::Indirect,
            Code::Return => Kind::Indirect,
            Code::CallOther => Kind::UserOp,
        }
    }

    /// The name that the P-Code Reference Manual gives the code.
    pub fn name(self) -> &'static str
        ensures { result.now ≡ name_of self }
    {
        match self {
            Code::Copy => "COPY",
            Code::IntAdd => "INT_ADD",
            Code::IntSub => "INT_SUB",
            Code::IntMult => "INT_MULT",
            Code::IntDiv => "INT_DIV",
            Code::IntRem => "INT_REM",
            Code::IntSdiv => "INT_SDIV",
            Code::IntSrem => "INT_SREM",
            Code::IntLeft => "INT_LEFT",
            Code::IntRight => "INT_RIGHT",
            Code::IntSright => "INT_SRIGHT",
            Code::IntAnd => "INT_AND",
            Code::IntOr => "INT_OR",
            Code::IntXor => "INT_XOR",
            Code::IntNegate => "INT_NEGATE",
            Code::Int2Comp => "INT_2COMP",
            Code::IntEqual => "INT_EQUAL",
            Code::IntNotEqual => "INT_NOTEQUAL",
            Code::IntLess => "INT_LESS",
            Code::IntLessEqual => "INT_LESSEQUAL",
            Code::IntSless => "INT_SLESS",
            Code::IntSlessEqual => "INT_SLESSEQUAL",
            Code::IntCarry => "INT_CARRY",
            Code::IntScarry => "INT_SCARRY",
            Code::IntSborrow => "INT_SBORROW",
            Code::BoolNegate => "BOOL_NEGATE",
            Code::BoolAnd => "BOOL_AND",
            Code::BoolOr => "BOOL_OR",
            Code::BoolXor => "BOOL_XOR",
            Code::IntZext => "INT_ZEXT",
            Code::IntSext => "INT_SEXT",
            Code::Subpiece => "SUBPIECE",
            Code::PopCount => "POPCOUNT",
            Code::LzCount => "LZCOUNT",
            Code::Load => "LOAD",
            Code::Store => "STORE",
            Code::Branch => "BRANCH",
            Code::CBranch => "CBRANCH",
            Code::BranchInd => "BRANCHIND",
            Code::Call => "CALL",
            Code::CallInd => "CALLIND",
            Code::Return => "RETURN",
            Code::CallOther => "CALLOTHER",
        }
    }
}
