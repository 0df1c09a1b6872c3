//! Why an instruction doesn't end.

use sl_decode_meaning::Fault;
use sl_word::UserId;

/// A fault of an instruction's section.
#[derive(Clone, Copy, Debug, PartialEq, Eq)]
pub enum EmuFault {
    /// A division by 0.
    DivideByZero,
    /// A user operation, which has no meaning here.
    UserOp(UserId),
    /// A jump inside the list beyond `JUMP_LIMIT` of the emulator.
    JumpLimit,
}

/// Why an instruction doesn't end.
#[derive(Clone, Copy, Debug, PartialEq, Eq)]
pub enum StepError {
    /// The counter is no multiple of the alignment.
    Misaligned,
    /// The bytes at the counter don't decode.
    Decode(Fault),
    /// A constructor of the instruction is `unimpl`.
    Unimplemented,
    /// The instruction's section has a fault.
    Emu(EmuFault),
    /// Memory ran out. The machine is not to be run on.
    NoMemory,
}
