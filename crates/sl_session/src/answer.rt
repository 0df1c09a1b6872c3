//! What stands at an address.

ghost use Rattle.std.specs.Prelude.{◌≡◌};
ghost use Rattle.sl_list_instructions.specs.Instructions.{mark_of};
ghost use Rattle.sl_session.specs.Answers.{length_of};

use sl_build::Built;
use sl_decode_meaning::Fault;
use sl_list_instructions::mark_of;

/// What stands at an address. Each has a `length`: how many bytes its line of a listing covers.
#[derive(Clone, Copy, Debug, PartialEq, Eq)]
pub enum Answer {
    /// An instruction.
    Instruction {
        length: u32,
        /// The address after it.
        after: u64,
        /// The context that it was decoded from.
        context: u64,
    },
    /// Bytes that don't decode. The length is the alignment.
    Undecoded {
        fault: Fault,
        length: u32,
    },
    /// The address is no multiple of the alignment. The length leads to the next one.
    Misaligned {
        length: u32,
    },
}

impl Answer {
    /// How many bytes its line of a listing covers.
    pub fn length(self) -> u32
        ensures { result ≡ length_of self }
    {
        match self {
            Answer::Instruction { length, .. } => length,
            Answer::Undecoded { length, .. } => length,
            Answer::Misaligned { length } => length,
        }
    }
}

/// The mark of a fault.
pub(crate) fn mark_at(fault: &Fault) -> &'static [u8]
    ensures { result.now ≡ mark_of fault.now }
{
    mark_of(*fault)
}

/// What stands at an address, and what it does.
#[derive(Debug, Drop)]
pub struct Translated {
    pub answer: Answer,
    /// The operations of an instruction.
    pub built: Option<Built>,
}
