//! The run of an instruction's list.

ghost use Rattle.std.specs.Prelude.{◌≡◌, ◌^◌, ◌<◌};
ghost use Rattle.sl_faithful_code.specs.Faithful.{AreBytes};
ghost use Rattle.sl_pcode.specs.Operations.{operations};
ghost use Rattle.sl_pcode.specs.WellFormed.{IsWellFormed};
ghost use Rattle.sl_step.specs.Stages.{Runs, error_of, target};
ghost use Rattle.sl_word.specs.Bytes.{address_sizes, byte_at, endian_of};

use crate::error::{EmuFault, StepError};
use crate::instruction::Instruction;
use crate::machine::Machine;
use crate::step::Trace;
use crate::window::wrapped;
use sl_emu::{EmuError, Left, Runner};
use sl_word::AddressSize;
use std::alloc::Global;
use std::rc::Rc;

fn error_of(error: EmuError) -> StepError
    ensures { result ≡ error_of error }
{
    match error {
        EmuError::DivideByZero => StepError::Emu(EmuFault::DivideByZero),
        EmuError::UserOp(user) => StepError::Emu(EmuFault::UserOp(user)),
        EmuError::JumpLimit => StepError::Emu(EmuFault::JumpLimit),
        EmuError::NoMemory => StepError::NoMemory,
    }
}

/// Where a list was left to, with this address behind its instruction.
fn target(after: u64, left: Left) -> u64
    ensures { result ≡ target after left }
{
    match left {
        Left::Next => after,
        Left::To(address) => address,
    }
}

/// Runs the list of an instruction, and moves the counter, unless there is a fault. Addresses have
/// this size.
pub(crate) fn run<R: Runner>(
    alloc: Global,
    instruction: Rc<Instruction>,
    size: AddressSize,
    machine: &mut Machine,
    runner: &mut R,
) -> Result<Trace, StepError>
    requires well_formed { IsWellFormed (address_sizes machine.old.state) (operations instruction.value.ops) }
    requires bytes { AreBytes (byte_at machine.old.state) }
    requires counter { machine.old.counter < 256 ^ size.bytes }
    ensures endian { endian_of machine.new.state ≡ endian_of machine.old.state }
    ensures sizes { address_sizes machine.new.state ≡ address_sizes machine.old.state }
    ensures bytes { AreBytes (byte_at machine.new.state) }
    ensures counter { machine.new.counter < 256 ^ size.bytes }
    ensures contexts { machine.new.contexts ≡ machine.old.contexts }
    ensures runs { Runs (operations instruction.value.ops) instruction.value.after size.bytes machine.old machine.new
        (R.count runner.old) (R.count runner.new) result }
{
    let mut ran = 0;
    match runner.run(alloc, &instruction.ops, &mut machine.state, &mut ran) {
        Ok(left) => {
            machine.counter = wrapped(u128::from(target(instruction.after, left)), size);
            Ok(Trace {
                instruction,
                ran,
                left,
            })
        }
        Err(error) => Err(error_of(error)),
    }
}
