//! Steps.

ghost use Rattle.std.specs.Prelude.{◌≡◌, ◌%◌, ℕ};
ghost use Rattle.sl_step.specs.Kept.{AreKept};
ghost use Rattle.sl_step.specs.Machines.{Fits, IsSeen};
ghost use Rattle.sl_step.specs.Outcomes.{Steps};
ghost use Rattle.sl_step.specs.Stands.{StandsFor, choice_in, specification_in};
ghost use Rattle.sl_step_meaning.specs.Steps.{Machine as MachineOf};

use crate::buffers::StepBuffers;
use crate::error::StepError;
use crate::instruction::Instruction;
use crate::machine::Machine;
use crate::run::run;
use crate::stepper::Stepper;
use sl_emu::{Left, Runner};
use std::alloc::Global;
use std::rc::Rc;

/// What ran in a step.
#[derive(Debug, Drop)]
pub struct Trace {
    pub instruction: Rc<Instruction>,
    /// How many of its operations ran whole.
    pub ran: u64,
    /// Where it went on to.
    pub left: Left,
}

impl Stepper<'_, '_> {
    /// The next instruction of a machine. It is what the machine's memory decodes to: it is read anew
    /// unless it is kept from a step at which the same bytes stood there in the same context. Its
    /// commits are made, and its list is run; then the counter is the address at which the machine
    /// goes on.
    ///
    /// At `Misaligned`, `Decode` and `Unimplemented` nothing has changed. At `Emu` the commits are
    /// made and all effects so far are kept, and the counter is still that of the instruction. At
    /// `NoMemory` some of the commits may be made, or all of them and some of the effects.
    pub fn step<R: Runner>(
        &self,
        alloc: Global,
        buffers: &mut StepBuffers,
        machine: &mut Machine,
        runner: &mut R,
    ) -> Result<Trace, StepError>
        requires stands { StandsFor self.now }
        requires kept { AreKept (specification_in self.now) (choice_in self.now) buffers.old }
        requires fits { Fits (specification_in self.now).tables machine.old }
        ensures kept { AreKept (specification_in self.now) (choice_in self.now) buffers.new }
        ensures fits { Fits (specification_in self.now).tables machine.new }
        ensures steps { (start : ℕ) (m : MachineOf) → IsSeen start machine.old m
            → Steps (specification_in self.now) (choice_in self.now) start m machine.new
            (R.count runner.old) (R.count runner.new) result }
    {
        let alignment = self.compiled.bound.tables.alignment;
        if machine.counter % u64::from(alignment) > 0 {
            return Err(StepError::Misaligned);
        }
        self.step_aligned(alloc, buffers, machine, runner)
    }

    /// The same, where the counter is a multiple of the alignment.
    fn step_aligned<R: Runner>(
        &self,
        alloc: Global,
        buffers: &mut StepBuffers,
        machine: &mut Machine,
        runner: &mut R,
    ) -> Result<Trace, StepError>
        requires stands { StandsFor self.now }
        requires kept { AreKept (specification_in self.now) (choice_in self.now) buffers.old }
        requires fits { Fits (specification_in self.now).tables machine.old }
        requires aligned { machine.old.counter % (specification_in self.now).tables.alignment ≡ 0 }
        ensures kept { AreKept (specification_in self.now) (choice_in self.now) buffers.new }
        ensures fits { Fits (specification_in self.now).tables machine.new }
        ensures steps { (start : ℕ) (m : MachineOf) → IsSeen start machine.old m
            → Steps (specification_in self.now) (choice_in self.now) start m machine.new
            (R.count runner.old) (R.count runner.new) result }
    {
        let address = machine.counter;
        let context = machine.contexts.at(address);
        let read = self.instruction_in(alloc, &machine.state, address, context, buffers);
        let instruction = match read {
            Ok(instruction) => instruction,
            Err(error) => return Err(error),
        };
        let Ok(()) = machine.contexts.commit_all(instruction.commits.as_slice()) else {
            return Err(StepError::NoMemory);
        };
        run(alloc, instruction, self.size, machine, runner)
    }
}
