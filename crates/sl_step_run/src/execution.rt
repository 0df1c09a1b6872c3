//! Runs of images.

ghost use Rattle.std.specs.Prelude.{ℕ, ◌^◌, IfOk, length};
ghost use Rattle.sl_ast.specs.Views.{items_of};
ghost use Rattle.sl_faithful_accepted.specs.Laws.{IsShort};
ghost use Rattle.sl_bind_compile.specs.Compiled.{IsCompiled};
ghost use Rattle.sl_decode_meaning.specs.Actions.{address_bytes};
ghost use Rattle.sl_step_run.specs.Executing.{Executes, Runs, Steps, stopped_by};
ghost use Rattle.sl_step_run.specs.Running.{HasRoom};
ghost use Rattle.sl_section_sizes.specs.Sizings.{lists_of};
ghost use Rattle.sl_step.specs.Kept.{AreKept};
ghost use Rattle.sl_step.specs.Machines.{Fits, IsSeen};
ghost use Rattle.sl_step.specs.Stands.{StandsFor, choice_in, specification_in};
ghost use Rattle.sl_step_meaning.specs.Steps.{Machine as MachineOf};

use crate::fault::{RunFault, fault_in};
use crate::opening::opening;
use sl_bind_compile::Compiled;
use sl_decode_contexts::ContextMap;
use sl_emu::Runner;
use sl_list_instructions::Image;
use sl_step::{Machine, StepBuffers, Stepper};
use std::alloc::{AllocError, Global};

/// A machine behind its last step.
#[derive(Drop)]
pub struct Execution {
    pub machine: Machine,
    /// How many steps ended without a fault.
    pub ran: u64,
    /// Why the next step didn't end, if it was made.
    pub fault: Option<RunFault>,
}

/// Makes a step: the fault, if it doesn't end. The only error is want of memory.
fn next<R: Runner>(
    alloc: Global,
    stepper: &Stepper<'_, '_>,
    buffers: &mut StepBuffers,
    machine: &mut Machine,
    runner: &mut R,
) -> Result<Option<RunFault>, AllocError>
    requires stands { StandsFor stepper.now }
    requires kept { AreKept (specification_in stepper.now) (choice_in stepper.now) buffers.old }
    requires fits { Fits (specification_in stepper.now).tables machine.old }
    ensures kept { AreKept (specification_in stepper.now) (choice_in stepper.now) buffers.new }
    ensures fits { Fits (specification_in stepper.now).tables machine.new }
    ensures steps { IfOk result (λ fault. (start : ℕ) (m : MachineOf)
        → IsSeen start machine.old m
        → Steps (specification_in stepper.now) (choice_in stepper.now) start m machine.new
        (R.count runner.old) (R.count runner.new) (stopped_by fault)) }
{
    let Some(error) = stepper.step(alloc, buffers, machine, runner).err() else {
        return Ok(None);
    };
    match fault_in(error) {
        Some(fault) => Ok(Some(fault)),
        None => Err(AllocError),
    }
}

/// Makes at most `steps` steps. The result is how many ended without a fault, and the fault. The
/// only error is want of memory.
fn run_steps<R: Runner>(
    alloc: Global,
    stepper: &Stepper<'_, '_>,
    machine: &mut Machine,
    steps: u64,
    runner: &mut R,
) -> Result<(u64, Option<RunFault>), AllocError>
    requires stands { StandsFor stepper.now }
    requires fits { Fits (specification_in stepper.now).tables machine.old }
    ensures fits { Fits (specification_in stepper.now).tables machine.new }
    ensures runs { IfOk result (λ r. (start : ℕ) (m : MachineOf) → IsSeen start machine.old m
        → Runs (specification_in stepper.now) (choice_in stepper.now) start m machine.new
        (R.count runner.old) (R.count runner.new) steps r.0 (stopped_by r.1)) }
{
    let mut buffers = StepBuffers::new(alloc)?;
    'steps: for ran in 0..steps {
        if let Some(fault) = next(alloc, stepper, &mut buffers, machine, runner)? {
            return Ok((ran, Some(fault)));
        }
    }
    Ok((steps, None))
}

/// Runs an image for at most `steps` steps from its first byte. The run ends at the first fault. The
/// only error is want of memory.
pub fn execute<R: Runner>(
    alloc: Global,
    compiled: &Compiled<'_>,
    image: &Image,
    steps: u64,
    runner: &mut R,
) -> Result<Execution, AllocError>
    requires short { IsShort (items_of compiled.now.bound.spec) }
    requires compiled { IsCompiled compiled.now }
    requires room { HasRoom (256 ^ address_bytes compiled.now.bound.tables) image.now.base
        (length image.now.bytes) }
    ensures { IfOk result (Executes (items_of compiled.now.bound.spec) compiled.now.bound.tables
        (lists_of compiled.now.bound.sizes.items) image.now steps (R.count runner.old)
        (R.count runner.new)) }
{
    let stepper = Stepper::new(alloc, compiled)?;
    let state = opening(alloc, &compiled.bound.tables, image)?;
    let contexts = ContextMap::new(alloc, image.start);
    let mut machine = Machine {
        state,
        counter: image.base,
        contexts,
    };
    let (ran, fault) = run_steps(alloc, &stepper, &mut machine, steps, runner)?;
    Ok(Execution {
        machine,
        ran,
        fault,
    })
}
