//! `run`: the run of an image, and its text.

ghost use Rattle.std.specs.Prelude.{◌^◌, IfOk, length};
ghost use Rattle.sl_ast.specs.Views.{items_of};
ghost use Rattle.sl_faithful_accepted.specs.Laws.{IsShort};
ghost use Rattle.sl_bind_compile.specs.Compiled.{IsCompiled};
ghost use Rattle.sl_decode_meaning.specs.Actions.{address_bytes};
ghost use Rattle.sl_step_run.specs.Executing.{RunsAs};
ghost use Rattle.sl_step_run.specs.Running.{HasRoom};
ghost use Rattle.sl_step_run.specs.Told.{HasSpacesOf, IsTold, RegistersAreInSpaces};
ghost use Rattle.sl_section_sizes.specs.Sizings.{lists_of};

use crate::execution::{Execution, execute};
use crate::fault::push_fault;
use crate::lines::{push_changes, push_counter, push_registers, push_steps};
use crate::opening::opening;
use sl_bind_compile::Compiled;
use sl_emu::Runner;
use sl_list_instructions::Image;
use sl_spec::Tables;
use sl_word::State;
use std::alloc::{AllocError, Global};

/// What is told of a run.
#[derive(Debug, Drop)]
pub struct Ran {
    /// Its lines.
    pub text: Vec<u8>,
    /// Whether it stopped at a fault.
    pub stopped: bool,
}

/// The text of an execution from an opening state.
fn run_text(
    alloc: Global,
    tables: &Tables,
    opening: &State,
    execution: &Execution,
) -> Result<Vec<u8>, AllocError>
    requires opening { HasSpacesOf tables.now opening.now }
    requires state { HasSpacesOf tables.now execution.now.machine.state }
    requires registers { RegistersAreInSpaces tables.now }
    ensures { IfOk result (λ text. IsTold tables.now opening.now execution.now text.items) }
{
    let state = &execution.machine.state;
    let changes = state.changes(alloc, opening)?;
    let mut out = Vec::new(alloc);
    push_steps(&mut out, execution.ran)?;
    push_counter(&mut out, tables, execution.machine.counter)?;
    push_registers(&mut out, tables, state)?;
    push_changes(&mut out, tables, changes.as_slice())?;
    push_fault(&mut out, tables, execution.fault)?;
    Ok(out)
}

/// Runs an image by a compiled specification for at most `steps` steps from its first byte, and tells
/// what they did to the machine. The run ends at the first fault. The only error is want of memory.
pub fn run_image<R: Runner>(
    alloc: Global,
    compiled: &Compiled<'_>,
    image: &Image,
    steps: u64,
    runner: &mut R,
) -> Result<Ran, AllocError>
    requires short { IsShort (items_of compiled.now.bound.spec) }
    requires compiled { IsCompiled compiled.now }
    requires room { HasRoom (256 ^ address_bytes compiled.now.bound.tables) image.now.base
        (length image.now.bytes) }
    ensures { IfOk result (RunsAs (items_of compiled.now.bound.spec) compiled.now.bound.tables
        (lists_of compiled.now.bound.sizes.items) image.now steps (R.count runner.old)
        (R.count runner.new)) }
{
    let tables = &compiled.bound.tables;
    let execution = execute(alloc, compiled, image, steps, runner)?;
    let opening = opening(alloc, tables, image)?;
    let text = run_text(alloc, tables, &opening, &execution)?;
    let stopped = execution.fault.is_some();
    Ok(Ran { text, stopped })
}
