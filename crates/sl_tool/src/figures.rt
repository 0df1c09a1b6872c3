//! `gen`: an image that is generated is listed and run.

ghost use Rattle.std.specs.Prelude.{◌≡◌, ◌-◌, ◌^◌, ◌<◌, IfOk};
ghost use Rattle.sl_bind_compile.specs.Compiled.{IsCompiled};
ghost use Rattle.sl_outside.specs.Uses.{UsesSink};
ghost use Rattle.sl_step_run.specs.Told.{RegistersAreInSpaces};
ghost use Rattle.sl_step.specs.Machines.{Fits};
ghost use Rattle.sl_tool.specs.Answers.{figures_of};
ghost use Rattle.sl_tool.specs.Figures.{ImageFits, IsFigured, IsListed};
ghost use Rattle.sl_tool.specs.Generated.{figures_told, generated_image, lines_behind};
ghost use Rattle.sl_tool.specs.Generated.{register_at, shown_lines};
ghost use Rattle.sl_tool.specs.Streams.{Streams};
ghost use Rattle.sl_tool.specs.Growth.{Grew};
ghost use Rattle.sl_tool_stages.specs.Outcomes.{FailsToWrite};
ghost use Rattle.sl_tool_stages.specs.StageViews.{compiled_view};
ghost use Rattle.sl_word.specs.Bytes.{byte_at};

use crate::status::Ending;
use crate::writing::write_all;
use sl_decode::address_size;
use sl_emu::Runner;
use sl_list_instructions::{Image, list_image};
use sl_outside::{MemSink, Sink};
use sl_spec::Tables;
use sl_step_run::{Execution, Machine, execute, held};
use sl_tool_generator::{Figures, generated_image, push_line};
use sl_tool_stages::{Compiled, Halt, has_room};
use std::alloc::{AllocError, Global};

/// Writes what the listing and the run of the generated image come to, by the specification.
pub fn figures<K: Sink, R: Runner>(
    alloc: Global,
    size: u64,
    compiled: &Compiled<'_, '_>,
    out: &mut K,
    runner: &mut R,
) -> Result<Ending, Halt>
    requires { IsCompiled compiled.now.specification }
    ensures streams { Streams (figures_of size (compiled_view compiled.now)) (K.taken out.old)
        (K.taken out.new) (Grew (R.count runner.old) (R.count runner.new)) result }
    ensures sink { UsesSink K.faults K.calls out.old out.new (FailsToWrite result) }
{
    let line = line(alloc, size, compiled, runner)?;
    write_all(out, line.as_slice())?;
    Ok(Ending::Done)
}

/// The line that tells of it.
fn line<R: Runner>(
    alloc: Global,
    size: u64,
    compiled: &Compiled<'_, '_>,
    runner: &mut R,
) -> Result<Vec<u8>, AllocError>
    requires { IsCompiled compiled.now.specification }
    ensures { IfOk result (λ line. IsFigured (compiled_view compiled.now) size
        (R.count runner.old) (R.count runner.new) line.items) }
{
    let specification = &compiled.specification;
    let image = image_for(alloc, &specification.bound.tables, size)?;
    let listed = listed(alloc, compiled, &image)?;
    let execution = execute(alloc, specification, &image, size, runner)?;
    let mut line = Vec::new(alloc);
    let figures = figures_of(&specification.bound.tables, size, listed, &execution);
    push_line(&mut line, figures)?;
    Ok(line)
}

/// The image of so many instructions. One that doesn't fit the default space of the tables, as the
/// generated one does, is answered as want of memory.
fn image_for(alloc: Global, tables: &Tables<'_>, size: u64) -> Result<Image, AllocError>
    ensures same { IfOk result (λ i. i ≡ generated_image size) }
    ensures fits { IfOk result (ImageFits tables.now) }
{
    let Ok(count) = u32::try_from(size) else {
        return Err(AllocError);
    };
    let bytes = generated_image(alloc, count)?;
    let address_bytes = u64::from(address_size(tables).bytes);
    if !has_room(address_bytes, 0, bytes.len()) {
        return Err(AllocError);
    }
    Ok(Image {
        bytes,
        base: 0,
        start: 0,
    })
}

/// How many lines of the image's listing show an instruction.
fn listed(alloc: Global, compiled: &Compiled<'_, '_>, image: &Image) -> Result<u64, AllocError>
    requires compiled { IsCompiled compiled.now.specification }
    requires fits { ImageFits compiled.now.specification.bound.tables image.now }
    ensures { IfOk result (IsListed (compiled_view compiled.now) image.now) }
{
    let mut listing = MemSink::new(alloc);
    match list_image(alloc, &compiled.specification, image, &mut listing) {
        Ok(()) => Ok(shown_lines(listing.bytes())),
        Err(_) => Err(AllocError),
    }
}

/// How many lines have no question mark.
fn shown_lines(text: &[u8]) -> u64
    ensures { result ≡ shown_lines text.now }
{
    let mut count = 0;
    let mut is_marked = false;
    'bytes: for byte in text {
        (count, is_marked) = behind(*byte, count, is_marked);
    }
    count
}

/// The lines so far, and whether there is a mark in the one that is open, behind one byte more.
fn behind(byte: u8, count: u64, is_marked: bool) -> (u64, bool)
    requires { count < 2 ^ 64 - 1 }
    ensures { result ≡ lines_behind byte count is_marked }
{
    if byte == b'\n' {
        let count = if is_marked { count } else { count + 1 };
        (count, false)
    } else {
        (count, is_marked || byte == b'?')
    }
}

/// The figures of a run of so many instructions.
fn figures_of(tables: &Tables<'_>, size: u64, listed: u64, execution: &Execution) -> Figures
    requires fits { Fits tables.now execution.now.machine }
    requires spaces { RegistersAreInSpaces tables.now }
    ensures { result ≡ figures_told tables.now size listed execution.now.ran
        (byte_at execution.now.machine.state) }
{
    let machine = &execution.machine;
    Figures {
        instructions: size,
        listed,
        steps: execution.ran,
        r0: register(tables, machine, 0),
        r1: register(tables, machine, 1),
        r2: register(tables, machine, 2),
        r3: register(tables, machine, 3),
    }
}

/// The low byte of what the register of this number holds; 0 where there is none.
fn register(tables: &Tables<'_>, machine: &Machine, number: usize) -> u8
    requires fits { Fits tables.now machine.now }
    requires spaces { RegistersAreInSpaces tables.now }
    ensures { result ≡ register_at tables.now (byte_at machine.now.state) number }
{
    match tables.registers.at(number) {
        Some(register) => (held(tables, &machine.state, register) % 256) as u8,
        None => 0,
    }
}
